//! What a line says of its version comes into the pool.
ghost use Rattle.std.specs.Prelude.{◌≡◌, ◌++◌, ◌∷◌, [], List, IfOk, OnOk, map};
ghost use Rattle.index_text.specs.Entries.{EntryText};
ghost use Rattle.index_text.specs.Plain.{plain_entry, plain_state};
ghost use Rattle.resolvo_pool.specs.Pool.{IsLater};
ghost use Rattle.example_index.specs.Listed.{with_bytes, has_favored, has_locked};
ghost use Rattle.example_index.specs.Meaning.{AreEntries};
ghost use Rattle.example_index.specs.Package.{IsState};

use crate::interning::{Ids, add_limit, add_need, intern_reason};
use crate::packages::Entries;
use index_text::{Entry, State};
use resolvo_ids::StoreError;
use resolvo_pool::{Dependencies, KnownDependencies};
use std::alloc::Global;

/// What a line says of its version, by ids.
pub(crate) fn intern_state(
    alloc: Global,
    pool: &mut Ids,
    state: &State<'_>,
) -> Result<Entries, StoreError>
    ensures is { IfOk result (λ found. IsState (with_bytes pool.new) found (plain_state state.now)) }
    ensures later { IsLater pool.old pool.new }
    ensures solvables { pool.new.solvables ≡ pool.old.solvables }
{
    match state {
        State::Offered(entries) => {
            let needs = intern_entries(alloc, pool, entries)?;
            Ok(Entries {
                needs: Dependencies::Known(needs),
                favored: has_favored(entries),
                locked: has_locked(entries),
                excluded: None,
            })
        }
        State::Excluded(reason) => {
            let reason = intern_reason(alloc, pool, reason)?;
            Ok(Entries {
                needs: Dependencies::Known(KnownDependencies::new(alloc)),
                favored: false,
                locked: false,
                excluded: Some(reason),
            })
        }
        State::Unknown(reason) => {
            let reason = intern_reason(alloc, pool, reason)?;
            Ok(Entries {
                needs: Dependencies::Unknown(reason),
                favored: false,
                locked: false,
                excluded: None,
            })
        }
    }
}

/// What is needed and limited by entries.
pub(crate) fn intern_entries(
    alloc: Global,
    pool: &mut Ids,
    entries: &[Entry<'_>],
) -> Result<KnownDependencies, StoreError>
    ensures are { IfOk result (λ known. AreEntries (with_bytes pool.new) known (map plain_entry entries.now)) }
    ensures later { IsLater pool.old pool.new }
    ensures solvables { pool.new.solvables ≡ pool.old.solvables }
{
    let mut found = KnownDependencies::new(alloc);
    found.requirements.reserve_exact(entries.len())?;
    for entry in entries {
        intern_entry(alloc, pool, &mut found, entry)?;
    }
    Ok(found)
}

/// What is needed or limited by an entry, if it says so.
fn intern_entry(
    alloc: Global,
    pool: &mut Ids,
    found: &mut KnownDependencies,
    entry: &Entry<'_>,
) -> Result<(), StoreError>
    ensures is { OnOk result ((before : List EntryText) → AreEntries (with_bytes pool.old) found.old before →
        AreEntries (with_bytes pool.new) found.new (before ++ plain_entry entry.now ∷ [])) }
    ensures later { IsLater pool.old pool.new }
    ensures solvables { pool.new.solvables ≡ pool.old.solvables }
{
    match entry {
        Entry::Needs(need) => add_need(alloc, pool, &mut found.requirements, need),
        Entry::Limits(set) => add_limit(alloc, pool, &mut found.constrains, set),
        Entry::Favored => Ok(()),
        Entry::Locked => Ok(()),
    }
}

/// Whether one of the entries is `favored`.
fn has_favored(entries: &[Entry<'_>]) -> bool
    ensures { result ≡ has_favored (map plain_entry entries.now) }
{
    for entry in entries {
        if let Entry::Favored = entry {
            return true;
        }
    }
    false
}

/// Whether one of the entries is `locked`.
fn has_locked(entries: &[Entry<'_>]) -> bool
    ensures { result ≡ has_locked (map plain_entry entries.now) }
{
    for entry in entries {
        if let Entry::Locked = entry {
            return true;
        }
    }
    false
}
