//! The clauses that watch nothing: no watch list finds them.
//!
//! A saturation visits them beside the watch lists. So their ids are kept, that the records of the others needn't be
//! passed over. Whether a clause watches something never changes: each record is looked at once, at the first
//! saturation behind it.
ghost use Rattle.std.specs.Prelude.{◌≡◌, ◌+◌, ◌<◌, ◌≤◌, ◌-◌, ◌^◌, [], length, nat_lt, OnOk, OnErr, IfErr};
ghost use Rattle.typed_ids.specs.declared.error.StoreError.TheVariants.{OutOfMemory};
ghost use Rattle.watch_map.specs.WatchLists.{watched_by, AreUnwatchedBelow};

use crate::watched_literals::WatchedLiterals;
use std::alloc::Allocator;
use typed_ids::{ClauseId, DenseIndex, StoreError};

/// The clauses below a bound that watch nothing.
#[derive(Drop)]
pub(crate) struct UnwatchedClauses<A: Allocator + Copy> {
    /// Their ids, ascending.
    pub(crate) ids: Vec<ClauseId, A>,
    /// The bound: the clauses from here on weren't looked at yet.
    pub(crate) bound: usize,
}

impl<A: Allocator + Copy> UnwatchedClauses<A> {
    /// No clauses. Takes no memory.
    pub(crate) fn new(alloc: A) -> Self
        ensures ids { result.ids.items ≡ [] }
        ensures bound { result.bound ≡ 0 }
    {
        UnwatchedClauses {
            ids: Vec::new(alloc),
            bound: 0,
        }
    }

    /// Looks at the records that came since. Takes memory for the ids of those that watch nothing.
    pub(crate) fn catch_up(&mut self, watches: &[Option<WatchedLiterals>]) -> Result<(), StoreError>
        requires few { length watches.now ≤ 2 ^ 32 - 1 }
        requires are { AreUnwatchedBelow watches.now self.old.bound self.old.ids.items }
        ensures are { AreUnwatchedBelow watches.now self.new.bound self.new.ids.items }
        ensures ok { OnOk result (self.new.bound ≡ length watches.now) }
        ensures memory { IfErr result (λ e. e ≡ OutOfMemory) }
    {
        'records: while self.bound < watches.len() {
            self.inspect_next(watches)?;
        }
        Ok(())
    }

    /// Looks at the next record.
    fn inspect_next(&mut self, watches: &[Option<WatchedLiterals>]) -> Result<(), StoreError>
        requires few { length watches.now ≤ 2 ^ 32 - 1 }
        requires next { self.old.bound < length watches.now }
        requires are { AreUnwatchedBelow watches.now self.old.bound self.old.ids.items }
        ensures are { AreUnwatchedBelow watches.now self.new.bound self.new.ids.items }
        ensures ok { OnOk result (self.new.bound ≡ self.old.bound + 1) }
        ensures err { OnErr result (self.new.bound ≡ self.old.bound) }
        ensures memory { IfErr result (λ e. e ≡ OutOfMemory) }
    {
        if is_watching(watches, self.bound) {
            self.bound += 1;
            return Ok(());
        }
        self.ids.push(ClauseId::from_index(self.bound))?;
        self.bound += 1;
        Ok(())
    }
}

/// Whether the clause of this index watches something.
fn is_watching(watches: &[Option<WatchedLiterals>], index: usize) -> bool
    ensures { result ≡ nat_lt 0 (length (watched_by watches.now index)) }
{
    match watches.get(index) {
        Some(Some(watched)) => !watched.watched_literals.as_slice().is_empty(),
        _ => false,
    }
}
