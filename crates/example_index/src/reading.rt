//! The reader of an index.
ghost use Rattle.std.specs.Prelude.{◌≡◌, ◌<◌, ◌^◌, ◌++◌, ◌∷◌, ◌==◌, [], false, ℕ, List, IfOk, OnOk};
ghost use Rattle.std.specs.Prelude.{length, map, option_and_then, slice_get};
ghost use Rattle.index_text.specs.Index.{index_of, index_in_format, versions_of, with_version};
ghost use Rattle.index_text.specs.Lines.{VersionText, request_said, version_said};
ghost use Rattle.index_text.specs.Plain.{plain_version};
ghost use Rattle.index_text.specs.PlainLines.{plain_line};
ghost use Rattle.index_text.specs.PlainFormats.{plain_format};
ghost use Rattle.resolvo_pool.specs.Pool.{IsLater};
ghost use Rattle.example_index.specs.Listed.{AreRead, IsIndex, IsRead, IsOf, with_bytes};
ghost use Rattle.example_index.specs.Reading.{IsAdded, IsLineAdded, IsRequestAdded, numbered};
ghost use Rattle.example_index.specs.Meaning.{IsNamed};
ghost use Rattle.example_index.specs.Package.{IsSame, IsWith};

use crate::fault::IndexFault;
use crate::index::SmallIndex;
use crate::interning::intern_name;
use crate::packages::{Entries, Package};
use crate::states::{intern_entries, intern_state};
use index_text::{Line, Reader, Version};
use indexmap::IndexSet;
use resolvo_ids::{DenseIndex, NameId, SolvableId, StoreError};
use std::alloc::Global;

/// The versions that lines said so far, each by the id of its name and its number.
type Known = IndexSet<(NameId, u32)>;

/// Reads the index of these lines: the request, and then a version in each line.
pub fn read(alloc: Global, lines: &[Line<'_>]) -> Result<SmallIndex, IndexFault>
    ensures { AreRead (λ said index. IsIndex index said) (index_of (map plain_line lines.now)) result }
{
    let mut reader = Reader::new(alloc, lines)?;
    let mut index = SmallIndex::new(alloc);
    match index.add_lines(&mut reader, lines) {
        Ok(()) => {
            index.format = reader.into_format();
            Ok(index)
        }
        Err(fault) => {
            drop(index);
            Err(fault)
        }
    }
}

impl SmallIndex {
    /// Adds the lines of a whole index, where there is nothing yet.
    fn add_lines<'t>(
        &mut self,
        reader: &mut Reader<'t>,
        lines: &[Line<'t>],
    ) -> Result<(), IndexFault>
        requires { self.old.pool.solvables ≡ [] }
        ensures are { IsOf self.old [] →
            AreRead (λ said done. IsRead (plain_format reader.old.format) self.new said)
            (index_in_format (plain_format reader.old.format) (map plain_line lines.now)) result }
        ensures format { reader.new.format ≡ reader.old.format }
    {
        let [first, others @ ..] = lines else {
            return Err(IndexFault::Unreadable(1));
        };
        self.add_request(reader, first)?;
        self.add_versions(reader, others)
    }

    /// Adds the request of a line.
    fn add_request<'t>(
        &mut self,
        reader: &mut Reader<'t>,
        line: &Line<'t>,
    ) -> Result<(), IndexFault>
        ensures is { IsRequestAdded self.new
            (option_and_then (request_said (plain_format reader.old.format)) (plain_line line.now).words)
            line.now.number result }
        ensures kept { (versions : List VersionText) → IsOf self.old versions → IsOf self.new versions }
        ensures solvables { self.new.pool.solvables ≡ self.old.pool.solvables }
        ensures format { reader.new.format ≡ reader.old.format }
    {
        let Some(request) = reader.request(line)? else {
            return Err(IndexFault::Unreadable(line.number));
        };
        let needs = intern_entries(self.alloc, &mut self.pool, &request);
        self.pool.tell_sound();
        self.request = needs?.requirements;
        Ok(())
    }

    /// Adds the versions of lines, where there is none yet.
    fn add_versions<'t>(
        &mut self,
        reader: &mut Reader<'t>,
        lines: &[Line<'t>],
    ) -> Result<(), IndexFault>
        requires { self.old.pool.solvables ≡ [] }
        ensures are { (versions : List VersionText) → IsOf self.old versions →
            AreRead (λ more done. IsOf self.new more)
            (versions_of (plain_format reader.old.format) versions (map plain_line lines.now)) result }
        ensures later { IsLater self.old.pool self.new.pool }
        ensures request { self.new.request ≡ self.old.request }
        ensures format { reader.new.format ≡ reader.old.format }
    {
        let mut known = IndexSet::with_capacity(self.alloc, lines.len())?;
        for line in lines {
            self.add_line(reader, &mut known, line)?;
        }
        Ok(())
    }

    /// Adds the version of a line.
    fn add_line<'t>(
        &mut self,
        reader: &mut Reader<'t>,
        known: &mut Known,
        line: &Line<'t>,
    ) -> Result<(), IndexFault>
        requires { known.old.keys ≡ map numbered self.old.pool.solvables }
        ensures is { (versions : List VersionText) → IsOf self.old versions → IsLineAdded (IsOf self.new)
            (option_and_then (with_version versions)
            (option_and_then (version_said (plain_format reader.old.format)) (plain_line line.now).words))
            line.now.number result }
        ensures known { OnOk result (known.new.keys ≡ map numbered self.new.pool.solvables) }
        ensures later { IsLater self.old.pool self.new.pool }
        ensures request { self.new.request ≡ self.old.request }
        ensures format { reader.new.format ≡ reader.old.format }
    {
        let Some(version) = reader.version(line)? else {
            return Err(IndexFault::Unreadable(line.number));
        };
        if self.add_version(known, &version)? {
            Ok(())
        } else {
            Err(IndexFault::Unreadable(line.number))
        }
    }

    /// Adds a version, unless there is the same one.
    fn add_version(&mut self, known: &mut Known, version: &Version<'_>) -> Result<bool, StoreError>
        requires { known.old.keys ≡ map numbered self.old.pool.solvables }
        ensures is { IfOk result (λ added. (versions : List VersionText) → IsOf self.old versions →
            IsAdded (IsOf self.new) (with_version versions (plain_version version.now)) added) }
        ensures known { OnOk result (known.new.keys ≡ map numbered self.new.pool.solvables) }
        ensures later { IsLater self.old.pool self.new.pool }
        ensures request { self.new.request ≡ self.old.request }
    {
        let name = intern_name(self.alloc, &mut self.pool, version.name);
        self.pool.tell_sound();
        let name = name?;
        if !known.insert((name, version.version))? {
            return Ok(false);
        }
        reach(self.alloc, &mut self.packages, name.to_index())?;
        self.add_fresh(name, version)?;
        Ok(true)
    }

    /// Adds a version that isn't there yet, under the id of its name.
    fn add_fresh(&mut self, name: NameId, version: &Version<'_>) -> Result<(), StoreError>
        requires name { name < length self.old.pool.names }
        requires package { name < length self.old.packages.items }
        ensures is { OnOk result ((versions : List VersionText) → IsOf self.old versions →
            IsNamed (with_bytes self.old.pool) name version.now.name.now →
            IsOf self.new (versions ++ plain_version version.now ∷ [])) }
        ensures solvables { OnOk result (self.new.pool.solvables ≡
            self.old.pool.solvables ++ record { name = name; payload = version.now.version } ∷ []) }
        ensures later { IsLater self.old.pool self.new.pool }
        ensures request { self.new.request ≡ self.old.request }
    {
        let state = intern_state(self.alloc, &mut self.pool, &version.state);
        self.pool.tell_sound();
        let state = state?;
        let solvable = match self.pool.intern_solvable(name, version.version) {
            Ok(solvable) => solvable,
            Err(refused) => return Err(StoreError::from(refused)),
        };
        add(&mut self.packages, name.to_index(), solvable, &state)?;
        Ok(self.needs.push(state.needs)?)
    }
}

/// Adds packages without versions up to a place.
fn reach(alloc: Global, packages: &mut Vec<Package>, place: usize) -> Result<(), StoreError>
    requires { place < 2 ^ 32 }
    ensures same { (m : ℕ) → IsSame (slice_get packages.old.items m) (slice_get packages.new.items m) }
    ensures reached { OnOk result (place < length packages.new.items) }
{
    for _ in packages.len()..place + 1 {
        packages.push(Package::new(alloc))?;
    }
    Ok(())
}

/// Adds a version to the package at a place.
fn add(
    packages: &mut Vec<Package>,
    place: usize,
    version: SolvableId,
    said: &Entries,
) -> Result<(), StoreError>
    requires { place < length packages.now.items }
    ensures with { OnOk result
        (IsWith (slice_get packages.old.items place) (slice_get packages.new.items place) version said.now) }
    ensures same { (m : ℕ) → (place == m) ≡ false →
        IsSame (slice_get packages.old.items m) (slice_get packages.new.items m) }
{
    packages[place].add(version, said)
}
