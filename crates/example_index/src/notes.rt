//! Notes on an index: version sets that no version is in.
ghost use Rattle.std.specs.Prelude.{◌≡◌, ◌<◌, ◌≤◌, [], All, IfOk, OnOk, MatchOption};
ghost use Rattle.std.specs.Prelude.{length, map, slice_get, string_bytes};
ghost use Rattle.resolvo_pool.specs.Texts.{IsAppended, IsContinued, IsSameText};
ghost use Rattle.example_index.specs.Index.{here, of_name, versions_of};
ghost use Rattle.example_index.specs.Listed.{places_where};
ghost use Rattle.example_index.specs.Notes.{absent_text, empty_text, has_within, is_empty_at, is_empty_set, is_noted};
ghost use Rattle.example_index.specs.Notes.{comma_before, more_text, note_text, notes_from, shown, versions_from};

use crate::index::SmallIndex;
use crate::interning::Ids;
use crate::range::VersionRange;
use resolvo_ids::{DenseIndex, NameId, SolvableId, StoreError, VersionSetId};
use resolvo_pool::Interner;
use std::alloc::{AllocError, Global};

/// How many notes are written at most.
const NOTES: usize = 20;

/// How many versions of a package a note names at most.
const VERSIONS: usize = 5;

impl SmallIndex {
    /// The version sets of the index without a candidate, each once. Those of the request come first, and then those of
    /// the lines, in their order.
    #[tactic(auto, using(crate::proofs::NoteLemmas::one_listed, crate::proofs::NoteLemmas::none_listed))]
    pub fn empty_sets(&self, alloc: Global) -> Result<Vec<VersionSetId>, AllocError>
        ensures are { IfOk result (λ found. map (λ set. set.0) found.items ≡
            places_where (is_empty_at self.now) (length self.now.pool.version_sets)) }
        ensures known { IfOk result (λ found.
            All (λ set. set.0 < length self.now.pool.version_sets) found.items) }
    {
        let mut found = Vec::new(alloc);
        let mut place = 0;
        while let Some(set) = self.set_at(place) {
            if self.is_empty(set) {
                found.push(set)?;
            }
            place += 1;
        }
        Ok(found)
    }

    /// The version set at this place of the pool.
    fn set_at(&self, place: usize) -> Option<VersionSetId>
        ensures { MatchOption result (length self.now.pool.version_sets ≤ place)
            (λ set. (set.0 ≡ place) × (place < length self.now.pool.version_sets)) }
    {
        self.pool.tell_sound();
        let set = VersionSetId(u32::try_from(place).ok()?);
        if self.pool.knows_version_set(set) {
            Some(set)
        } else {
            None
        }
    }

    /// Whether a version set has no candidate.
    fn is_empty(&self, set: VersionSetId) -> bool
        requires { set.0 < length self.now.pool.version_sets }
        ensures { result ≡ is_empty_set self.now set }
    {
        let name = self.pool.resolve_version_set_package_name(set);
        let range = *self.pool.resolve_version_set(set);
        match self.packages.get(name.to_index()) {
            Some(package) => !has_within(&self.pool, &package.versions, name, range),
            None => true,
        }
    }

    /// Appends a line for each of these version sets without a candidate, for twenty at most, and how many more sets
    /// there are. A package without versions is named once.
    #[tactic(auto, using(crate::proofs::NoteLemmas::continued_none, crate::proofs::NoteLemmas::continued_more))]
    pub fn write_notes(
        &self,
        alloc: Global,
        sets: &[VersionSetId],
        text: &mut String,
    ) -> Result<(), StoreError>
        requires { All (λ set. set.0 < length self.now.pool.version_sets) sets.now }
        ensures appends { IsContinued text.old text.new }
        ensures none { sets.now ≡ [] → IsSameText text.old text.new }
        ensures told { OnOk result (IsAppended text.old text.new (notes_from self.now NOTES [] sets.now)) }
    {
        let mut noted = Vec::new(alloc);
        let mut room = NOTES;
        for (i, set) in sets.iter().enumerate() {
            if room == 0 {
                text.push_str(&more_text(alloc, sets.len() - i)?)?;
                return Ok(());
            }
            if self.is_noted(*set, &noted) {
                continue;
            }
            text.push_str(&self.note(alloc, *set)?)?;
            noted.push(self.pool.resolve_version_set_package_name(*set))?;
            room -= 1;
        }
        Ok(())
    }

    /// Whether the package of a version set is one of those that were noted, and no line has it.
    fn is_noted(&self, set: VersionSetId, noted: &[NameId]) -> bool
        requires { set.0 < length self.now.pool.version_sets }
        ensures { result ≡ is_noted self.now noted.now set }
    {
        let name = self.pool.resolve_version_set_package_name(set);
        self.versions_of(name).is_empty() && noted.contains(&name)
    }

    /// What is said of a version set without a candidate.
    fn note(&self, alloc: Global, set: VersionSetId) -> Result<String, StoreError>
        requires { set.0 < length self.now.pool.version_sets }
        ensures { IfOk result (λ note. string_bytes note ≡ note_text self.now set) }
    {
        let id = self.pool.resolve_version_set_package_name(set);
        let name = self.pool.resolve_package_name(id).as_str();
        let versions = self.versions_of(id);
        if versions.is_empty() {
            return Ok(absent_text(alloc, name)?);
        }
        let range = self.range_text(alloc, set)?;
        let versions = self.first_versions(alloc, versions)?;
        Ok(empty_text(alloc, name, &range, &versions)?)
    }

    /// The versions of a package.
    fn versions_of(&self, name: NameId) -> &[SolvableId]
        ensures { result.now ≡ versions_of (slice_get self.now.packages.items name) }
    {
        match self.packages.get(name.to_index()) {
            Some(package) => &package.versions,
            None => &[],
        }
    }

    /// The first five versions of these solvables, with `..` behind them if there are more.
    fn first_versions(&self, alloc: Global, solvables: &[SolvableId]) -> Result<String, AllocError>
        ensures { IfOk result (λ text. string_bytes text ≡ versions_from self.now 0 solvables.now) }
    {
        let mut text = String::new(alloc);
        for (i, solvable) in solvables.iter().enumerate() {
            text.push_str(comma_before(i))?;
            if i == VERSIONS {
                text.push_str("..")?;
                return Ok(text);
            }
            self.write_version(*solvable, &mut text)?;
        }
        Ok(text)
    }

    /// Appends the version of a solvable.
    fn write_version(&self, solvable: SolvableId, text: &mut String) -> Result<(), AllocError>
        ensures { OnOk result (IsAppended text.old text.new (shown self.now solvable)) }
    {
        if self.pool.knows_solvable(solvable) {
            let version = self.pool.resolve_solvable(solvable).payload;
            return self.format.write(version, text);
        }
        Ok(())
    }
}

/// What stands before the version at this place.
fn comma_before(place: usize) -> &'static str
    ensures { result.now ≡ comma_before place }
{
    if place == 0 { "" } else { ", " }
}

/// Says that no line has a package.
fn absent_text(alloc: Global, name: &str) -> Result<String, AllocError>
    ensures { IfOk result (λ text. string_bytes text ≡ absent_text name.now) }
{
    format!(in alloc; "no line has the package {name}\n")
}

/// Says that a range holds no version of a package, which has these versions.
fn empty_text(alloc: Global, name: &str, range: &str, versions: &str) -> Result<String, AllocError>
    ensures { IfOk result (λ text. string_bytes text ≡ empty_text name.now range.now versions.now) }
{
    format!(in alloc; "{name} {range} holds no version; {name} has {versions}\n")
}

/// Says how many version sets are left.
fn more_text(alloc: Global, more: usize) -> Result<String, AllocError>
    ensures { IfOk result (λ text. string_bytes text ≡ more_text more) }
{
    format!(in alloc; "and {more} more version sets\n")
}

/// Whether a version of a package is within the range.
fn has_within(pool: &Ids, solvables: &[SolvableId], name: NameId, range: VersionRange) -> bool
    ensures { result ≡ has_within pool.now range (of_name pool.now name (here pool.now solvables.now)) }
{
    for solvable in solvables {
        if pool.knows_solvable(*solvable) {
            let known = pool.resolve_solvable(*solvable);
            if known.name == name && range.holds(known.payload) {
                return true;
            }
        }
    }
    false
}
