//! How names with their versions, and version sets, come into the pool.
ghost use Rattle.std.specs.Prelude.{◌≡◌, ◌+◌, ◌<◌, ◌≤◌, ◌∷◌, Some, length, slice_get, IfOk, OnOk};
ghost use Rattle.std.specs.List.{AllZip};
ghost use Rattle.resolvo_pool.specs.Pool.{AreSetsHere, IsLater};
ghost use Rattle.debian_directory.specs.Plain.{plain_name};
ghost use Rattle.debian_provider.specs.Answers.{AreHere};
ghost use Rattle.debian_provider.specs.Growing.{HasMoreSets, IsAt, IsNameAdded};
ghost use Rattle.debian_provider.specs.Meaning.{IsEntry, IsNamed};
ghost use Rattle.debian_provider.specs.Sets.{plain_set};

use crate::reached::{Ids, Reached};
use crate::set::Set;
use debian_directory::Name;
use resolvo_ids::{
    DenseIndex, NameId, SolvableId, StoreError, StringId, VersionSetId, VersionSetUnionId,
};
use std::alloc::Global;

impl<'t> Reached<'t> {
    /// The id of a text.
    pub(crate) fn add_string(&mut self, text: String) -> Result<StringId, StoreError>
        ensures { OnOk result (HasMoreSets self.old self.new) }
    {
        match self.pool.intern_string(text) {
            Ok(id) => Ok(id),
            Err(refused) => Err(StoreError::from(refused)),
        }
    }

    /// The id of a new name, whose versions are the packages at these places. After a refusal no name comes in: the
    /// versions may not be in step.
    pub(crate) fn add_name(
        &mut self,
        alloc: Global,
        name: Name<'t>,
        places: &[usize],
    ) -> Result<NameId, StoreError>
        ensures here { IfOk result (λ id. id < length self.new.pool.names) }
        ensures named { IfOk result (λ id. IsNamed self.new.pool id (plain_name name.entry)) }
        ensures added { IfOk result (IsNameAdded self.old self.new places.now) }
        ensures later { OnOk result (IsLater self.old.pool self.new.pool) }
    {
        let added = add_versions(alloc, &mut self.pool, name, places);
        self.pool.tell_sound();
        let (id, versions) = added?;
        if id.to_index() != self.versions.len() {
            return Err(StoreError::IdSpace);
        }
        self.versions.push(versions)?;
        Ok(id)
    }

    /// The id of a version set.
    pub(crate) fn add_set(&mut self, name: NameId, set: Set<'t>) -> Result<VersionSetId, StoreError>
        requires { name < length self.old.pool.names }
        ensures here { IfOk result (λ id. id.0 < length self.new.pool.version_sets) }
        ensures entry { IfOk result (λ id. IsEntry self.new.pool id name (plain_set set.entry)) }
        ensures more { OnOk result (HasMoreSets self.old self.new) }
    {
        match self.pool.intern_version_set(name, set) {
            Ok(id) => Ok(id),
            Err(refused) => Err(StoreError::from(refused)),
        }
    }

    /// The id of a union of version sets.
    pub(crate) fn add_union(
        &mut self,
        first: VersionSetId,
        others: &[VersionSetId],
    ) -> Result<VersionSetUnionId, StoreError>
        requires { AreSetsHere self.old.pool (first ∷ others.now) }
        ensures sets { IfOk result (λ id. slice_get self.new.pool.unions id.0 ≡ Some (first ∷ others.now)) }
        ensures more { OnOk result (HasMoreSets self.old self.new) }
    {
        let id = self.pool.intern_version_set_union(first, others)?;
        Ok(id)
    }
}

/// The id of a name, and those of the packages at these places, which are added as its versions.
fn add_versions<'t>(
    alloc: Global,
    pool: &mut Ids<'t>,
    name: Name<'t>,
    places: &[usize],
) -> Result<(NameId, Vec<SolvableId>), StoreError>
    ensures here { IfOk result (λ added. added.0 < length pool.new.names) }
    ensures named { IfOk result (λ added. IsNamed pool.new added.0 (plain_name name.entry)) }
    ensures known { IfOk result (λ added. AreHere pool.new added.1.items) }
    ensures at { IfOk result (λ added. AllZip (IsAt pool.new added.0) added.1.items places.now) }
    ensures names { OnOk result (length pool.new.names ≤ length pool.old.names + 1) }
    ensures longer { length pool.old.solvables ≤ length pool.new.solvables }
    ensures later { OnOk result (IsLater pool.old pool.new) }
{
    let name = intern_name(pool, name)?;
    let solvables = add_solvables(alloc, pool, name, places)?;
    Ok((name, solvables))
}

/// The id of a name.
fn intern_name<'t>(pool: &mut Ids<'t>, name: Name<'t>) -> Result<NameId, StoreError>
    ensures here { IfOk result (λ id. id < length pool.new.names) }
    ensures named { IfOk result (λ id. IsNamed pool.new id (plain_name name.entry)) }
    ensures solvables { pool.new.solvables ≡ pool.old.solvables }
    ensures names { OnOk result (length pool.new.names ≤ length pool.old.names + 1) }
    ensures later { OnOk result (IsLater pool.old pool.new) }
{
    match pool.intern_package_name(name) {
        Ok(id) => Ok(id),
        Err(refused) => Err(StoreError::from(refused)),
    }
}

/// Adds the packages at these places as versions of a name.
fn add_solvables(
    alloc: Global,
    pool: &mut Ids<'_>,
    name: NameId,
    places: &[usize],
) -> Result<Vec<SolvableId>, StoreError>
    requires { name < length pool.old.names }
    ensures known { IfOk result (λ solvables. AreHere pool.new solvables.items) }
    ensures at { IfOk result (λ solvables. AllZip (IsAt pool.new name) solvables.items places.now) }
    ensures longer { length pool.old.solvables ≤ length pool.new.solvables }
    ensures names { pool.new.names ≡ pool.old.names }
    ensures later { OnOk result (IsLater pool.old pool.new) }
{
    let mut solvables = Vec::new(alloc);
    for place in places {
        let solvable = match pool.intern_solvable(name, *place) {
            Ok(solvable) => solvable,
            Err(refused) => return Err(StoreError::from(refused)),
        };
        solvables.push(solvable)?;
    }
    Ok(solvables)
}
