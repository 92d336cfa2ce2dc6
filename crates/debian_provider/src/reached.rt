//! What came into the pool.
ghost use Rattle.std.specs.Prelude.{◌≡◌, []};
ghost use Rattle.resolvo_pool.specs.Pool.{IsOfItself, nothing};
ghost use Rattle.resolvo_pool.specs.PoolProps.{pool_props};
ghost use Rattle.debian_provider.specs.Answers.{AreKnown, place_in, versions_at};

use crate::set::Set;
use debian_directory::Name;
use resolvo_ids::{DenseIndex, NameId, SolvableId};
use resolvo_pool::Pool;
use std::alloc::Global;

/// Names, their versions, and sets of them.
pub(crate) type Ids<'t> = Pool<Set<'t>, Name<'t>>;

/// Names with their versions that may be picked, and version sets.
#[derive(Drop)]
pub(crate) struct Reached<'t> {
    /// A solvable is the place of its package.
    pub(crate) pool: Ids<'t>,
    /// The versions of each name that may be picked, at the name's place.
    pub(crate) versions: Vec<Vec<SolvableId>>,
    ghost of_itself: { IsOfItself pool } by { Prim.hlevel pool_props },
    ghost known: { AreKnown pool versions.items } by { Prim.hlevel pool_props },
}

impl<'t> Reached<'t> {
    /// Nothing.
    pub(crate) fn new(alloc: Global) -> Self
        ensures pool { result.pool ≡ nothing }
        ensures versions { result.versions.items ≡ [] }
    {
        let pool = Pool::new(alloc);
        Reached {
            pool,
            versions: Vec::new(alloc),
        }
    }

    /// The place of a solvable's package.
    pub(crate) fn place_of(&self, solvable: SolvableId) -> Option<usize>
        ensures { result ≡ place_in self.now.pool solvable }
    {
        if self.pool.knows_solvable(solvable) {
            Some(self.pool.resolve_solvable(solvable).payload)
        } else {
            None
        }
    }

    /// The versions of a name.
    pub(crate) fn versions_of(&self, name: NameId) -> &[SolvableId]
        ensures { result.now ≡ versions_at self.now.versions.items name }
    {
        match self.versions.get(name.to_index()) {
            Some(versions) => versions,
            None => &[],
        }
    }
}
