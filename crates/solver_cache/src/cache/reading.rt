//! What a cache keeps, by the ids that its questions answered.
ghost use Rattle.std.specs.Prelude.{◌≡◌, ◌<◌, map, length, slice_get, IsSome, Some};

use super::SolverCache;
use crate::list_id::{ListId, ListKind};
use providers::{Candidates, Dependencies, DependencyProvider, Interner};
use typed_ids::{CandidatesId, DependenciesId};

impl<D: DependencyProvider + Drop> SolverCache<D> {
    ghost use Rattle.solver_cache.specs.Cache.{listed};

    /// The provider's answer for a package.
    pub fn candidates(&self, id: CandidatesId) -> &Candidates<D::SolvableId, D::Alloc>
        requires { id < length self.now.candidates }
        ensures { slice_get (map (λ e. e.1) self.now.candidates) id ≡ Some result.now }
    {
        &self.candidates[id]
    }

    /// The provider's answer for a solvable.
    pub fn dependencies(&self, id: DependenciesId) -> &Dependencies<D::Alloc>
        requires { id < length self.now.dependencies }
        ensures { slice_get (map (λ e. e.1) self.now.dependencies) id ≡ Some result.now }
    {
        &self.dependencies[id]
    }

    /// The candidates of a version set or of a requirement. An id that another cache answered may show others, or none.
    pub fn list(&self, id: ListId) -> &[D::SolvableId]
        ensures { result.now ≡ listed self.now id }
    {
        match id.kind {
            ListKind::Matching => self.matching.at(id.place),
            ListKind::NonMatching => self.non_matching.at(id.place),
            ListKind::Sorted => self.sorted.at(id.place),
        }
    }
}
