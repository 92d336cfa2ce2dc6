//! Where a search has its packages from. The search is generic in it, as in its store.
use crate::pace::Scores;
use crate::search::Result;
use resolvo_ids::{ConditionId, StoreError, VersionSetId};
use resolvo_pool::{
    CacheError, Candidates, Dependencies, DependencyProvider, Interner, SolverCache,
    convert_conditions_to_dnf,
};
use solutions::Reason;
use std::alloc::Allocator;

/// A source of packages with names `N` and solvables `S`. It refuses what there isn't.
pub(crate) trait PackageSource<N, S, A: Allocator> {
    /// The package of a solvable; none of an unknown one.
    fn name(&self, solvable: S) -> Option<N>;

    /// What there is of a package.
    fn package(&mut self, name: N) -> Result<&Candidates<S, A>>;

    /// Whether at most one version of a package may be picked.
    fn is_one_version(&self, name: N) -> bool;

    /// Why a package rules out a solvable: because it excludes it, or is locked to another one.
    fn bans(&mut self, name: N, solvable: S) -> Result<Vec<Reason<N, S>, A>>;

    /// The candidates that the version set doesn't hold.
    fn outside(&mut self, set: VersionSetId) -> Result<&[S]>;

    /// The dependencies of a solvable.
    fn needs(&self, solvable: S) -> Result<Dependencies<A>>;

    /// The normal form of a condition: it holds if all version sets of one list do.
    fn lists(&self, condition: ConditionId) -> Result<Vec<Vec<VersionSetId, A>, A>>;

    /// Refuses to go on if the provider says so.
    fn check_cancelled(&self) -> Result<()>;

    /// How often conflicts had a version of a package, recent ones counted most.
    fn score(&self, name: N) -> u64;

    /// Raises a package's score.
    fn raise(&mut self, name: N) -> Result<()>;

    /// Lets later conflicts count for more.
    fn age(&mut self);
}

/// The packages of a provider, with what it answered for them, and with their scores.
#[derive(Drop)]
pub(crate) struct ProvidedPackages<D: DependencyProvider> {
    provider: D,
    /// Each package is queried once.
    cache: SolverCache<D>,
    scores: Scores<D::NameId, D::Alloc>,
    alloc: D::Alloc,
}

impl<D: DependencyProvider + Copy> ProvidedPackages<D> {
    /// A provider that wasn't queried yet.
    pub(crate) fn new(alloc: D::Alloc, provider: D) -> Self {
        ProvidedPackages {
            provider,
            cache: SolverCache::new(alloc, provider),
            scores: Scores::new(alloc),
            alloc,
        }
    }
}

impl<D: DependencyProvider + Copy> PackageSource<D::NameId, D::SolvableId, D::Alloc>
    for ProvidedPackages<D> {
    fn name(&self, solvable: D::SolvableId) -> Option<D::NameId> {
        if self.provider.knows_solvable(solvable) {
            return Some(self.provider.solvable_name(solvable));
        }
        None
    }

    fn package(&mut self, name: D::NameId) -> Result<&Candidates<D::SolvableId, D::Alloc>> {
        match self.cache.cache_candidates(name) {
            Ok(id) => Ok(self.cache.candidates(id)),
            Err(unanswered) => Err(refusal_of(unanswered)),
        }
    }

    fn is_one_version(&self, _name: D::NameId) -> bool {
        true
    }

    fn bans(
        &mut self,
        name: D::NameId,
        solvable: D::SolvableId,
    ) -> Result<Vec<Reason<D::NameId, D::SolvableId>, D::Alloc>> {
        let mut bans = Vec::new(self.alloc);
        let package = self.package(name)?;
        for (excluded, string) in &package.excluded {
            if *excluded == solvable {
                bans.push(Reason::Excluded(solvable, *string))?;
            }
        }
        if let Some(locked) = package.locked {
            if locked != solvable {
                bans.push(Reason::Locked(locked))?;
            }
        }
        Ok(bans)
    }

    fn outside(&mut self, set: VersionSetId) -> Result<&[D::SolvableId]> {
        if !self.cache.provider().knows_version_set(set) {
            return Err(StoreError::UnknownId);
        }
        match self.cache.cache_non_matching_candidates(set) {
            Ok(id) => Ok(self.cache.list(id)),
            Err(unanswered) => Err(refusal_of(unanswered)),
        }
    }

    fn needs(&self, solvable: D::SolvableId) -> Result<Dependencies<D::Alloc>> {
        if !self.provider.knows_solvable(solvable) {
            return Err(StoreError::UnknownId);
        }
        self.check_cancelled()?;
        self.provider.get_dependencies(self.alloc, solvable)
    }

    fn lists(&self, condition: ConditionId) -> Result<Vec<Vec<VersionSetId, D::Alloc>, D::Alloc>> {
        if !self.provider.knows_condition(condition) {
            return Err(StoreError::UnknownId);
        }
        convert_conditions_to_dnf(self.alloc, condition, &self.provider)
    }

    fn check_cancelled(&self) -> Result<()> {
        match self.provider.should_cancel_with_value() {
            Some(_) => Err(StoreError::Cancelled),
            None => Ok(()),
        }
    }

    fn score(&self, name: D::NameId) -> u64 {
        self.scores.get(name)
    }

    fn raise(&mut self, name: D::NameId) -> Result<()> {
        self.scores.raise(name)
    }

    fn age(&mut self) {
        self.scores.age();
    }
}

/// The refusal that stands for a question that wasn't answered.
fn refusal_of<C: Drop>(unanswered: CacheError<C>) -> StoreError {
    match unanswered {
        CacheError::Store(refused) => refused,
        CacheError::Cancelled(_) => StoreError::Cancelled,
    }
}
