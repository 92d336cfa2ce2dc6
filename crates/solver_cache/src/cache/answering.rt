//! The questions, answered by a reference to what is kept.
//!
//! No contract can speak of the cache after a call whose answer borrows it. A caller that has to know what the cache
//! keeps then asks by the calls that answer ids: each question here is one of those, with its answer shown.
ghost use Rattle.std.specs.Prelude.{◌≡◌, true, IsOk, IfOk, IfErr};

use super::SolverCache;
use crate::error::CacheError;
use crate::provider_functions::ProviderFunctions;
use id_maps::{IdMap, IdSet, SolverId};
use providers::{Candidates, Dependencies, DependencyProvider, Interner, Requirement};
use typed_ids::VersionSetId;

impl<D: DependencyProvider + Drop> SolverCache<D> {
    ghost use Rattle.providers.specs.Dependencies.{needs_of};
    ghost use Rattle.providers.specs.Provider.{matching, non_matching, sets_of, knows_requirement};
    ghost use Rattle.providers.specs.Requirement.{same_requirement};
    ghost use Rattle.providers.specs.declared.requirement.Requirement.TheVariants.{Single};
    ghost use Rattle.solver_cache.specs.Cache.{IsAnswer, is_queried, is_fetched, is_cached, same_set};
    ghost use Rattle.solver_cache.specs.Cache.{sorted_of_set, sorted_of};
    ghost use Rattle.solver_cache.specs.Refused.{MayRefuseName, MayRefuseSet, MayRefuseSets, MayRefuseNeeds};

    /// The provider's answer for a package: its candidates, and what else it tells. A package that there isn't has no
    /// candidates.
    pub fn get_or_cache_candidates(
        &mut self,
        name: D::NameId,
    ) -> Result<&Candidates<D::SolvableId, D::Alloc>, CacheError<D::Cancel>>
        ensures answer { IfOk result (λ answer. IsAnswer (⟦<D as ProviderFunctions>⟧.functions self.old.provider)
            (D.may_answer self.old.provider) name answer.now) }
        ensures cached { is_queried (⟦<D as ProviderFunctions>⟧.functions self.old.provider) self.old name ≡
            true → IsOk result }
        ensures refused { IfErr result
            (MayRefuseName (⟦<D as ProviderFunctions>⟧.functions self.old.provider) self.old name) }
    {
        let id = self.cache_candidates(name)?;
        Ok(self.candidates(id))
    }

    /// The candidates of its package that a version set holds, in the provider's order of listing.
    pub fn get_or_cache_matching_candidates(
        &mut self,
        set: VersionSetId,
    ) -> Result<&[D::SolvableId], CacheError<D::Cancel>>
        requires { (D.universe self.old.provider).knows_set set ≡ true }
        ensures list { IfOk result (λ list. list.now ≡
            matching (D.universe self.old.provider) (D.answers self.old.provider) set) }
        ensures cached { is_cached (same_set set) self.old.matching ≡ true → IsOk result }
        ensures refused { IfErr result
            (MayRefuseSet (⟦<D as ProviderFunctions>⟧.functions self.old.provider) self.old set) }
    {
        let id = self.cache_matching_candidates(set)?;
        Ok(self.list(id))
    }

    /// The candidates of its package that a version set doesn't hold, in the provider's order of listing.
    pub fn get_or_cache_non_matching_candidates(
        &mut self,
        set: VersionSetId,
    ) -> Result<&[D::SolvableId], CacheError<D::Cancel>>
        requires { (D.universe self.old.provider).knows_set set ≡ true }
        ensures list { IfOk result (λ list. list.now ≡
            non_matching (D.universe self.old.provider) (D.answers self.old.provider) set) }
        ensures cached { is_cached (same_set set) self.old.non_matching ≡ true → IsOk result }
        ensures refused { IfErr result
            (MayRefuseSet (⟦<D as ProviderFunctions>⟧.functions self.old.provider) self.old set) }
    {
        let id = self.cache_non_matching_candidates(set)?;
        Ok(self.list(id))
    }

    /// The candidates of a requirement: of each of its version sets, one after the other, those that it holds, best
    /// first. The first refusal ends the call.
    pub fn get_or_cache_sorted_candidates(
        &mut self,
        requirement: Requirement,
    ) -> Result<&[D::SolvableId], CacheError<D::Cancel>>
        requires { knows_requirement (D.universe self.old.provider) requirement ≡ true }
        ensures list { IfOk result (λ list. list.now ≡
            sorted_of (⟦<D as ProviderFunctions>⟧.functions self.old.provider) requirement) }
        ensures cached { is_cached (same_requirement requirement) self.old.sorted ≡ true → IsOk result }
        ensures refused { let p = ⟦<D as ProviderFunctions>⟧.functions self.old.provider in
            IfErr result (MayRefuseSets p self.old (sets_of p.universe requirement)) }
    {
        let id = self.cache_sorted_candidates(requirement)?;
        Ok(self.list(id))
    }

    /// The candidates that a version set holds, best first. The favored one, where it is among them, is the best; the
    /// others are in the provider's order.
    pub fn get_or_cache_sorted_candidates_for_version_set(
        &mut self,
        set: VersionSetId,
    ) -> Result<&[D::SolvableId], CacheError<D::Cancel>>
        requires { (D.universe self.old.provider).knows_set set ≡ true }
        ensures list { IfOk result (λ list. list.now ≡
            sorted_of_set (⟦<D as ProviderFunctions>⟧.functions self.old.provider) set) }
        ensures cached { is_cached (same_requirement (Single set)) self.old.sorted ≡ true → IsOk result }
        ensures refused { IfErr result
            (MayRefuseSet (⟦<D as ProviderFunctions>⟧.functions self.old.provider) self.old set) }
    {
        let id = self.cache_sorted_candidates_for_version_set(set)?;
        Ok(self.list(id))
    }

    /// What a solvable needs.
    pub fn get_or_cache_dependencies(
        &mut self,
        solvable: D::SolvableId,
    ) -> Result<&Dependencies<D::Alloc>, CacheError<D::Cancel>>
        requires { (D.universe self.old.provider).knows_solvable solvable ≡ true }
        ensures answer { IfOk result (λ answer. needs_of answer.now ≡ (D.answers self.old.provider).needs solvable) }
        ensures cached { is_fetched (⟦<D as ProviderFunctions>⟧.functions self.old.provider) self.old solvable ≡
            true → IsOk result }
        ensures refused { IfErr result
            (MayRefuseNeeds (⟦<D as ProviderFunctions>⟧.functions self.old.provider) self.old solvable) }
    {
        let id = self.cache_dependencies(solvable)?;
        Ok(self.dependencies(id))
    }
}
