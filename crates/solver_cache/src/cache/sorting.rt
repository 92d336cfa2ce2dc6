//! The questions about requirements: their candidates, best first.
ghost use Rattle.std.specs.Prelude.{◌≡◌, true, false, All, flat_map, Some, IsOk, IfOk, OnOk, IfErr};
ghost use Rattle.typed_ids.specs.declared.error.StoreError.TheVariants.{OutOfMemory};
ghost use Rattle.providers.specs.Provider.{favored_first};

use super::SolverCache;
use crate::error::CacheError;
use crate::favored::put_favored_first;
use crate::list_id::{ListId, ListKind};
use crate::provider_functions::ProviderFunctions;
use id_maps::{IdMap, IdSet, SolverId};
use providers::{DependencyProvider, Interner, Requirement};
use typed_ids::{StoreError, VersionSetId, VersionSetUnionId};

impl<D: DependencyProvider + Drop> SolverCache<D> {
    ghost use Rattle.providers.specs.Provider.{matching, sets_of, knows_requirement};
    ghost use Rattle.providers.specs.Requirement.{same_requirement};
    ghost use Rattle.providers.specs.declared.requirement.Requirement.TheVariants.{Single, Union};
    ghost use Rattle.solver_cache.specs.Cache.{is_set_queried, is_cached, list_at, listed, sorted_of_set, sorted_of};
    ghost use Rattle.solver_cache.specs.Outcomes.{AnswersSorted, AnswersRequirement, AnswersLists, AnswersSets};
    ghost use Rattle.solver_cache.specs.Outcomes.{QueriesPackage, SortsSets};
    ghost use Rattle.solver_cache.specs.Outcomes.{RefusesFiltered, RefusesSorted, RefusesSets};

    /// The candidates of a requirement: of each of its version sets, one after the other, those that it holds, best
    /// first. The first refusal ends the call.
    pub fn cache_sorted_candidates(
        &mut self,
        requirement: Requirement,
    ) -> Result<ListId, CacheError<D::Cancel>>
        requires { knows_requirement (D.universe self.old.provider) requirement ≡ true }
        ensures answered { IfOk result (λ id. AnswersRequirement
            (⟦<D as ProviderFunctions>⟧.functions self.old.provider) (D.may_answer self.old.provider)
            D.SolvableId.Set.has self.old requirement id self.new) }
        ensures cached { is_cached (same_requirement requirement) self.old.sorted ≡ true → IsOk result }
        ensures refused { IfErr result (λ e. RefusesSets
            (⟦<D as ProviderFunctions>⟧.functions self.old.provider) (D.may_answer self.old.provider)
            D.SolvableId.Set.has self.old (sets_of (D.universe self.old.provider) requirement) e self.new) }
    {
        match requirement {
            Requirement::Single(set) => self.cache_sorted_candidates_for_version_set(set),
            Requirement::Union(union) => self.sorted_union(union),
        }
    }

    /// The candidates that a version set holds, best first. The favored one, where it is among them, is the best; the
    /// others are in the provider's order.
    pub fn cache_sorted_candidates_for_version_set(
        &mut self,
        set: VersionSetId,
    ) -> Result<ListId, CacheError<D::Cancel>>
        requires { (D.universe self.old.provider).knows_set set ≡ true }
        ensures answered { IfOk result (λ id. AnswersSorted
            (⟦<D as ProviderFunctions>⟧.functions self.old.provider) (D.may_answer self.old.provider)
            D.SolvableId.Set.has self.old set id self.new) }
        ensures cached { is_cached (same_requirement (Single set)) self.old.sorted ≡ true → IsOk result }
        ensures refused { IfErr result (λ e. RefusesSorted
            (⟦<D as ProviderFunctions>⟧.functions self.old.provider) (D.may_answer self.old.provider)
            D.SolvableId.Set.has self.old set e self.new) }
    {
        match self.sorted.find(Requirement::Single(set)) {
            Some(place) => Ok(ListId {
                kind: ListKind::Sorted,
                place,
            }),
            None => {
                let id = self.cache_matching_candidates(set)?;
                let favored = self.favored(set);
                let list = in_order(
                    &self.provider,
                    self.alloc,
                    self.matching_list(set, id),
                    favored,
                )?;
                let place = self.sorted.insert(Requirement::Single(set), list)?;
                Ok(ListId {
                    kind: ListKind::Sorted,
                    place,
                })
            }
        }
    }

    /// The candidates that a version set holds, best first, in a list of the caller's own. The cache keeps the answer
    /// for the package, and no list of the version set.
    pub fn sorted_candidates_for_version_set(
        &mut self,
        set: VersionSetId,
    ) -> Result<Vec<D::SolvableId, D::Alloc>, CacheError<D::Cancel>>
        requires { (D.universe self.old.provider).knows_set set ≡ true }
        ensures package { OnOk result (QueriesPackage
            (⟦<D as ProviderFunctions>⟧.functions self.old.provider) (D.may_answer self.old.provider)
            D.SolvableId.Set.has self.old set self.new) }
        ensures list { IfOk result (λ list. list.items ≡
            sorted_of_set (⟦<D as ProviderFunctions>⟧.functions self.old.provider) set) }
        ensures fit { OnOk result (D.NameId.Slots.is_too_large ((D.universe self.old.provider).set_name set) ≡ false) }
        ensures refused { IfErr result (λ e. RefusesFiltered
            (⟦<D as ProviderFunctions>⟧.functions self.old.provider) (D.may_answer self.old.provider)
            D.SolvableId.Set.has self.old set e self.new) }
    {
        let list = self.filtered(set, false)?;
        Ok(self.best_first(set, list)?)
    }

    /// The candidates of a union.
    fn sorted_union(&mut self, union: VersionSetUnionId) -> Result<ListId, CacheError<D::Cancel>>
        requires { (D.universe self.old.provider).knows_union union ≡ true }
        ensures answered { IfOk result (λ id. AnswersRequirement
            (⟦<D as ProviderFunctions>⟧.functions self.old.provider) (D.may_answer self.old.provider)
            D.SolvableId.Set.has self.old (Union union) id self.new) }
        ensures cached { is_cached (same_requirement (Union union)) self.old.sorted ≡ true → IsOk result }
        ensures refused { IfErr result (λ e. RefusesSets
            (⟦<D as ProviderFunctions>⟧.functions self.old.provider) (D.may_answer self.old.provider)
            D.SolvableId.Set.has self.old ((D.universe self.old.provider).union_sets union) e self.new) }
    {
        match self.sorted.find(Requirement::Union(union)) {
            Some(place) => Ok(ListId {
                kind: ListKind::Sorted,
                place,
            }),
            None => {
                let list = self.joined(union)?;
                let place = self.sorted.insert(Requirement::Union(union), list)?;
                Ok(ListId {
                    kind: ListKind::Sorted,
                    place,
                })
            }
        }
    }

    /// The candidates of a union's version sets, one set after the other.
    fn joined(
        &mut self,
        union: VersionSetUnionId,
    ) -> Result<Vec<D::SolvableId, D::Alloc>, CacheError<D::Cancel>>
        requires { (D.universe self.old.provider).knows_union union ≡ true }
        ensures sorted { OnOk result (SortsSets
            (⟦<D as ProviderFunctions>⟧.functions self.old.provider) (D.may_answer self.old.provider)
            D.SolvableId.Set.has self.old ((D.universe self.old.provider).union_sets union) self.new) }
        ensures list { IfOk result (λ list. list.items ≡
            sorted_of (⟦<D as ProviderFunctions>⟧.functions self.old.provider) (Union union)) }
        ensures refused { IfErr result (λ e. RefusesSets
            (⟦<D as ProviderFunctions>⟧.functions self.old.provider) (D.may_answer self.old.provider)
            D.SolvableId.Set.has self.old ((D.universe self.old.provider).union_sets union) e self.new) }
    {
        let ids = self.cache_sorted_lists(Requirement::Union(union))?;
        Ok(self.concatenated(&ids)?)
    }

    /// The candidates of each of a requirement's version sets, in the order of the sets: where each list is kept that
    /// [`SolverCache::cache_sorted_candidates_for_version_set`] answers. The first refusal ends the call.
    pub fn cache_sorted_lists(
        &mut self,
        requirement: Requirement,
    ) -> Result<Vec<ListId, D::Alloc>, CacheError<D::Cancel>>
        requires { knows_requirement (D.universe self.old.provider) requirement ≡ true }
        ensures answered { IfOk result (λ ids. AnswersLists
            (⟦<D as ProviderFunctions>⟧.functions self.old.provider) (D.may_answer self.old.provider)
            D.SolvableId.Set.has self.old requirement ids.items self.new) }
        ensures refused { IfErr result (λ e. RefusesSets
            (⟦<D as ProviderFunctions>⟧.functions self.old.provider) (D.may_answer self.old.provider)
            D.SolvableId.Set.has self.old (sets_of (D.universe self.old.provider) requirement) e self.new) }
    {
        match requirement {
            Requirement::Single(set) => self.sort_all(&[set]),
            Requirement::Union(_) => {
                let sets = requirement.version_sets(&self.provider);
                let sets = Vec::from_slice(self.alloc, sets.as_slice())?;
                self.sort_all(&sets)
            }
        }
    }

    /// The same of version sets.
    fn sort_all(
        &mut self,
        sets: &[VersionSetId],
    ) -> Result<Vec<ListId, D::Alloc>, CacheError<D::Cancel>>
        requires { All (λ v. (D.universe self.old.provider).knows_set v ≡ true) sets.now }
        ensures answered { IfOk result (λ ids. AnswersSets
            (⟦<D as ProviderFunctions>⟧.functions self.old.provider) (D.may_answer self.old.provider)
            D.SolvableId.Set.has self.old sets.now ids.items self.new) }
        ensures refused { IfErr result (λ e. RefusesSets
            (⟦<D as ProviderFunctions>⟧.functions self.old.provider) (D.may_answer self.old.provider)
            D.SolvableId.Set.has self.old sets.now e self.new) }
    {
        let mut ids = Vec::with_capacity(self.alloc, sets.len())?;
        for set in sets {
            let id = self.cache_sorted_candidates_for_version_set(*set)?;
            ids.push_reserved(id);
        }
        // What is true of each cache is true of this one: a look at a field tells it.
        let _provider = &self.provider;
        Ok(ids)
    }

    /// The lists that are kept here, one after the other.
    fn concatenated(&self, ids: &[ListId]) -> Result<Vec<D::SolvableId, D::Alloc>, StoreError>
        ensures ok { IfOk result (λ all. all.items ≡ flat_map (listed self.now) ids.now) }
        ensures memory { IfErr result (λ e. e ≡ OutOfMemory) }
    {
        let mut all = Vec::new(self.alloc);
        for id in ids {
            all.extend_from_slice(self.list(*id))?;
        }
        Ok(all)
    }

    /// The candidates that a version set holds, which are kept here.
    fn matching_list(&self, set: VersionSetId, id: ListId) -> &[D::SolvableId]
        requires { list_at self.now id ≡
            Some (matching (D.universe self.now.provider) (D.answers self.now.provider) set) }
        ensures list { result.now ≡ matching (D.universe self.now.provider) (D.answers self.now.provider) set }
        ensures known { All (λ s. (D.universe self.now.provider).knows_solvable s ≡ true) result.now }
    {
        self.list(id)
    }

    /// Candidates of a version set's package, which was asked for: best first.
    fn best_first(
        &self,
        set: VersionSetId,
        list: Vec<D::SolvableId, D::Alloc>,
    ) -> Result<Vec<D::SolvableId, D::Alloc>, StoreError>
        requires known { (D.universe self.now.provider).knows_set set ≡ true }
        requires queried { is_set_queried (⟦<D as ProviderFunctions>⟧.functions self.now.provider) self.now set ≡ true }
        requires solvables { All (λ s. (D.universe self.now.provider).knows_solvable s ≡ true) list.items }
        ensures ok { IfOk result (λ ordered. ordered.items ≡ favored_first D.SolvableId.eq
            ((D.answers self.now.provider).favored ((D.universe self.now.provider).set_name set))
            ((D.answers self.now.provider).order list.items)) }
        ensures fit { D.NameId.Slots.is_too_large ((D.universe self.now.provider).set_name set) ≡ false }
        ensures memory { IfErr result (λ e. e ≡ OutOfMemory) }
    {
        let favored = self.favored(set);
        put_in_order(&self.provider, self.alloc, list, favored)
    }

    /// The favored candidate of a version set's package, which was asked for.
    fn favored(&self, set: VersionSetId) -> Option<D::SolvableId>
        requires known { (D.universe self.now.provider).knows_set set ≡ true }
        requires queried { is_set_queried (⟦<D as ProviderFunctions>⟧.functions self.now.provider) self.now set ≡ true }
        ensures { result ≡ (D.answers self.now.provider).favored ((D.universe self.now.provider).set_name set) }
    {
        let name = self.provider.version_set_name(set);
        match self.candidates.find(name) {
            Some(id) => self.candidates[id].favored,
            None => None,
        }
    }
}

/// Solvables in the order of preference, but the favored one, where it is among them, first.
fn in_order<D: DependencyProvider>(
    provider: &D,
    alloc: D::Alloc,
    solvables: &[D::SolvableId],
    favored: Option<D::SolvableId>,
) -> Result<Vec<D::SolvableId, D::Alloc>, StoreError>
    requires { All (λ s. (D.universe provider.now).knows_solvable s ≡ true) solvables.now }
    ensures ok { IfOk result (λ list. list.items ≡
        favored_first D.SolvableId.eq favored ((D.answers provider.now).order solvables.now)) }
    ensures memory { IfErr result (λ e. e ≡ OutOfMemory) }
{
    let list = Vec::from_slice(alloc, solvables)?;
    put_in_order(provider, alloc, list, favored)
}

/// Puts a list in the order of preference, but the favored one, where it is among them, first.
fn put_in_order<D: DependencyProvider>(
    provider: &D,
    alloc: D::Alloc,
    mut list: Vec<D::SolvableId, D::Alloc>,
    favored: Option<D::SolvableId>,
) -> Result<Vec<D::SolvableId, D::Alloc>, StoreError>
    requires { All (λ s. (D.universe provider.now).knows_solvable s ≡ true) list.items }
    ensures ok { IfOk result (λ ordered. ordered.items ≡
        favored_first D.SolvableId.eq favored ((D.answers provider.now).order list.items)) }
    ensures memory { IfErr result (λ e. e ≡ OutOfMemory) }
{
    provider.sort_candidates(alloc, &mut list)?;
    put_favored_first(&mut list, favored);
    Ok(list)
}
