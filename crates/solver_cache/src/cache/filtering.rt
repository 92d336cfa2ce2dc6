//! The questions about a version set: which candidates of its package it holds, and which it doesn't.
ghost use Rattle.std.specs.Prelude.{◌≡◌, true, IsOk, IfOk, OnOk, IfErr};

use super::SolverCache;
use crate::error::CacheError;
use crate::list_id::{ListId, ListKind};
use crate::provider_functions::ProviderFunctions;
use id_maps::{IdMap, IdSet, SolverId};
use providers::{DependencyProvider, Interner};
use typed_ids::VersionSetId;

impl<D: DependencyProvider + Drop> SolverCache<D> {
    ghost use Rattle.providers.specs.Provider.{filtered};
    ghost use Rattle.solver_cache.specs.Cache.{is_cached, same_set};
    ghost use Rattle.solver_cache.specs.Outcomes.{AnswersMatching, AnswersNonMatching, RefusesFiltered, QueriesPackage};

    /// The candidates of its package that a version set holds, in the provider's order of listing.
    pub fn cache_matching_candidates(
        &mut self,
        set: VersionSetId,
    ) -> Result<ListId, CacheError<D::Cancel>>
        requires { (D.universe self.old.provider).knows_set set ≡ true }
        ensures answered { IfOk result (λ id. AnswersMatching
            (⟦<D as ProviderFunctions>⟧.functions self.old.provider) (D.may_answer self.old.provider)
            D.SolvableId.Set.has self.old set id self.new) }
        ensures cached { is_cached (same_set set) self.old.matching ≡ true → IsOk result }
        ensures refused { IfErr result (λ e. RefusesFiltered
            (⟦<D as ProviderFunctions>⟧.functions self.old.provider) (D.may_answer self.old.provider)
            D.SolvableId.Set.has self.old set e self.new) }
    {
        match self.matching.find(set) {
            Some(place) => Ok(ListId {
                kind: ListKind::Matching,
                place,
            }),
            None => {
                let found = self.filtered(set, false)?;
                let place = self.matching.insert(set, found)?;
                Ok(ListId {
                    kind: ListKind::Matching,
                    place,
                })
            }
        }
    }

    /// The candidates of its package that a version set doesn't hold, in the provider's order of listing.
    pub fn cache_non_matching_candidates(
        &mut self,
        set: VersionSetId,
    ) -> Result<ListId, CacheError<D::Cancel>>
        requires { (D.universe self.old.provider).knows_set set ≡ true }
        ensures answered { IfOk result (λ id. AnswersNonMatching
            (⟦<D as ProviderFunctions>⟧.functions self.old.provider) (D.may_answer self.old.provider)
            D.SolvableId.Set.has self.old set id self.new) }
        ensures cached { is_cached (same_set set) self.old.non_matching ≡ true → IsOk result }
        ensures refused { IfErr result (λ e. RefusesFiltered
            (⟦<D as ProviderFunctions>⟧.functions self.old.provider) (D.may_answer self.old.provider)
            D.SolvableId.Set.has self.old set e self.new) }
    {
        match self.non_matching.find(set) {
            Some(place) => Ok(ListId {
                kind: ListKind::NonMatching,
                place,
            }),
            None => {
                let found = self.filtered(set, true)?;
                let place = self.non_matching.insert(set, found)?;
                Ok(ListId {
                    kind: ListKind::NonMatching,
                    place,
                })
            }
        }
    }

    /// The candidates of its package that a version set holds, or, if `inverse`, the others.
    pub(super) fn filtered(
        &mut self,
        set: VersionSetId,
        inverse: bool,
    ) -> Result<Vec<D::SolvableId, D::Alloc>, CacheError<D::Cancel>>
        requires { (D.universe self.old.provider).knows_set set ≡ true }
        ensures package { OnOk result (QueriesPackage
            (⟦<D as ProviderFunctions>⟧.functions self.old.provider) (D.may_answer self.old.provider)
            D.SolvableId.Set.has self.old set self.new) }
        ensures list { IfOk result (λ list. list.items ≡ filtered ((D.answers self.old.provider).matches set) inverse
            ((D.answers self.old.provider).candidates ((D.universe self.old.provider).set_name set))) }
        ensures refused { IfErr result (λ e. RefusesFiltered
            (⟦<D as ProviderFunctions>⟧.functions self.old.provider) (D.may_answer self.old.provider)
            D.SolvableId.Set.has self.old set e self.new) }
    {
        let name = self.provider.version_set_name(set);
        let id = self.cache_candidates(name)?;
        let candidates = &self.candidates[id].candidates;
        Ok(
            self.provider
                .filter_candidates(self.alloc, candidates, set, inverse)?,
        )
    }
}
