//! The question for a version set's candidates, best first, that keeps no other list of the set.
ghost use Rattle.std.specs.Prelude.{◌≡◌, true, IfOk, IfErr};

use super::SolverCache;
use crate::error::CacheError;
use crate::list_id::{ListId, ListKind};
use crate::provider_functions::ProviderFunctions;
use id_maps::{IdMap, IdSet, SolverId};
use providers::{DependencyProvider, Interner, Requirement};
use typed_ids::VersionSetId;

impl<D: DependencyProvider + Drop> SolverCache<D> {
    ghost use Rattle.solver_cache.specs.Outcomes.{AnswersBest, RefusesFiltered};

    /// The candidates that a version set holds, best first: where their list is kept. No other list of the set is kept:
    /// [`SolverCache::cache_sorted_candidates_for_version_set`] also keeps the one in the provider's order of listing.
    pub fn best_list(&mut self, set: VersionSetId) -> Result<ListId, CacheError<D::Cancel>>
        requires { (D.universe self.old.provider).knows_set set ≡ true }
        ensures answered { IfOk result (λ id. AnswersBest
            (⟦<D as ProviderFunctions>⟧.functions self.old.provider) (D.may_answer self.old.provider)
            D.SolvableId.Set.has self.old set id self.new) }
        ensures refused { IfErr result (λ e. RefusesFiltered
            (⟦<D as ProviderFunctions>⟧.functions self.old.provider) (D.may_answer self.old.provider)
            D.SolvableId.Set.has self.old set e self.new) }
    {
        match self.sorted.find(Requirement::Single(set)) {
            Some(place) => Ok(ListId {
                kind: ListKind::Sorted,
                place,
            }),
            None => {
                let list = self.sorted_candidates_for_version_set(set)?;
                let place = self.sorted.insert(Requirement::Single(set), list)?;
                Ok(ListId {
                    kind: ListKind::Sorted,
                    place,
                })
            }
        }
    }
}
