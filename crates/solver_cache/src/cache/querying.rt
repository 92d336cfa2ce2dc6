//! The questions to the provider: for a package's candidates, and for what a solvable needs.
ghost use Rattle.std.specs.Prelude.{◌≡◌, true, false, IsOk, IfOk, IfErr};

use super::SolverCache;
use crate::candidates::candidates_of;
use crate::error::CacheError;
use crate::hints::mark_hints;
use crate::provider_functions::ProviderFunctions;
use id_maps::{IdMap, IdSet, SolverId};
use providers::{Candidates, DependencyProvider, Interner};
use typed_ids::{CandidatesId, DependenciesId};

impl<D: DependencyProvider + Drop> SolverCache<D> {
    ghost use Rattle.solver_cache.specs.Cache.{is_queried, is_fetched};
    ghost use Rattle.solver_cache.specs.Outcomes.{AnswersCandidates, RefusesCandidates};
    ghost use Rattle.solver_cache.specs.Outcomes.{AnswersDependencies, RefusesDependencies};

    /// The candidates of a package. A package that there isn't has none.
    pub fn cache_candidates(
        &mut self,
        name: D::NameId,
    ) -> Result<CandidatesId, CacheError<D::Cancel>>
        ensures answered { IfOk result (λ id. AnswersCandidates
            (⟦<D as ProviderFunctions>⟧.functions self.old.provider) (D.may_answer self.old.provider)
            D.SolvableId.Set.has self.old name id self.new) }
        ensures cached { is_queried (⟦<D as ProviderFunctions>⟧.functions self.old.provider) self.old name ≡
            true → IsOk result }
        ensures refused { IfErr result (λ e. RefusesCandidates
            (⟦<D as ProviderFunctions>⟧.functions self.old.provider) (D.may_answer self.old.provider)
            D.SolvableId.Set.has self.old name e self.new) }
    {
        match self.candidates.find(name) {
            Some(id) => Ok(id),
            None => self.query(name),
        }
    }

    /// Asks the provider for a package's candidates, unless it wants to stop.
    fn query(&mut self, name: D::NameId) -> Result<CandidatesId, CacheError<D::Cancel>>
        requires { is_queried (⟦<D as ProviderFunctions>⟧.functions self.old.provider) self.old name ≡ false }
        ensures answered { IfOk result (λ id. AnswersCandidates
            (⟦<D as ProviderFunctions>⟧.functions self.old.provider) (D.may_answer self.old.provider)
            D.SolvableId.Set.has self.old name id self.new) }
        ensures refused { IfErr result (λ e. RefusesCandidates
            (⟦<D as ProviderFunctions>⟧.functions self.old.provider) (D.may_answer self.old.provider)
            D.SolvableId.Set.has self.old name e self.new) }
    {
        if let Some(reason) = self.provider.should_cancel_with_value() {
            return Err(CacheError::Cancelled(reason));
        }
        let answer = candidates_of(&self.provider, self.alloc, name)?;
        mark_hints::<D::SolvableId, D::Alloc>(&mut self.hinted, &answer)?;
        Ok(self.candidates.insert(name, answer)?)
    }

    /// What a solvable needs.
    pub fn cache_dependencies(
        &mut self,
        solvable: D::SolvableId,
    ) -> Result<DependenciesId, CacheError<D::Cancel>>
        requires { (D.universe self.old.provider).knows_solvable solvable ≡ true }
        ensures answered { IfOk result (λ id. AnswersDependencies
            (⟦<D as ProviderFunctions>⟧.functions self.old.provider) self.old solvable id self.new) }
        ensures cached { is_fetched (⟦<D as ProviderFunctions>⟧.functions self.old.provider) self.old solvable ≡
            true → IsOk result }
        ensures refused { IfErr result (λ e. RefusesDependencies
            (⟦<D as ProviderFunctions>⟧.functions self.old.provider) self.old solvable e self.new) }
    {
        match self.dependencies.find(solvable) {
            Some(id) => Ok(id),
            None => self.fetch(solvable),
        }
    }

    /// Asks the provider what a solvable needs, unless it wants to stop.
    fn fetch(&mut self, solvable: D::SolvableId) -> Result<DependenciesId, CacheError<D::Cancel>>
        requires known { (D.universe self.old.provider).knows_solvable solvable ≡ true }
        requires new { is_fetched (⟦<D as ProviderFunctions>⟧.functions self.old.provider) self.old solvable ≡ false }
        ensures answered { IfOk result (λ id. AnswersDependencies
            (⟦<D as ProviderFunctions>⟧.functions self.old.provider) self.old solvable id self.new) }
        ensures refused { IfErr result (λ e. RefusesDependencies
            (⟦<D as ProviderFunctions>⟧.functions self.old.provider) self.old solvable e self.new) }
    {
        if let Some(reason) = self.provider.should_cancel_with_value() {
            return Err(CacheError::Cancelled(reason));
        }
        let answer = self.provider.get_dependencies(self.alloc, solvable)?;
        Ok(self.dependencies.insert(solvable, answer)?)
    }
}
