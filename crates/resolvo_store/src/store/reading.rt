//! What a search or a report reads of a store beside the replies.
ghost use Rattle.std.specs.Prelude.{◌≡◌, [], slice_get};
ghost use Rattle.std.specs.Prelude.{IfOk, OnOk, OnErr, IfErr};
ghost use Rattle.typed_ids.specs.declared.error.StoreError.TheVariants.{OutOfMemory};
ghost use Rattle.providers.specs.Texts.{IsSameText};
ghost use Rattle.watch_map.specs.Watching.{IsExact};

use crate::abstract_store::Abstract;
use crate::store::ClauseStore;
use crate::store::known::knows_variable;
use decisions::Literal;
use providers::{DependencyProvider, Interner};
use typed_ids::{ClauseId, StoreError, VariableId};
use variables::VariableOrigin;

impl<D: DependencyProvider + Drop> ClauseStore<D> {
    ghost use Rattle.resolvo_store.specs.Store.{watched_by};
    ghost use Rattle.resolvo_store.specs.Refusals.{knows_literal};
    ghost use Rattle.resolvo_store.specs.Reading.{HasLiterals, IsDisplayed, text_refusal};

    /// What a variable stands for; none of an unknown one. Takes constant time.
    pub fn origin(&self, variable: VariableId) -> Option<VariableOrigin<D::NameId, D::SolvableId>>
        ensures { result ≡ slice_get (⟦<D as Abstract>⟧.store self.now).origins variable }
    {
        if !knows_variable(&self.variables, variable) {
            return None;
        }
        Some(self.variables.origin(variable))
    }

    /// The literals of a clause, in order; none of an unknown one. Takes memory for them.
    pub fn literals(&self, clause: ClauseId) -> Result<Option<Vec<Literal, D::Alloc>>, StoreError>
        ensures ok { IfOk result (HasLiterals (⟦<D as Abstract>⟧.store self.now) clause) }
        ensures memory { IfErr result (λ e. e ≡ OutOfMemory) }
    {
        let Some(clause) = self.clauses.get(clause) else {
            return Ok(None);
        };
        let learnt = self.clauses.learnt();
        let literals = clause.literals(self.alloc, learnt, &self.loaded, &self.disjunctions)?;
        Ok(Some(literals))
    }

    /// Appends the text of a clause: its kind, and in brackets what it is made of, over the provider's texts. A clause
    /// that the store doesn't have is refused `UnknownId`, and nothing is asked of the provider then. After a refusal
    /// `out` is as it was.
    pub fn display_clause(
        &self,
        clause: ClauseId,
        out: &mut String<D::Alloc>,
    ) -> Result<(), StoreError>
        ensures ok { OnOk result
            (IsDisplayed (⟦<D as Abstract>⟧.store self.now) clause (D.texts self.now.provider) out.old out.new) }
        ensures err { OnErr result (IsSameText out.old out.new) }
        ensures refused { IfErr result (λ e. e ≡ text_refusal (⟦<D as Abstract>⟧.store self.now) clause) }
    {
        let Some(clause) = self.clauses.get(clause) else {
            return Err(StoreError::UnknownId);
        };
        clause.display(&self.variables, self.cache.provider(), out)
    }
}
