//! The commands about watches: `Rewatch` and `Watchers`.
ghost use Rattle.std.specs.Prelude.{◌≡◌};
ghost use Rattle.clauses.specs.Clauses.{same_literal};
ghost use Rattle.watch_map.specs.ClauseList.{contents};
ghost use Rattle.watch_map.specs.Watching.{IsExact};
ghost use Rattle.resolvo_store.specs.Known.{knows_watches, has_literal};

use crate::abstract_store::Abstract;
use crate::store::ClauseStore;
use crate::store::known::{are_below, knows_variable};
use clauses::Disjunction;
use decisions::Literal;
use id_maps::SolverId;
use id_storage::Arena;
use providers::{DependencyProvider, RequirementMap};
use std::alloc::Allocator;
use typed_ids::{ClauseId, DenseIndex, DisjunctionId, StoreError};
use variables::{VariableLists, VariableMap};
use watch_map::ClauseList;

impl<D: DependencyProvider + Drop> ClauseStore<D> {
    ghost use Rattle.resolvo_store.specs.Command.{Rewatch, Watchers};
    ghost use Rattle.resolvo_store.specs.Answers.{done, replied};
    ghost use Rattle.resolvo_store.specs.Store.{watched_by};
    ghost use Rattle.resolvo_store.specs.Answers.{watchers_are};

    /// Lets a clause watch another of its literals in the place of one that it watches.
    pub fn rewatch(
        &mut self,
        clause: ClauseId,
        from: Literal,
        to: Literal,
    ) -> Result<(), StoreError>
        ensures step { ⟦<D as Abstract>⟧.step self.old (Rewatch clause from to) (replied done result) self.new }
        ensures provider { self.new.provider ≡ self.old.provider }
        ensures queue_state { self.new.queue_state ≡ self.old.queue_state }
    {
        if !knows_watches(&self.clauses, &self.variables, clause, from, to) {
            return Err(StoreError::UnknownId);
        }
        if !has_literal(&self.clauses, &self.loaded, &self.disjunctions, clause, to) {
            return Err(StoreError::BadWatch);
        }
        self.clauses.rewatch(clause, from, to)?;
        self.clauses
            .forget_false(clause, &mut self.marks, &self.trail);
        Ok(())
    }

    /// The clauses that watch the literal, front first. Takes memory for them.
    pub fn watchers(&self, literal: Literal) -> Result<Vec<ClauseId, D::Alloc>, StoreError>
        ensures step { ⟦<D as Abstract>⟧.step self.now (Watchers literal) (replied watchers_are result) self.now }
        ensures exact { (let st = ⟦<D as Abstract>⟧.store self.now in IsExact (watched_by st) st.watchers) }
    {
        if !knows_variable(&self.variables, literal.variable()) {
            return Err(StoreError::UnknownId);
        }
        self.clauses.watchers(literal)
    }
}

/// Whether there is the clause, and the variables of both literals.
fn knows_watches<N: Copy, S: SolverId<A>, A: Allocator + Copy>(
    clauses: &ClauseList<N, A>,
    variables: &VariableMap<N, S, A>,
    clause: ClauseId,
    from: Literal,
    to: Literal,
) -> bool
    ensures { result ≡ knows_watches (contents clauses.now) variables.now clause from to }
{
    clause.to_index() < clauses.len()
        && are_below(from.variable(), to.variable(), variables.count())
}

/// Whether the literal is one of the clause's, which refers to these lists and disjunctions.
fn has_literal<N: Copy, A: Allocator + Copy>(
    clauses: &ClauseList<N, A>,
    loaded: &RequirementMap<VariableLists<A>, A>,
    disjunctions: &Arena<DisjunctionId, Disjunction<A>, A>,
    clause: ClauseId,
    literal: Literal,
) -> bool
    ensures { result ≡ has_literal (contents clauses.now) loaded.now disjunctions.now clause literal }
{
    let Some(clause) = clauses.get(clause) else {
        return false;
    };
    let learnt = clauses.learnt();
    let found = clause.find_literal(
        learnt,
        loaded,
        disjunctions,
        |other: Literal| -> bool
            ensures { result ≡ same_literal literal other }
        { literal == other },
    );
    found.is_some()
}
