//! What trials ask of a store. What they share is generic in it, since a proof over a type parameter is much shorter
//! than one over the store's own type. What a command asks too is asked by the command: a watch list, the newest
//! assignment, a decision.
use decisions::Literal;
use providers::{DependencyProvider, Interner};
use resolvo_store::{ClauseStore, Command, Reply};
use std::alloc::Allocator;
use test_support::{Counting, Counts};
use typed_ids::{ClauseId, StoreError, VariableId};

/// A store over a provider with names `N` and solvables `S`, which counts what it is asked.
pub(crate) trait Obeys<N, S, A: Allocator> {
    fn obey(&mut self, command: &Command<N, S, A>) -> Reply<A>;

    fn obey_all(&mut self, commands: &[Command<N, S, A>]) -> Result<Vec<Reply<A>, A>, StoreError>;

    /// The first falsified clause, if there is one.
    fn falsified(&self) -> Option<ClauseId>;

    /// The value of a variable, if it has one.
    fn value(&self, variable: VariableId) -> Option<bool>;

    /// The literals of a clause, if it is known.
    fn literals(&self, clause: ClauseId) -> Result<Option<Vec<Literal, A>>, StoreError>;

    /// Appends a clause's text.
    fn display_clause(&self, clause: ClauseId, out: &mut String<A>) -> Result<(), StoreError>;

    /// How often the provider was asked.
    fn counts(&self) -> Counts;
}

impl<D: DependencyProvider + Counting + Drop> Obeys<D::NameId, D::SolvableId, D::Alloc>
    for ClauseStore<D> {
    fn obey(&mut self, command: &Command<D::NameId, D::SolvableId, D::Alloc>) -> Reply<D::Alloc> {
        self.step(command)
    }

    fn obey_all(
        &mut self,
        commands: &[Command<D::NameId, D::SolvableId, D::Alloc>],
    ) -> Result<Vec<Reply<D::Alloc>, D::Alloc>, StoreError> {
        self.run(commands)
    }

    fn falsified(&self) -> Option<ClauseId> {
        ClauseStore::falsified(self)
    }

    fn value(&self, variable: VariableId) -> Option<bool> {
        ClauseStore::value(self, variable)
    }

    fn literals(&self, clause: ClauseId) -> Result<Option<Vec<Literal, D::Alloc>>, StoreError> {
        ClauseStore::literals(self, clause)
    }

    fn display_clause(
        &self,
        clause: ClauseId,
        out: &mut String<D::Alloc>,
    ) -> Result<(), StoreError> {
        ClauseStore::display_clause(self, clause, out)
    }

    fn counts(&self) -> Counts {
        self.provider().counts()
    }
}
