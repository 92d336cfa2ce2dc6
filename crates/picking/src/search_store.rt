//! What a search needs of its store. The search is generic in it, since a proof over a type parameter is much shorter
//! than one over the store's own type.
use crate::search::Result;
use resolvo_clauses::{Decision, Literal, VariableOrigin};
use resolvo_ids::{ClauseId, ConditionId, DisjunctionId, StringId, VariableId, VersionSetId};
use resolvo_pool::{DependencyProvider, Requirement};
use resolvo_store::{Added, Assignment, ClauseStore, HelperOrigin, Next, Tracked};
use std::alloc::Allocator;

/// A clause store. But for `next`, its methods are those of `ClauseStore`.
pub(crate) trait SearchStore {
    type Alloc: Allocator + Copy;

    type NameId: Copy + PartialEq;

    type SolvableId: Copy + PartialEq;

    fn root(&mut self) -> Result<Added>;

    fn variable(&mut self, solvable: Self::SolvableId) -> Result<VariableId>;

    fn helper(&mut self, origin: HelperOrigin<Self::NameId>) -> Result<VariableId>;

    fn load(&mut self, requirement: Requirement) -> Result<()>;

    fn lists(&self, requirement: Requirement) -> Option<&[Vec<VariableId, Self::Alloc>]>;

    fn disjunction(
        &mut self,
        literals: &[Literal],
        condition: ConditionId,
    ) -> Result<DisjunctionId>;

    fn requires_clause(
        &mut self,
        parent: VariableId,
        requirement: Requirement,
        condition: Option<DisjunctionId>,
    ) -> Result<Added>;

    fn constrains(
        &mut self,
        parent: VariableId,
        forbidden: VariableId,
        set: VersionSetId,
    ) -> Result<Added>;

    fn lock(&mut self, locked: VariableId, other: VariableId) -> Result<Added>;

    fn exclude(&mut self, variable: VariableId, reason: StringId) -> Result<Added>;

    fn any_of(&mut self, selected: VariableId, other: VariableId) -> Result<Added>;

    fn learnt(&mut self, literals: &[Literal]) -> Result<Added>;

    fn at_most_once(&mut self, name: Self::NameId, variable: VariableId) -> Result<Tracked>;

    fn bump(&mut self, name: Self::NameId, amount: u64) -> Result<()>;

    fn decay(&mut self, numerator: u64, denominator: u64) -> Result<()>;

    fn assign(&mut self, decision: Decision, level: u32) -> Result<Assignment>;

    fn undo_until(&mut self, level: u32);

    fn next_unpropagated(&mut self) -> Option<Decision>;

    fn saturate(&mut self, level: u32) -> Result<Option<ClauseId>>;

    /// Saturates, and picks the next decision unless a clause is false.
    fn next(&mut self, level: u32) -> Result<Next>;

    fn value(&self, variable: VariableId) -> Option<bool>;

    fn origin(
        &self,
        variable: VariableId,
    ) -> Option<VariableOrigin<Self::NameId, Self::SolvableId>>;

    fn literals(&self, clause: ClauseId) -> Result<Option<Vec<Literal, Self::Alloc>>>;
}

impl<D: DependencyProvider + Drop> SearchStore for ClauseStore<D> {
    type Alloc = D::Alloc;

    type NameId = D::NameId;

    type SolvableId = D::SolvableId;

    fn root(&mut self) -> Result<Added> {
        ClauseStore::root(self)
    }

    fn variable(&mut self, solvable: D::SolvableId) -> Result<VariableId> {
        ClauseStore::variable(self, solvable)
    }

    fn helper(&mut self, origin: HelperOrigin<D::NameId>) -> Result<VariableId> {
        ClauseStore::helper(self, origin)
    }

    fn load(&mut self, requirement: Requirement) -> Result<()> {
        ClauseStore::load(self, requirement)
    }

    fn lists(&self, requirement: Requirement) -> Option<&[Vec<VariableId, D::Alloc>]> {
        ClauseStore::lists(self, requirement)
    }

    fn disjunction(
        &mut self,
        literals: &[Literal],
        condition: ConditionId,
    ) -> Result<DisjunctionId> {
        ClauseStore::disjunction(self, literals, condition)
    }

    fn requires_clause(
        &mut self,
        parent: VariableId,
        requirement: Requirement,
        condition: Option<DisjunctionId>,
    ) -> Result<Added> {
        ClauseStore::requires_clause(self, parent, requirement, condition)
    }

    fn constrains(
        &mut self,
        parent: VariableId,
        forbidden: VariableId,
        set: VersionSetId,
    ) -> Result<Added> {
        ClauseStore::constrains(self, parent, forbidden, set)
    }

    fn lock(&mut self, locked: VariableId, other: VariableId) -> Result<Added> {
        ClauseStore::lock(self, locked, other)
    }

    fn exclude(&mut self, variable: VariableId, reason: StringId) -> Result<Added> {
        ClauseStore::exclude(self, variable, reason)
    }

    fn any_of(&mut self, selected: VariableId, other: VariableId) -> Result<Added> {
        ClauseStore::any_of(self, selected, other)
    }

    fn learnt(&mut self, literals: &[Literal]) -> Result<Added> {
        ClauseStore::learnt(self, literals)
    }

    fn at_most_once(&mut self, name: D::NameId, variable: VariableId) -> Result<Tracked> {
        ClauseStore::at_most_once(self, name, variable)
    }

    fn bump(&mut self, name: D::NameId, amount: u64) -> Result<()> {
        ClauseStore::bump(self, name, amount)
    }

    fn decay(&mut self, numerator: u64, denominator: u64) -> Result<()> {
        ClauseStore::decay(self, numerator, denominator)
    }

    fn assign(&mut self, decision: Decision, level: u32) -> Result<Assignment> {
        ClauseStore::assign(self, decision, level)
    }

    fn undo_until(&mut self, level: u32) {
        ClauseStore::undo_until(self, level);
    }

    fn next_unpropagated(&mut self) -> Option<Decision> {
        ClauseStore::next_unpropagated(self)
    }

    fn saturate(&mut self, level: u32) -> Result<Option<ClauseId>> {
        ClauseStore::saturate(self, level)
    }

    fn next(&mut self, level: u32) -> Result<Next> {
        if let Some(conflict) = ClauseStore::saturate(self, level)? {
            return Ok(Next::Falsified(conflict));
        }
        match self.next_decision()? {
            Some(decision) => Ok(Next::Decided(decision)),
            None => Ok(Next::Done),
        }
    }

    fn value(&self, variable: VariableId) -> Option<bool> {
        ClauseStore::value(self, variable)
    }

    fn origin(&self, variable: VariableId) -> Option<VariableOrigin<D::NameId, D::SolvableId>> {
        ClauseStore::origin(self, variable)
    }

    fn literals(&self, clause: ClauseId) -> Result<Option<Vec<Literal, D::Alloc>>> {
        ClauseStore::literals(self, clause)
    }
}
