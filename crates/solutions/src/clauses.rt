//! Clauses, and unit propagation over them.
ghost use Rattle.std.specs.Prelude.{◌≡◌, Bool, true, not, All, [], ◌∷◌, ◌++◌, IfOk, OnOk};
ghost use Rattle.solutions.specs.Clauses.{AreSatisfied, AreTrue, Follows, IsClauseAdded, is_true};
ghost use Rattle.solutions.specs.declared.literal.Fact.{Fact};

use crate::atoms::Atoms;
use crate::clause_state::{ClauseState, state_of};
use crate::literal::Literal;
use crate::trail::Trail;
use crate::watches::{Cursor, Sign};
use resolvo_ids::{SameId, SolverId, StoreError};
use std::alloc::Allocator;

/// Clauses about facts that were seen.
#[derive(Drop)]
pub(crate) struct Theory<N: SolverId<A>, S: SolverId<A>, A: Allocator + Copy> {
    pub(crate) atoms: Atoms<N, S, A>,
    pub(crate) clauses: Vec<Vec<Literal<N, S>, A>, A>,
}

impl<N: SolverId<A>, S: SolverId<A>, A: Allocator + Copy> Theory<N, S, A> {
    pub(crate) fn new(alloc: A) -> Result<Self, StoreError>
        ensures { IfOk result (λ theory. theory.clauses.items ≡ []) }
    {
        Ok(Theory {
            atoms: Atoms::new(alloc)?,
            clauses: Vec::new(alloc),
        })
    }

    pub(crate) fn add(&mut self, clause: Vec<Literal<N, S>, A>) -> Result<(), StoreError>
        ensures { OnOk result (self.new.clauses.items ≡ self.old.clauses.items ++ clause ∷ []) }
    {
        self.clauses.push(clause)?;
        Ok(())
    }

    /// Adds a clause of one literal.
    pub(crate) fn add_unit(&mut self, alloc: A, literal: Literal<N, S>) -> Result<(), StoreError>
        ensures { OnOk result (IsClauseAdded self.old.clauses.items (literal ∷ []) self.new.clauses.items) }
    {
        let mut clause = Vec::new(alloc);
        clause.push(literal)?;
        self.add(clause)
    }

    /// Adds a clause of two literals.
    pub(crate) fn add_binary(
        &mut self,
        alloc: A,
        one: Literal<N, S>,
        other: Literal<N, S>,
    ) -> Result<(), StoreError>
        ensures { OnOk result (IsClauseAdded self.old.clauses.items (one ∷ other ∷ []) self.new.clauses.items) }
    {
        let mut clause = Vec::new(alloc);
        clause.push(one)?;
        clause.push(other)?;
        self.add(clause)
    }

    /// What propagates literals.
    pub(crate) fn rules(&self) -> Rules<'_, N, S, A>
        ensures { result.clauses.now ≡ self.now.clauses.items }
    {
        Rules {
            clauses: self.clauses.as_slice(),
        }
    }
}

/// What propagates literals: clauses. When a literal becomes known, those that watch its opposite are visited.
#[derive(Clone, Copy)]
pub(crate) struct Rules<'t, N: SameId, S: SameId, A: Allocator + Copy> {
    pub(crate) clauses: &'t [Vec<Literal<N, S>, A>],
}

impl<'t, N: SameId, S: SameId, A: Allocator + Copy> Rules<'t, N, S, A> {
    /// Propagates all clauses. Answers whether they contradict what is known.
    pub(crate) fn propagate_all(&self, trail: &mut Trail<N, S, A>) -> Result<bool, StoreError>
        ensures { IfOk result (Follows (λ holds. AreSatisfied holds self.now.clauses.now)
            trail.old.literals.items trail.new.literals.items) }
    {
        if self.visit_all(trail)? {
            return Ok(true);
        }
        self.propagate(trail, 0)
    }

    /// Visits each clause once.
    fn visit_all(&self, trail: &mut Trail<N, S, A>) -> Result<bool, StoreError>
        ensures { IfOk result (Follows (λ holds. AreSatisfied holds self.now.clauses.now)
            trail.old.literals.items trail.new.literals.items) }
    {
        for place in 0..self.clauses.len() {
            if self.attach(trail, place)? {
                return Ok(true);
            }
        }
        Ok(false)
    }

    /// Lets the clause at a place watch two literals, and visits it. Answers whether it contradicts what is known.
    fn attach(&self, trail: &mut Trail<N, S, A>, place: usize) -> Result<bool, StoreError>
        ensures { IfOk result (Follows (λ holds. AreSatisfied holds self.now.clauses.now)
            trail.old.literals.items trail.new.literals.items) }
    {
        self.watch_at(trail, place)?;
        self.visit(trail, place)
    }

    /// Lets the clause at a place watch two literals.
    fn watch_at(&self, trail: &mut Trail<N, S, A>, place: usize) -> Result<(), StoreError>
        ensures { trail.new.literals.items ≡ trail.old.literals.items }
    {
        match self.clauses.get(place) {
            Some(clause) => trail.watch(clause),
            None => Ok(()),
        }
    }

    /// Propagates the new clause at a place. Answers whether it contradicts what is known.
    pub(crate) fn propagate_clause(
        &self,
        trail: &mut Trail<N, S, A>,
        place: usize,
    ) -> Result<bool, StoreError>
        ensures { IfOk result (Follows (λ holds. AreSatisfied holds self.now.clauses.now)
            trail.old.literals.items trail.new.literals.items) }
    {
        let count = trail.literals.len();
        if self.attach(trail, place)? {
            return Ok(true);
        }
        self.propagate(trail, count)
    }

    /// Whether literals can't all be true if all that is known is.
    pub(crate) fn refute(
        &self,
        trail: &mut Trail<N, S, A>,
        assumed: &[Literal<N, S>],
    ) -> Result<bool, StoreError>
        ensures refuted { IfOk result (λ yes. yes ≡ true → (holds : Fact N S → Bool) →
            AreSatisfied holds self.now.clauses.now → AreTrue holds trail.old.literals.items →
            AreTrue holds assumed.now → ⊥) }
        ensures rolled_back { OnOk result (trail.new.literals.items ≡ trail.old.literals.items) }
    {
        let count = trail.literals.len();
        let refuted = self.propagate_assumed(trail, assumed)?;
        trail.literals.truncate(count);
        Ok(refuted)
    }

    /// Adds literals, and propagates.
    fn propagate_assumed(
        &self,
        trail: &mut Trail<N, S, A>,
        assumed: &[Literal<N, S>],
    ) -> Result<bool, StoreError>
        ensures { IfOk result (Follows (λ holds. AreSatisfied holds self.now.clauses.now ×
            AreTrue holds assumed.now) trail.old.literals.items trail.new.literals.items) }
    {
        let count = trail.literals.len();
        if assume(trail, assumed)? {
            return Ok(true);
        }
        self.propagate(trail, count)
    }

    /// Adds what follows from the literals from a place on, and from what that adds.
    fn propagate(&self, trail: &mut Trail<N, S, A>, from: usize) -> Result<bool, StoreError>
        ensures { IfOk result (Follows (λ holds. AreSatisfied holds self.now.clauses.now)
            trail.old.literals.items trail.new.literals.items) }
    {
        for place in from..usize::MAX {
            let Some(found) = trail.literals.get(place) else {
                return Ok(false);
            };
            let sign = found.sign().opposite();
            if self.visit_watchers(trail, sign)? {
                return Ok(true);
            }
        }
        Ok(false)
    }

    /// Visits the clauses that watch a literal and have at most one other that isn't false.
    fn visit_watchers(&self, trail: &mut Trail<N, S, A>, sign: Sign) -> Result<bool, StoreError>
        ensures { IfOk result (Follows (λ holds. AreSatisfied holds self.now.clauses.now)
            trail.old.literals.items trail.new.literals.items) }
    {
        let mut cursor = Cursor::new(sign);
        for _ in 0..usize::MAX {
            let Some(place) = trail.next_place(self.clauses, &mut cursor)? else {
                return Ok(false);
            };
            if self.visit(trail, place)? {
                return Ok(true);
            }
        }
        Ok(false)
    }

    /// Adds the literal of a clause that is unit. Answers whether the clause is falsified.
    fn visit(&self, trail: &mut Trail<N, S, A>, place: usize) -> Result<bool, StoreError>
        ensures { IfOk result (Follows (λ holds. AreSatisfied holds self.now.clauses.now)
            trail.old.literals.items trail.new.literals.items) }
    {
        let Some(clause) = self.clauses.get(place) else {
            return Ok(false);
        };
        match state_of(clause, trail) {
            ClauseState::Falsified => Ok(true),
            ClauseState::Unit(literal) => trail.add(literal),
            ClauseState::Open => Ok(false),
        }
    }
}

/// Adds literals, up to one whose opposite is known.
fn assume<N: SameId, S: SameId, A: Allocator + Copy>(
    trail: &mut Trail<N, S, A>,
    literals: &[Literal<N, S>],
) -> Result<bool, StoreError>
    ensures { IfOk result (Follows (λ holds. AreTrue holds literals.now)
        trail.old.literals.items trail.new.literals.items) }
{
    for literal in literals {
        if trail.add(*literal)? {
            return Ok(true);
        }
    }
    Ok(false)
}
