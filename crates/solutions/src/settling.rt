//! That the first true literals of lists come no earlier than at their ranks.
ghost use Rattle.std.specs.Prelude.{◌≡◌, Bool, true, false, IfOk, OnOk};
ghost use Rattle.solutions.specs.Clauses.{AreSatisfied, AreTrue, Replayed, is_true};
ghost use Rattle.solutions.specs.Settled.{IsAtLeast, IsUnbeaten, Settled, StaysTrue, first_true, first_trues};
ghost use Rattle.solutions.specs.declared.literal.Fact.{Fact};

use crate::literal::Literal;
use crate::refuting::Replay;
use resolvo_ids::{SolverId, StoreError};
use std::alloc::Allocator;

impl<N: SolverId<A>, S: SolverId<A>, A: Allocator + Copy> Replay<N, S, A> {
    /// How many lists are settled, from the first on. A list is if it follows that none of its literals before the rank
    /// is true. The one at the rank, if there is one, is assumed from there on.
    pub(crate) fn settle_all(
        &mut self,
        lists: &[Vec<Literal<N, S>, A>],
        ranks: &[usize],
    ) -> Result<usize, StoreError>
        ensures { IfOk result (λ count. (holds : Fact N S → Bool) →
            AreSatisfied holds self.old.theory.clauses.items → AreTrue holds self.old.trail.literals.items →
            IsUnbeaten count ranks.now (first_trues holds lists.now)) }
    {
        for (place, literals) in lists.iter().enumerate() {
            let Some(rank) = ranks.get(place) else {
                return Ok(place);
            };
            if !self.settle(literals, *rank)? {
                return Ok(place);
            }
        }
        Ok(lists.len())
    }

    /// Whether it follows that none of the literals before a place is true. If so, the one at that place is assumed.
    fn settle(&mut self, literals: &[Literal<N, S>], rank: usize) -> Result<bool, StoreError>
        ensures { IfOk result (λ yes. yes ≡ true → Settled self.old.theory.clauses.items self.old.trail.literals.items
            literals.now rank self.new.theory.clauses.items self.new.trail.literals.items) }
    {
        if !self.is_at_least(literals, rank)? {
            return Ok(false);
        }
        self.assume_at(literals, rank)?;
        Ok(true)
    }

    /// Whether it follows that none of the literals before a place is true.
    fn is_at_least(&mut self, literals: &[Literal<N, S>], rank: usize) -> Result<bool, StoreError>
        ensures at_least { IfOk result (λ yes. yes ≡ true → IsAtLeast self.old.theory.clauses.items
            self.old.trail.literals.items literals.now rank) }
        ensures replayed { OnOk result (Replayed self.old.theory.clauses.items self.old.trail.literals.items
            self.new.theory.clauses.items self.new.trail.literals.items false) }
    {
        for place in 0..rank {
            let Some(better) = literals.get(place..place + 1) else {
                return Ok(false);
            };
            if !self.are_refuted(better)? {
                return Ok(false);
            }
        }
        Ok(true)
    }

    /// Assumes the literal at a place, if there is one.
    fn assume_at(&mut self, literals: &[Literal<N, S>], place: usize) -> Result<(), StoreError>
        ensures { OnOk result (StaysTrue (λ holds. first_true holds literals.now ≡ place)
            self.old.theory.clauses.items self.old.trail.literals.items
            self.new.theory.clauses.items self.new.trail.literals.items) }
    {
        match literals.get(place) {
            Some(literal) => self.assume(*literal),
            None => Ok(()),
        }
    }

    /// Adds a clause that a literal is true, and propagates.
    fn assume(&mut self, literal: Literal<N, S>) -> Result<(), StoreError>
        ensures { OnOk result (StaysTrue (λ holds. is_true holds literal ≡ true)
            self.old.theory.clauses.items self.old.trail.literals.items
            self.new.theory.clauses.items self.new.trail.literals.items) }
    {
        let place = self.theory.clauses.len();
        self.theory.add_unit(self.alloc, literal)?;
        self.theory
            .rules()
            .propagate_clause(&mut self.trail, place)?;
        Ok(())
    }
}
