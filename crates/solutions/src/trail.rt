//! The trail of a replay.
ghost use Rattle.std.specs.Prelude.{◌≡◌, Bool, true, [], ◌∷◌, ◌++◌, IfSome, IfOk, OnOk};
ghost use Rattle.solutions.specs.Clauses.{AreTrue, Follows, is_true};
ghost use Rattle.solutions.specs.declared.literal.Fact.{Fact};

use crate::literal::Literal;
use crate::watches::{Cursor, Sign, Watches};
use resolvo_ids::{SameId, StoreError};
use std::alloc::Allocator;

/// Literals that are known, oldest first. A fact's literal is searched at the place that was noted for the fact's
/// number, and is taken if it is there: so places need not be cleared.
#[derive(Drop)]
pub(crate) struct Trail<N: SameId, S: SameId, A: Allocator + Copy> {
    pub(crate) literals: Vec<Literal<N, S>, A>,
    /// For each number of a fact a place among the literals.
    places: Vec<usize, A>,
    watches: Watches<A>,
}

impl<N: SameId, S: SameId, A: Allocator + Copy> Trail<N, S, A> {
    /// Nothing is known of any fact.
    pub(crate) fn new(alloc: A, facts: usize) -> Result<Self, StoreError>
        ensures { IfOk result (λ trail. trail.literals.items ≡ []) }
    {
        let mut places = Vec::new(alloc);
        for _ in 0..facts {
            places.push(0)?;
        }
        Ok(Trail {
            literals: Vec::new(alloc),
            places,
            watches: Watches::new(alloc),
        })
    }

    /// Whether a literal is true, if that is known.
    pub(crate) fn value(&self, literal: Literal<N, S>) -> Option<bool>
        ensures { (holds : Fact N S → Bool) → AreTrue holds self.now.literals.items →
            IfSome result (λ yes. is_true holds literal ≡ yes) }
    {
        let place = *self.places.get(literal.number as usize)?;
        let found = *self.literals.get(place)?;
        if found.fact.is(&literal.fact) {
            Some(found.value == literal.value)
        } else {
            None
        }
    }

    /// Adds a literal, if it isn't known. Answers whether its opposite is.
    pub(crate) fn add(&mut self, literal: Literal<N, S>) -> Result<bool, StoreError>
        ensures { IfOk result
            (Follows (λ holds. is_true holds literal ≡ true) self.old.literals.items self.new.literals.items) }
    {
        match self.value(literal) {
            Some(value) => Ok(!value),
            None => {
                self.note(literal)?;
                Ok(false)
            }
        }
    }

    /// Adds a literal.
    fn note(&mut self, literal: Literal<N, S>) -> Result<(), StoreError>
        ensures { OnOk result (self.new.literals.items ≡ self.old.literals.items ++ literal ∷ []) }
    {
        let place = self.literals.len();
        self.literals.push(literal)?;
        if let Some(noted) = self.places.get_mut(literal.number as usize) {
            *noted = place;
        }
        Ok(())
    }

    /// Lets the next clause watch two literals that aren't false, if it has them.
    pub(crate) fn watch(&mut self, clause: &[Literal<N, S>]) -> Result<(), StoreError>
        ensures { self.new.literals.items ≡ self.old.literals.items }
    {
        let pair = self.pair(clause);
        self.watches.add(pair)
    }

    /// Two literals of a clause that aren't false.
    fn pair(&self, clause: &[Literal<N, S>]) -> Option<(Sign, Sign)> {
        let first = self.first_open(clause, None)?;
        let second = self.first_open(clause, Some(first))?;
        Some((first, second))
    }

    /// The first literal of a clause that isn't false, and isn't this one.
    fn first_open(&self, clause: &[Literal<N, S>], but: Option<Sign>) -> Option<Sign> {
        for literal in clause {
            let sign = literal.sign();
            if Some(sign) != but && self.sign_value(sign) != Some(false) {
                return Some(sign);
            }
        }
        None
    }

    /// Whether a literal is true, by its number alone.
    fn sign_value(&self, sign: Sign) -> Option<bool> {
        let place = *self.places.get(sign.number as usize)?;
        let found = self.literals.get(place)?;
        if found.number == sign.number {
            Some(found.value == sign.value)
        } else {
            None
        }
    }

    /// The place of the next clause that watches a literal that is false, and has at most one other that isn't.
    /// Those that have more watch another one then.
    pub(crate) fn next_place(
        &mut self,
        clauses: &[Vec<Literal<N, S>, A>],
        cursor: &mut Cursor,
    ) -> Result<Option<usize>, StoreError>
        ensures { self.new.literals.items ≡ self.old.literals.items }
    {
        for _ in 0..usize::MAX {
            let Some(place) = self.watches.get(cursor) else {
                return Ok(None);
            };
            if self.is_short(clauses, cursor, place)? {
                return Ok(Some(place));
            }
        }
        Ok(None)
    }

    /// Whether at most one literal of the clause at the cursor isn't false; the cursor advances then. Otherwise the
    /// clause watches another one, or is satisfied.
    fn is_short(
        &mut self,
        clauses: &[Vec<Literal<N, S>, A>],
        cursor: &mut Cursor,
        place: usize,
    ) -> Result<bool, StoreError>
        ensures { self.new.literals.items ≡ self.old.literals.items }
    {
        let Some(kept) = self.watches.other(place, cursor.sign) else {
            cursor.advance();
            return Ok(false);
        };
        if self.sign_value(kept) == Some(true) {
            cursor.advance();
            return Ok(false);
        }
        match self.first_open_at(clauses, place, kept) {
            Some(sign) => {
                self.watches.change(cursor, place, kept, sign)?;
                Ok(false)
            }
            None => {
                cursor.advance();
                Ok(true)
            }
        }
    }

    /// The first literal of the clause at a place that isn't false, and isn't this one.
    fn first_open_at(
        &self,
        clauses: &[Vec<Literal<N, S>, A>],
        place: usize,
        but: Sign,
    ) -> Option<Sign> {
        self.first_open(clauses.get(place)?, Some(but))
    }
}
