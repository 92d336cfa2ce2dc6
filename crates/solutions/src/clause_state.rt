//! The state of a clause.
ghost use Rattle.std.specs.Prelude.{◌≡◌, Bool, List, [], ◌∷◌, ◌++◌, IfSome};
ghost use Rattle.solutions.specs.Clauses.{AreTrue, IsStateOf, is_true};
ghost use Rattle.solutions.specs.declared.literal.Fact.{Fact};
ghost use Rattle.solutions.specs.declared.literal.Literal.{Literal};

use crate::literal::Literal;
use crate::trail::Trail;
use resolvo_ids::SameId;
use std::alloc::Allocator;

/// The state of a clause if some literals are known.
#[derive(Clone, Copy)]
pub(crate) enum ClauseState<N, S> {
    /// No literal can be true.
    Falsified,
    /// This literal has to be true, since no other can.
    Unit(Literal<N, S>),
    /// A literal is true, or several may be.
    Open,
}

impl<N: SameId, S: SameId> ClauseState<N, S> {
    /// The state with one more literal, whose value is known, or not.
    fn with(self, literal: Literal<N, S>, value: Option<bool>) -> Self
        ensures { (trail clause : List (Literal N S)) → ((holds : Fact N S → Bool) → AreTrue holds trail →
            IfSome value (λ yes. is_true holds literal ≡ yes)) →
            IsStateOf trail clause self → IsStateOf trail (clause ++ literal ∷ []) result }
    {
        match value {
            Some(true) => ClauseState::Open,
            Some(false) => self,
            None => self.with_unknown(literal),
        }
    }

    /// The state with one more literal, whose value isn't known.
    fn with_unknown(self, literal: Literal<N, S>) -> Self
        ensures { (trail clause : List (Literal N S)) →
            IsStateOf trail clause self → IsStateOf trail (clause ++ literal ∷ []) result }
    {
        match self {
            ClauseState::Falsified => ClauseState::Unit(literal),
            ClauseState::Unit(other) => {
                if other.is(&literal) {
                    ClauseState::Unit(other)
                } else {
                    ClauseState::Open
                }
            }
            ClauseState::Open => ClauseState::Open,
        }
    }
}

/// The state of a clause. It is read until it is open.
pub(crate) fn state_of<N: SameId, S: SameId, A: Allocator + Copy>(
    clause: &[Literal<N, S>],
    trail: &Trail<N, S, A>,
) -> ClauseState<N, S>
    ensures { IsStateOf trail.now.literals.items clause.now result }
{
    let mut state = ClauseState::Falsified;
    for literal in clause {
        state = state.with(*literal, trail.value(*literal));
        if let ClauseState::Open = state {
            return ClauseState::Open;
        }
    }
    state
}
