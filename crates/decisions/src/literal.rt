//! Literals: a variable, or its negation.
ghost use Rattle.std.specs.Prelude.{◌≡◌, if◌then◌else◌};
ghost use Rattle.decisions.specs.Decisions.{values_in};
ghost use Rattle.decisions.specs.Literals.{Pos, Neg, variable_of, negation, satisfying_value, truth};

use crate::decision_map::DecisionMap;
use std::alloc::Allocator;
use std::marker::Model;
use typed_ids::{DenseIndex, SameClone, SameValue, VariableId};

/// How many literals there are: two for each of the 2^31 - 1 variables.
const COUNT: usize = 4294967294;

/// A variable or its negation, kept as its index plus one, which its `Debug` text shows: the two literals of a variable
/// have neighboring indexes, the positive one first.
#[derive(Clone, Copy, Debug, PartialEq, Eq)]
pub struct Literal(u32);

impl Model for Literal {
    ghost use Rattle.std.specs.Prelude.{◌-◌, ◌+◌, ◌<◌, ◌≤◌, ◌^◌, ℕ};
    ghost use Rattle.std.proofs.Common.{ap};
    ghost use Rattle.decisions.specs.Literals.{Lit};
    ghost use Rattle.decisions.specs.LiteralIndex.{literal_at, literal_index, literal_index-literal_at_raw};

    ghost Value = { Lit };

    ghost view = { λ a. literal_at (a.0 - 1) };

    ghost invariant = { λ a. (1 ≤ a.0) × (a.0 < 2 ^ 32 - 1) };

    ghost inverse = { λ l. record { 0 = literal_index l + 1 } };

    ghost inverse_ok = { λ a h. ap (λ (n : ℕ). record { 0 = n }) (literal_index-literal_at_raw a.0 h.0) };
}

impl Literal {
    /// The variable's positive literal, or its negation.
    pub fn new(variable: VariableId, negate: bool) -> Self
        ensures { result ≡ (if negate then Neg variable else Pos variable) }
    {
        let index = 2 * variable.to_index() as u32;
        Literal(if negate { index + 2 } else { index + 1 })
    }

    /// The literal of the same variable with the other sign.
    pub fn negate(self) -> Self
        ensures { result ≡ negation self }
    {
        Literal::new(self.variable(), self.satisfying_value())
    }

    /// The value of its variable that makes the literal true.
    pub fn satisfying_value(self) -> bool
        ensures { result ≡ satisfying_value self }
    {
        self.0 % 2 == 1
    }

    /// Its variable.
    pub fn variable(self) -> VariableId
        ensures { result ≡ variable_of self }
    {
        VariableId::from_index(((self.0 - 1) / 2) as usize)
    }

    /// Whether the decisions make the literal true or false, `None` while its variable is undecided.
    pub fn eval<A: Allocator + Copy>(self, map: &DecisionMap<A>) -> Option<bool>
        ensures { result ≡ truth (values_in map.now) self }
    {
        match map.value(self.variable()) {
            Some(value) => Some(value == self.satisfying_value()),
            None => None,
        }
    }
}

impl DenseIndex for Literal {
    ghost use Rattle.std.specs.Prelude.{◌^◌, ◌-◌};
    ghost use Rattle.decisions.specs.LiteralIndex.{literal_at, literal_index};
    ghost use Rattle.decisions.specs.LiteralIndex.{literal_index-literal_at, literal_index-injective};

    ghost limit = { 2 ^ 32 - 2 };

    ghost index_of = { literal_index };

    ghost id_at = { literal_at };

    ghost round_trip = { λ x h. literal_index-literal_at x };

    ghost distinct = { λ a b h. literal_index-injective a b h };

    fn in_range(index: usize) -> bool {
        index < COUNT
    }

    fn from_index(index: usize) -> Literal {
        Literal(index as u32 + 1)
    }

    fn to_index(self) -> usize {
        (self.0 - 1) as usize
    }
}

impl SameClone for Literal {
    ghost use Rattle.std.proofs.Common.{rules};

    ghost clone_is_same = { λ a b h. Prim.search rules };
}

impl SameValue for Literal {
    ghost use Rattle.std.proofs.Common.{rules};

    ghost same = { λ a b h. Prim.search rules };
}
