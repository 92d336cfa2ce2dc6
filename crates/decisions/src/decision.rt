//! Decisions: what a variable is, and why.
ghost use Rattle.std.specs.Prelude.{◌≡◌};

use typed_ids::{ClauseId, SameClone, SameValue, VariableId};

/// A value given to a variable, and the clause that gave it.
#[derive(Clone, Copy, Debug, PartialEq, Eq)]
pub struct Decision {
    /// The variable that gets a value.
    pub variable: VariableId,
    /// The value.
    pub value: bool,
    /// The clause that gave it.
    pub derived_from: ClauseId,
}

impl Decision {
    /// The decision with these parts.
    pub fn new(variable: VariableId, value: bool, derived_from: ClauseId) -> Self
        ensures { result ≡
            record { variable = variable; value = value; derived_from = derived_from } }
    {
        Decision {
            variable,
            value,
            derived_from,
        }
    }
}

impl SameClone for Decision {
    ghost use Rattle.std.proofs.Common.{rules};

    ghost clone_is_same = { λ a b h. Prim.search rules };
}

impl SameValue for Decision {
    ghost use Rattle.std.proofs.Common.{rules};

    ghost same = { λ a b h. Prim.search rules };
}
