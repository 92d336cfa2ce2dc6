//! Values of maps: a number or none.
ghost use Rattle.std.specs.Prelude.{◌≡◌};

use std::marker::Model;
use typed_ids::{DefaultValue, SameClone, SameValue};

/// A number or none. A type of its own, since a bound on the maps of an id can't name `Option<u32>`.
#[derive(Clone, Copy, Debug, PartialEq, Eq)]
pub struct Slot {
    number: Option<u32>,
}

impl Model for Slot {
    ghost use Rattle.std.specs.Prelude.{ℕ, Option};

    ghost Value = { Option ℕ };

    ghost view = { λ a. a.number };

    ghost inverse = { λ n. record { number = n } };
}

impl Slot {
    /// A slot that holds this number, or none.
    pub fn new(number: Option<u32>) -> Slot
        ensures { result ≡ number }
    {
        Slot { number }
    }

    /// The number in it.
    pub fn number(self) -> Option<u32>
        ensures { result ≡ self }
    {
        self.number
    }
}

impl Default for Slot {
    ghost use Rattle.std.specs.Prelude.{None};

    ghost is_default = { λ s. s ≡ None };

    fn default() -> Slot {
        Slot { number: None }
    }
}

impl DefaultValue for Slot {
    ghost use Rattle.std.specs.Prelude.{None, refl};

    ghost default_value = { None };

    ghost default_is = { refl };

    ghost only_default = { λ s h. h };
}

impl SameValue for Slot {
    ghost use Rattle.std.proofs.Common.{rules};

    ghost same = { λ a b h. Prim.search rules };
}

impl SameClone for Slot {
    ghost use Rattle.std.proofs.Common.{rules};

    ghost clone_is_same = { λ a b h. Prim.search rules };
}
