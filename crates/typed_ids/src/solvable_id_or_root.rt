//! Keys that are the root or a solvable.
ghost use Rattle.std.specs.Prelude.{◌≡◌};
ghost use Rattle.typed_ids.specs.declared.solvable_id_or_root.SolvableIdOrRoot.TheVariants.{Root};
ghost use Rattle.typed_ids.specs.WithRoot.{solvable_of};

use crate::same_clone::SameClone;
use crate::same_value::SameValue;

/// The root, or a solvable of the provider.
#[derive(Clone, Copy, Debug, PartialEq, Eq, Hash)]
pub enum SolvableIdOrRoot<S> {
    /// The root.
    Root,
    /// A solvable.
    Solvable(S),
}

impl<S> SolvableIdOrRoot<S> {
    /// The key of the root.
    pub fn root() -> Self
        ensures { result ≡ Root }
    {
        SolvableIdOrRoot::Root
    }

    /// The solvable, or none for the root.
    pub fn solvable(self) -> Option<S>
        ensures { result ≡ solvable_of self }
    {
        match self {
            SolvableIdOrRoot::Root => None,
            SolvableIdOrRoot::Solvable(solvable) => Some(solvable),
        }
    }
}

impl<S> From<S> for SolvableIdOrRoot<S> {
    ghost use Rattle.typed_ids.specs.declared.solvable_id_or_root.SolvableIdOrRoot.TheVariants.{Solvable};

    ghost from_gives = { λ solvable key. key ≡ Solvable solvable };

    fn from(solvable: S) -> Self {
        SolvableIdOrRoot::Solvable(solvable)
    }
}

impl<S: SameClone> SameClone for SolvableIdOrRoot<S> {
    ghost use Rattle.std.proofs.Common.{rules};

    ghost clone_is_same = { λ a b h. Prim.search rules };
}

impl<S: SameValue> SameValue for SolvableIdOrRoot<S> {
    ghost use Rattle.std.proofs.Common.{rules};

    ghost same = { λ a b h. Prim.search rules };
}
