//! Types whose clones say all.
ghost use Rattle.std.specs.Prelude.{◌≡◌};

/// A type whose clone is the value itself: neither a field nor a variant differs. (The contract of `Clone` alone lets
/// each type choose what a clone has in common with it.)
pub trait SameClone: Clone {
    /// A clone of a value is the same value.
    ghost clone_is_same: { (a b : Self) → Self.is_clone a b → b ≡ a };
}

impl SameClone for u16 {
    ghost use Rattle.std.proofs.Common.{rules};

    ghost clone_is_same = { λ a b h. Prim.search rules };
}

impl SameClone for u32 {
    ghost use Rattle.std.proofs.Common.{rules};

    ghost clone_is_same = { λ a b h. Prim.search rules };
}

impl SameClone for u64 {
    ghost use Rattle.std.proofs.Common.{rules};

    ghost clone_is_same = { λ a b h. Prim.search rules };
}
