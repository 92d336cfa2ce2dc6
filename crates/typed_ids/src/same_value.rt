//! Types whose equality says all.
ghost use Rattle.std.specs.Prelude.{◌≡◌, true};

/// A type whose `==` is sameness: of two values that compare equal, neither a field nor a variant differs. (That a
/// value equals itself, and that equal values hash alike, are laws of `Eq` and of `Hash`.)
pub trait SameValue: Eq {
    /// Values that compare equal are the same value.
    ghost same: { (a b : Self) → Self.eq a b ≡ true → a ≡ b };
}

impl SameValue for u16 {
    ghost use Rattle.std.proofs.Common.{rules};

    ghost same = { λ a b h. Prim.search rules };
}

impl SameValue for u32 {
    ghost use Rattle.std.proofs.Common.{rules};

    ghost same = { λ a b h. Prim.search rules };
}

impl SameValue for u64 {
    ghost use Rattle.std.proofs.Common.{rules};

    ghost same = { λ a b h. Prim.search rules };
}
