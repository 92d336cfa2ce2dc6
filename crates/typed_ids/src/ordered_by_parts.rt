//! Types whose order is that of their parts.
ghost use Rattle.std.specs.Prelude.{◌≡◌, ℕ, List, [], ◌∷◌};
ghost use Rattle.std.specs.Cmp.Lexicographic.{slice_cmp};
ghost use Rattle.std.specs.Ordering.{nat_cmp};

/// A type that is ordered by variants and fields, in the order in which they are written.
pub trait OrderedByParts: Ord {
    /// The number of the variant, where there are several, and then the parts of each field. An id has one, its index.
    ghost parts: { Self → List ℕ };

    /// The first part in which two values differ decides.
    ghost by_parts: { (a b : Self) → Self.cmp a b ≡ slice_cmp nat_cmp (parts a) (parts b) };
}

impl OrderedByParts for u16 {
    ghost use Rattle.std.proofs.Common.{rules};

    ghost parts = { λ x. x ∷ [] };

    ghost by_parts = { λ a b. Prim.search rules };
}

impl OrderedByParts for u32 {
    ghost use Rattle.std.proofs.Common.{rules};

    ghost parts = { λ x. x ∷ [] };

    ghost by_parts = { λ a b. Prim.search rules };
}

impl OrderedByParts for u64 {
    ghost use Rattle.std.proofs.Common.{rules};

    ghost parts = { λ x. x ∷ [] };

    ghost by_parts = { λ a b. Prim.search rules };
}
