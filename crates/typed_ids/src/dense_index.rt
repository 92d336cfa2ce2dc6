//! Ids that stand for indexes without gaps.
ghost use Rattle.std.specs.Prelude.{◌≡◌, ◌<◌, ◌^◌, ◌↔◌, ℕ, IsTrue, refl};

/// Dense storage ends before this index, 2^40, and a requirement has fewer rows than this.
pub const DENSE_LIMIT: usize = 1 << 40;

/// An id that stands for an index, so that storage kept by it can be a vector.
pub trait DenseIndex: Copy {
    /// The indexes in range are those below this number.
    ghost limit: { ℕ };

    /// The index that an id stands for.
    ghost index_of: { Self → ℕ };

    /// The id that stands for an index in range.
    ghost id_at: { ℕ → Self };

    /// Whether an id stands for this index.
    fn in_range(index: usize) -> bool
        ensures { IsTrue result ↔ (index < limit) };

    /// The id that stands for the index. [`DenseIndex::in_range`] is the test of what it asks.
    fn from_index(index: usize) -> Self
        requires { index < limit }
        ensures { result ≡ id_at index };

    /// The index that the id stands for.
    fn to_index(self) -> usize
        ensures value { result ≡ index_of self }
        ensures in_range { result < limit };

    /// An index in range comes back.
    ghost round_trip: { (x : ℕ) → x < limit → index_of (id_at x) ≡ x };

    /// Different ids stand for different indexes.
    ghost distinct: { (a b : Self) → index_of a ≡ index_of b → a ≡ b };
}

impl DenseIndex for u16 {
    ghost limit = { 2 ^ 16 };

    ghost index_of = { λ x. x };

    ghost id_at = { λ x. x };

    ghost round_trip = { λ x h. refl };

    ghost distinct = { λ a b h. h };

    fn in_range(index: usize) -> bool {
        index <= u16::MAX as usize
    }

    fn from_index(index: usize) -> u16 {
        index as u16
    }

    fn to_index(self) -> usize {
        usize::from(self)
    }
}

impl DenseIndex for u32 {
    ghost limit = { 2 ^ 32 };

    ghost index_of = { λ x. x };

    ghost id_at = { λ x. x };

    ghost round_trip = { λ x h. refl };

    ghost distinct = { λ a b h. h };

    fn in_range(index: usize) -> bool {
        index <= u32::MAX as usize
    }

    fn from_index(index: usize) -> u32 {
        index as u32
    }

    fn to_index(self) -> usize {
        self as usize
    }
}

impl DenseIndex for u64 {
    ghost limit = { 2 ^ 64 };

    ghost index_of = { λ x. x };

    ghost id_at = { λ x. x };

    ghost round_trip = { λ x h. refl };

    ghost distinct = { λ a b h. h };

    fn in_range(index: usize) -> bool {
        index <= u64::MAX as usize
    }

    fn from_index(index: usize) -> u64 {
        index as u64
    }

    fn to_index(self) -> usize {
        self as usize // of 64 bits, too
    }
}
