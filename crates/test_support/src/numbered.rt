//! Ids that are told by their numbers. Dense ids are their numbers; sparse ones of 16 and of 64 bits lie far apart.
ghost use Rattle.std.specs.Prelude.{◌≡◌, ◌*◌, ◌/◌, ◌%◌, ◌^◌, ℕ, refl};

use typed_ids::{DenseId, SparseId};

/// An id, and its number.
pub trait Numbered: Copy {
    /// The number of an id.
    ghost number_of: { Self → ℕ };

    /// The id of a number.
    ghost id_of: { ℕ → Self };

    /// The id of this number.
    fn numbered(number: u32) -> Self
        ensures { result ≡ id_of number };

    /// The id's number.
    fn number(self) -> u32
        ensures { result ≡ number_of self };
}

/// Ids of which no two numbers have one.
pub trait Distinct: Numbered {
    /// The number comes back.
    ghost number_of_id: { (n : ℕ) → Self.Numbered.number_of (Self.Numbered.id_of n) ≡ n };
}

impl<Tag> Numbered for DenseId<Tag> {
    ghost number_of = { λ id. id };

    ghost id_of = { λ n. n };

    fn numbered(number: u32) -> DenseId<Tag> {
        DenseId::from_raw(number)
    }

    fn number(self) -> u32 {
        self.into_raw()
    }
}

impl<Tag> Distinct for DenseId<Tag> {
    ghost number_of_id = { λ n. refl };
}

/// How far ids of 16 bits lie apart. Each number below 2^16 has one.
const APART: u16 = 20011;

/// What takes a number times [`APART`] back, where numbers have 16 bits.
const BACK: u16 = 131;

impl<Tag> Numbered for SparseId<Tag, u16> {
    ghost number_of = { λ id. (id * 131) % 2 ^ 16 };

    ghost id_of = { λ n. ((n % 2 ^ 16) * 20011) % 2 ^ 16 };

    fn numbered(number: u32) -> SparseId<Tag, u16> {
        SparseId::from_raw(((number % 65536) as u16).wrapping_mul(APART))
    }

    fn number(self) -> u32 {
        u32::from(self.into_raw().wrapping_mul(BACK))
    }
}

/// How far ids of 64 bits lie apart.
const FAR_APART: u64 = (1 << 32) + 1;

impl<Tag> Numbered for SparseId<Tag, u64> {
    ghost number_of = { λ id. id / 4294967297 };

    ghost id_of = { λ n. n * 4294967297 };

    fn numbered(number: u32) -> SparseId<Tag, u64> {
        SparseId::from_raw(u64::from(number) * FAR_APART)
    }

    fn number(self) -> u32 {
        (self.into_raw() / FAR_APART) as u32
    }
}

impl<Tag> Distinct for SparseId<Tag, u64> {
    ghost use Rattle.std.proofs.Math.Nat.{mul-div_cancel, zero-lt-suc};

    ghost number_of_id = { λ n. mul-div_cancel n (zero-lt-suc 4294967296) };
}
