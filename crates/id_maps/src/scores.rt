//! Scores, each found by the name of a package.
ghost use Rattle.std.specs.Prelude.{◌≡◌, ◌≤◌, ◌*◌, ◌/◌, IsTrue, IsOk, OnOk, IfErr, Err};
ghost use Rattle.std.specs.Ordering.{nat_cmp};
ghost use Rattle.typed_ids.specs.Refusals.{IsGrowthRefusal};
ghost use Rattle.typed_ids.specs.TotalMaps.{IsLargest};
ghost use Rattle.typed_ids.specs.declared.error.StoreError.TheVariants.{IdSpace};
ghost use Rattle.id_maps.specs.Scores.{bumped, decayed};

use crate::id_map::IdMap;
use crate::solver_id::SolverId;
use std::alloc::Allocator;
use std::marker::Model;
use typed_ids::StoreError;

/// A score for each name, 0 at first, and the largest of them beside.
///
/// A name takes memory from the first room on that is made for it.
#[derive(Drop)]
pub struct Scores<N: SolverId<A>, A: Allocator + Copy> {
    map: N::Scores,
    largest: u64,
}

/// The map from names to scores, and the largest score.
impl<N: SolverId<A>, A: Allocator + Copy> Model for Scores<N, A> {
    ghost use Rattle.std.specs.Ordering.{nat_cmp};
    ghost use Rattle.typed_ids.specs.TotalMaps.{IsLargest};
    ghost use Rattle.id_maps.specs.Scores.{ScoreState};

    ghost Value = { ScoreState N.Scores };

    ghost view = { λ s. record { map = s.map; largest = s.largest } };

    ghost invariant = { λ s. IsLargest nat_cmp 0 (N.Scores.value_at s.map) s.largest };
}

impl<N: SolverId<A>, A: Allocator + Copy> Scores<N, A> {
    /// Each score is 0. Takes no memory.
    pub fn new(alloc: A) -> Self
        ensures { N.Scores.value_at result.map ≡ (λ name. 0) }
    {
        Scores {
            map: <N::Scores as IdMap<N, u64, A>>::new(alloc),
            largest: 0,
        }
    }

    /// The map from names to scores.
    pub fn map(&self) -> &N::Scores
        ensures { result.now ≡ self.now.map }
    {
        &self.map
    }

    /// The score of a name. One look-up.
    pub fn get(&self, name: N) -> u64
        ensures { result ≡ N.Scores.value_at self.now.map name }
    {
        self.map.get(name)
    }

    /// The largest score, in constant time.
    pub fn largest(&self) -> u64
        ensures value { result ≡ self.now.largest }
        ensures largest { IsLargest nat_cmp 0 (N.Scores.value_at self.now.map) result }
    {
        self.largest
    }

    /// Makes room for the score of a name: then [`Scores::bump`] may raise it. No score changes, and room lasts.
    pub fn make_room(&mut self, name: N) -> Result<(), StoreError>
        ensures same { N.Scores.value_at self.new.map ≡ N.Scores.value_at self.old.map }
        ensures room { OnOk result (N.Scores.has_room self.new.map name) }
        ensures succeeds { N.Scores.has_room self.old.map name → IsOk result }
        ensures keeps { (other : N) → N.Scores.has_room self.old.map other → N.Scores.has_room self.new.map other }
        ensures refused { IfErr result (IsGrowthRefusal (N.Scores.is_too_large name)) }
        ensures too_large { IsTrue (N.Scores.is_too_large name) → result ≡ Err IdSpace }
    {
        self.map.make_room(name)
    }

    /// Raises the score of a name, for which there is room, by an amount; it stays at 2^64 - 1 from there on. Takes no
    /// memory; two look-ups.
    pub fn bump(&mut self, name: N, amount: u64)
        requires { N.Scores.has_room self.old.map name }
        ensures bumped { N.Scores.value_at self.new.map ≡ bumped N.eq name amount (N.Scores.value_at self.old.map) }
        ensures keeps { (other : N) → N.Scores.has_room self.old.map other → N.Scores.has_room self.new.map other }
    {
        let score = self.map.get(name).saturating_add(amount);
        self.map.put(name, score);
        self.largest = self.largest.max(score);
    }

    /// Takes each score times a fraction of at most 1, rounded down. Takes no memory; linear in the scores that the map
    /// stores.
    pub fn decay(&mut self, numerator: u64, denominator: u64)
        requires defined { 1 ≤ denominator }
        requires shrinks { numerator ≤ denominator }
        ensures decayed { N.Scores.value_at self.new.map ≡
            decayed numerator denominator (N.Scores.value_at self.old.map) }
        ensures keeps { (other : N) → N.Scores.has_room self.old.map other → N.Scores.has_room self.new.map other }
    {
        self.map.update_all(
            |score: u64| -> u64
                requires { (1 ≤ denominator) × (numerator ≤ denominator) }
                ensures { result ≡ score * numerator / denominator }
            { scaled(score, numerator, denominator) },
        );
        self.largest = scaled(self.largest, numerator, denominator);
    }
}

/// A score times a fraction, rounded down. The product has up to 128 bits.
fn scaled(score: u64, numerator: u64, denominator: u64) -> u64
    requires defined { 1 ≤ denominator }
    requires shrinks { numerator ≤ denominator }
    ensures { result ≡ score * numerator / denominator }
{
    (score as u128 * numerator as u128 / denominator as u128) as u64
}
