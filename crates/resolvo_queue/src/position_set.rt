//! Sets of positions, in the order of the scan.
ghost use Rattle.std.specs.Prelude.{◌≡◌, ◌<◌, false, true, length, if◌then◌else◌, Some, None, MatchOption, IfSome};
ghost use Rattle.std.specs.Prelude.{OnOk, OnErr, IfErr};
ghost use Rattle.typed_ids.specs.declared.error.StoreError.TheVariants.{OutOfMemory};

use crate::tracked_clause::Position;
use std::alloc::Allocator;
use std::collections::BTreeSet;
use std::marker::Model;
use std::ops::Bound;
use typed_ids::StoreError;

/// A set of positions. A contract sees them in ascending order.
#[derive(Drop)]
pub(crate) struct PositionSet<A: Allocator + Copy> {
    positions: BTreeSet<Position, A>,
}

impl<A: Allocator + Copy> Model for PositionSet<A> {
    ghost use Rattle.std.specs.Prelude.{List};
    ghost use Rattle.resolvo_queue.specs.declared.tracked_clause.Position.{Position};

    ghost Value = { List Position };

    ghost view = { λ s. s.positions.keys };
}

impl<A: Allocator + Copy> PositionSet<A> {
    ghost use Rattle.std.specs.Prelude.{List};
    ghost use Rattle.resolvo_queue.specs.Scan.Positions.{IsNextBehind, has, IsBefore, is_after, same_position};
    ghost use Rattle.resolvo_queue.specs.declared.tracked_clause.Position.{Position};

    /// The empty set. Takes no memory.
    pub(crate) fn new(alloc: A) -> Self
        ensures { (p : Position) → has result p ≡ false }
    {
        PositionSet {
            positions: BTreeSet::new(alloc),
        }
    }

    /// Whether the position is in the set.
    pub(crate) fn contains(&self, position: Position) -> bool
        ensures { result ≡ has self.now position }
    {
        self.positions.contains(&position)
    }

    /// Adds a position. One that is there already takes no memory.
    pub(crate) fn insert(&mut self, position: Position) -> Result<(), StoreError>
        ensures ok { OnOk result ((p : Position) →
            has self.new p ≡ (if same_position position p then true else has self.old p)) }
        ensures err { OnErr result ((p : Position) → has self.new p ≡ has self.old p) }
        ensures memory { IfErr result (λ e. e ≡ OutOfMemory) }
    {
        match self.positions.insert(position) {
            Ok(_) => Ok(()),
            Err(_) => Err(StoreError::OutOfMemory),
        }
    }

    /// Takes a position out. Takes no memory.
    pub(crate) fn remove(&mut self, position: Position)
        ensures fewer { has self.old position ≡ true → length self.new < length self.old }
        ensures gone { (p : Position) → has self.new p ≡ (if same_position position p then false else has self.old p) }
    {
        self.positions.remove(&position);
    }

    /// The first position.
    pub(crate) fn first(&self) -> Option<Position>
        ensures none { MatchOption result ((p : Position) → has self.now p ≡ false) (λ f. has self.now f ≡ true) }
        ensures least { IfSome result (λ f. (p : Position) → has self.now p ≡ true → is_after f p ≡ false) }
    {
        match self.positions.first() {
            Some(first) => Some(*first),
            None => None,
        }
    }

    /// The first position that isn't before another one.
    pub(crate) fn first_from(&self, position: Position) -> Option<Position>
        ensures none { MatchOption result ((p : Position) → is_after position p ≡ false → has self.now p ≡ false)
            (λ f. has self.now f ≡ true) }
        ensures from { IfSome result (λ f. is_after position f ≡ false) }
        ensures least { IfSome result (λ f. (p : Position) → has self.now p ≡ true → is_after position p ≡ false →
            is_after f p ≡ false) }
    {
        let mut from = self
            .positions
            .range((Bound::Included(position), Bound::Unbounded));
        match from.next() {
            Some(first) => Some(*first),
            None => None,
        }
    }

    /// The first position behind another one, and the first behind that.
    pub(crate) fn two_behind(&self, position: Position) -> (Option<Position>, Option<Position>)
        ensures none { MatchOption result.0 ((p : Position) → IsBefore position p → has self.now p ≡ false)
            (λ f. has self.now f ≡ true) }
        ensures behind { IfSome result.0 (λ f. IsBefore position f) }
        ensures least { IfSome result.0 (λ f. (p : Position) → has self.now p ≡ true → IsBefore position p →
            is_after f p ≡ false) }
        ensures next { IfSome result.0 (λ f. IfSome result.1 (λ g. IsNextBehind self.now f g)) }
    {
        let mut behind = self
            .positions
            .range((Bound::Excluded(position), Bound::Unbounded));
        match behind.next() {
            Some(first) => match behind.next() {
                Some(second) => (Some(*first), Some(*second)),
                None => (Some(*first), None),
            },
            None => (None, None),
        }
    }
}
