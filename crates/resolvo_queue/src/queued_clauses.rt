//! The clauses that may be eligible, and those of them that may replace a first eligible one.
ghost use Rattle.std.specs.Prelude.{◌≡◌, ◌<◌, true, false, length, IfSome, MatchOption, OnOk};
ghost use Rattle.std.specs.Prelude.{OnErr, IfErr};
ghost use Rattle.typed_ids.specs.declared.error.StoreError.TheVariants.{OutOfMemory};

use crate::group::Group;
use crate::position_set::PositionSet;
use crate::tracked_clause::{Position, TrackedClause};
use decisions::DecisionMap;
use std::alloc::Allocator;
use std::marker::Model;
use typed_ids::StoreError;

/// Positions of clauses: of each that may be eligible, and again of each of those that is hot. More may stand in
/// either.
#[derive(Drop)]
pub(crate) struct QueuedClauses<A: Allocator + Copy> {
    all: PositionSet<A>,
    hot: PositionSet<A>,
}

impl<A: Allocator + Copy> Model for QueuedClauses<A> {
    ghost use Rattle.resolvo_queue.specs.Parts.{Queued};

    ghost Value = { Queued };

    ghost view = { λ q. record { all = q.all; hot = q.hot } };
}

impl<A: Allocator + Copy> QueuedClauses<A> {
    ghost use Rattle.resolvo_queue.specs.Parts.{IsQueued, GrowsBy, LosesOnly, is_empty_queue, set_of, heated};
    ghost use Rattle.resolvo_queue.specs.Pick.Groups.{IsNextOf, has_of, is_in};
    ghost use Rattle.resolvo_queue.specs.Scan.Positions.{has, is_after, same_position, IsBefore};
    ghost use Rattle.resolvo_queue.specs.declared.tracked_clause.Position.{Position};

    /// Nothing is queued. Takes no memory.
    pub(crate) fn new(alloc: A) -> Self
        ensures { is_empty_queue result }
    {
        QueuedClauses {
            all: PositionSet::new(alloc),
            hot: PositionSet::new(alloc),
        }
    }

    /// Queues a clause. A refusal may leave it half done, and the clause then counts as not queued.
    pub(crate) fn add(&mut self, clause: &TrackedClause) -> Result<(), StoreError>
        ensures grows { GrowsBy (λ p. same_position clause.now.position p ≡ true) self.old self.new }
        ensures queued { OnOk result (IsQueued self.new clause.now) }
        ensures memory { IfErr result (λ e. e ≡ OutOfMemory) }
    {
        self.all.insert(clause.position)?;
        if clause.is_hot {
            self.hot.insert(clause.position)?;
        }
        Ok(())
    }

    /// Takes a position out. Takes no memory.
    pub(crate) fn remove(&mut self, position: Position)
        ensures loses { LosesOnly position self.old self.new }
        ensures fewer { has self.old.all position ≡ true → length self.new.all < length self.old.all }
    {
        self.all.remove(position);
        self.hot.remove(position);
    }

    /// The first position of a group. Where the root was registered first, its clauses are the first of all.
    pub(crate) fn first_of(&self, group: Group) -> Option<Position>
        ensures none { MatchOption result ((p : Position) → has_of group self.now.all p ≡ false)
            (λ f. has_of group self.now.all f ≡ true) }
        ensures least { IfSome result (λ f. (p : Position) → has_of group self.now.all p ≡ true →
            is_after f p ≡ false) }
    {
        let start = group.start();
        match self.all.first() {
            Some(first) if first.first_of_parent < start.first_of_parent => self.search(group),
            first => group.only(first),
        }
    }

    /// The first position of a group, looked for behind those of other groups.
    fn search(&self, group: Group) -> Option<Position>
        ensures none { MatchOption result ((p : Position) → has_of group self.now.all p ≡ false)
            (λ f. has_of group self.now.all f ≡ true) }
        ensures least { IfSome result (λ f. (p : Position) → has_of group self.now.all p ≡ true →
            is_after f p ≡ false) }
    {
        group.only(self.all.first_from(group.start()))
    }

    /// The first two positions of a group behind another one of it, among the hot ones alone or among all.
    pub(crate) fn two_behind(
        &self,
        only_hot: bool,
        group: Group,
        position: Position,
    ) -> (Option<Position>, Option<Position>)
        requires of { is_in group position ≡ true }
        ensures none { let set = set_of only_hot self.now in
            MatchOption result.0 ((p : Position) → IsBefore position p → has_of group set p ≡ false)
            (λ f. has_of group set f ≡ true) }
        ensures behind { IfSome result.0 (λ f. IsBefore position f) }
        ensures least { let set = set_of only_hot self.now in
            IfSome result.0 (λ f. (p : Position) → has_of group set p ≡ true → IsBefore position p →
            is_after f p ≡ false) }
        ensures next { let set = set_of only_hot self.now in
            IfSome result.0 (λ f. IfSome result.1 (λ g. IsNextOf group set f g)) }
    {
        if only_hot {
            group.only_both(self.hot.two_behind(position))
        } else {
            group.only_both(self.all.two_behind(position))
        }
    }

    /// Makes a clause hot: it stands among the hot ones from now on, if it is queued. Refused, it isn't hot.
    pub(crate) fn heat(&mut self, clause: &mut TrackedClause) -> Result<(), StoreError>
        ensures grows { GrowsBy (λ p. same_position clause.old.position p ≡ true) self.old self.new }
        ensures into { OnOk result (has self.old.all clause.old.position ≡ true →
            has self.new.hot clause.old.position ≡ true) }
        ensures ok { OnOk result (clause.new ≡ heated clause.old) }
        ensures err { OnErr result (clause.new ≡ clause.old) }
        ensures memory { IfErr result (λ e. e ≡ OutOfMemory) }
    {
        if self.all.contains(clause.position) {
            self.hot.insert(clause.position)?;
        }
        clause.is_hot = true;
        Ok(())
    }
}
