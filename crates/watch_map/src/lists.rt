//! For each literal the list of the clauses that watch it.
ghost use Rattle.std.specs.Prelude.{◌≡◌, ℕ, false, List, [], ◌∷◌, length, Some, OnOk, OnErr, IfOk, IfErr, IsOk, IfSome};
ghost use Rattle.std.specs.Option.{ForSome};
ghost use Rattle.typed_ids.specs.declared.error.StoreError.TheVariants.{OutOfMemory};
ghost use Rattle.typed_ids.specs.TotalMaps.{IsUpdate};
ghost use Rattle.decisions.specs.Literals.{Lit};
ghost use Rattle.decisions.specs.LiteralIndex.{literal_index};
ghost use Rattle.clauses.specs.Clauses.{same_literal};
ghost use Rattle.id_storage.specs.Mapping.{value_at};
ghost use Rattle.watch_map.specs.Watching.{AreTwo, IsListCount};
ghost use Rattle.watch_map.specs.WatchLists.{Watches, watchers, record_of, next_at};
ghost use Rattle.watch_map.specs.WatchLists.{HasRoom, AreWatched, CanBeLinked, IsRelinked};
ghost use Rattle.watch_map.specs.WatchCalls.{SameLists, Starts, KeepsRoom, UsesRoom, HaveRoom, StandsBehind, remaining};

use crate::cursor::WatchMapCursor;
use crate::next_clause::NextClause;
use crate::nodes::{Place, next_of, set_next};
use crate::watched_literals::WatchedLiterals;
use decisions::Literal;
use id_storage::Mapping;
use std::alloc::Allocator;
use std::marker::Model;
use typed_ids::{ClauseId, StoreError};

/// For each literal the list of the clauses that watch it, the newest first.
///
/// The literals that a clause watches stand in its record, and the records of all clauses in a slice, by the clauses'
/// indexes; a clause without watches has none. Map and slice belong together: a contract says so by `AreWatched`, and
/// each call keeps it.
///
/// The map has the first clause of each list, and each clause's record the next one. So a list takes no memory but a
/// slot, from its literal's first clause or room on, and none is given back.
#[derive(Drop)]
pub struct WatchMap<A: Allocator + Copy> {
    firsts: Mapping<Literal, ClauseId, A>,
}

/// The first clause of each literal that has one, by the literals' indexes.
impl<A: Allocator + Copy> Model for WatchMap<A> {
    ghost use Rattle.watch_map.specs.WatchLists.{WatchLists};

    ghost Value = { WatchLists };

    ghost view = { λ m. m.firsts };
}

impl<A: Allocator + Copy> WatchMap<A> {
    /// The map in which no literal is watched. Takes memory for the slots of the first literals.
    pub fn new(alloc: A) -> Result<Self, StoreError>
        ensures watched { IfOk result (λ map. AreWatched map []) }
        ensures empty { IfOk result (λ map. (watches : Watches) (l : _) → watchers map watches l ≡ []) }
        ensures memory { IfErr result (λ e. e ≡ OutOfMemory) }
    {
        Ok(WatchMap {
            firsts: Mapping::new(alloc)?,
        })
    }

    /// How many literals are watched. Constant time.
    pub fn len(&self) -> usize
        ensures { (watches : Watches) → AreWatched self.now watches → IsListCount (watchers self.now watches) result }
    {
        self.firsts.len()
    }

    /// Makes room for one more clause in a literal's list, so that its next addition takes no memory. Room that is
    /// there is kept.
    pub fn make_room(&mut self, literal: Literal) -> Result<(), StoreError>
        ensures lists { SameLists self.old self.new }
        ensures rooms { KeepsRoom self.old self.new }
        ensures room { OnOk result (HasRoom self.new literal 1) }
        ensures succeeds { HasRoom self.old literal 1 → IsOk result }
        ensures memory { IfErr result (λ e. e ≡ OutOfMemory) }
    {
        self.make_room_many(literal, 1)
    }

    /// Makes room for a number of clauses more in a literal's list, so that its next additions up to that number take
    /// no memory. Room that is there is kept. Constant time, whatever the number.
    pub fn make_room_many(&mut self, literal: Literal, additions: usize) -> Result<(), StoreError>
        ensures lists { SameLists self.old self.new }
        ensures rooms { KeepsRoom self.old self.new }
        ensures room { OnOk result (HasRoom self.new literal additions) }
        ensures succeeds { HasRoom self.old literal additions → IsOk result }
        ensures memory { IfErr result (λ e. e ≡ OutOfMemory) }
    {
        // a slot serves any number
        let _ = additions;
        self.firsts.make_room(literal)
    }

    /// Puts a clause at the front of the lists of the two literals that its record names. It stands in no list before,
    /// and its record, in which it writes what comes next, belongs at its id from then on. Constant time.
    pub fn start_watching(
        &mut self,
        clause: &mut WatchedLiterals,
        clause_id: ClauseId,
    ) -> Result<(), StoreError>
        requires { AreTwo clause.old.watched_literals }
        ensures literals { clause.new.watched_literals ≡ clause.old.watched_literals }
        ensures ok { OnOk result (Starts self.old clause.new clause_id self.new) }
        ensures err { OnErr result (SameLists self.old self.new) }
        ensures err_record { OnErr result (clause.new ≡ clause.old) }
        ensures ok_rooms { OnOk result (UsesRoom clause.old.watched_literals self.old self.new) }
        ensures err_rooms { OnErr result (KeepsRoom self.old self.new) }
        ensures succeeds { HaveRoom self.old clause.old.watched_literals → IsOk result }
        ensures memory { IfErr result (λ e. e ≡ OutOfMemory) }
    {
        let [first, second] = clause.watched_literals;
        self.make_room(first)?;
        self.make_room(second)?;
        *clause = self.started(first, second, clause_id);
        Ok(())
    }

    /// Puts a clause at the front of the lists of two literals, in which there is room. It stands in no list before,
    /// and the record that it answers belongs at its id from then on. Takes no memory.
    pub(crate) fn started(
        &mut self,
        first: Literal,
        second: Literal,
        clause_id: ClauseId,
    ) -> WatchedLiterals
        requires two { same_literal first second ≡ false }
        requires room_first { HasRoom self.old first 1 }
        requires room_second { HasRoom self.old second 1 }
        ensures literals { result.watched_literals ≡ first ∷ second ∷ [] }
        ensures starts { Starts self.old result clause_id self.new }
        ensures rooms { (literals : List Lit) → UsesRoom literals self.old self.new }
    {
        let next_of_first = self.put_first(first, clause_id);
        let next_of_second = self.put_first(second, clause_id);
        WatchedLiterals {
            watched_literals: [first, second],
            next_watches: [
                NextClause::new(next_of_first),
                NextClause::new(next_of_second),
            ],
        }
    }

    /// The position at the front of the literal's list, `None` where nothing watches it. Takes no memory.
    pub fn cursor(
        &self,
        watches: &[Option<WatchedLiterals>],
        literal: Literal,
    ) -> Option<WatchMapCursor>
        requires { AreWatched self.now watches.now }
        ensures list { remaining result self.now watches.now ≡ watchers self.now watches.now literal }
        ensures stands { IfSome result (StandsBehind [] literal self.now watches.now) }
    {
        WatchMapCursor::at_clause(watches, literal, None, self.first(literal))
    }

    /// The first of a literal's clauses.
    pub(crate) fn first(&self, literal: Literal) -> Option<ClauseId>
        ensures { result ≡ value_at self.now (literal_index literal) }
    {
        self.firsts.get(literal).copied()
    }

    /// Makes a clause the first of a literal's, where there is room. Answers the one that was the first.
    pub(crate) fn put_first(&mut self, literal: Literal, clause_id: ClauseId) -> Option<ClauseId>
        requires { HasRoom self.old literal 1 }
        ensures earlier { result ≡ value_at self.old (literal_index literal) }
        ensures first { IsUpdate (value_at self.old) (literal_index literal) (Some clause_id) (value_at self.new) }
        ensures slots { length self.new ≡ length self.old }
    {
        match self.firsts.insert(literal, clause_id) {
            Ok(earlier) => earlier,
            Err(_) => unreachable!(),
        }
    }

    /// Makes `next` the first of a literal's clauses, which has some.
    fn set_first(&mut self, literal: Literal, next: Option<ClauseId>)
        requires { HasRoom self.old literal 1 }
        ensures first { IsUpdate (value_at self.old) (literal_index literal) next (value_at self.new) }
        ensures slots { length self.new ≡ length self.old }
    {
        match next {
            Some(clause_id) => {
                self.put_first(literal, clause_id);
            }
            None => {
                self.firsts.unset(literal);
            }
        }
    }

    /// Takes the clause at this place out of the list: the next one follows the node in front, or comes first where
    /// there is no such node.
    pub(crate) fn unlink(&mut self, watches: &mut [Option<WatchedLiterals>], place: &Place)
        requires room { HasRoom self.old place.now.literal 1 }
        requires node { CanBeLinked place.now.current (record_of watches.old place.now.current.clause_id) }
        requires previous { ForSome place.now.previous (λ node.
            CanBeLinked node (record_of watches.old node.clause_id)) }
        ensures { IsRelinked place.now.previous place.now.literal
            (next_at (record_of watches.old place.now.current.clause_id) place.now.current.watch_index)
            self.old watches.old self.new watches.new }
    {
        let next = next_of(watches, &place.current);
        match &place.previous {
            Some(node) => set_next(watches, node, next),
            None => self.set_first(place.literal, next),
        }
    }
}
