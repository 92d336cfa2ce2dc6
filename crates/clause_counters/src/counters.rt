//! Clauses of groups of literals, and which of them is falsified first.
ghost use Rattle.std.specs.Prelude.{◌≡◌, ◌<◌, ◌≤◌, ◌+◌, Bool, true, false, length, map};
ghost use Rattle.std.specs.Prelude.{IfOk, OnOk, OnErr, IfErr, IsTrue};
ghost use Rattle.std.specs.List.{All};
ghost use Rattle.typed_ids.specs.declared.error.StoreError.TheVariants.{OutOfMemory};
ghost use Rattle.decisions.specs.Decisions.{values_in};
ghost use Rattle.decisions.specs.Literals.{Lit, is_false_literal};
ghost use Rattle.clause_counters.specs.CounterState.{with_flag, IsSameButRoom};
ghost use Rattle.clause_counters.specs.GroupedClauses.{GroupedClauses, Represents, StillRepresents};
ghost use Rattle.clause_counters.specs.GroupedClauses.{empty, AddsGroup, AddsClause, row_literals};
ghost use Rattle.clause_counters.specs.GroupedClauses.{with_false, with_undecided, IsFirstFalsified};

use crate::adding::{count_open, join_groups, pad, place_literals};
use crate::falsified_heap::FalsifiedHeap;
use crate::groups::{Group, Standing};
use crate::links::{ID_LIMIT, Link};
use crate::rows::positive_literals;
use crate::walks::{lower_groups, raise_groups};
use decisions::{DecisionMap, Literal};
use std::alloc::Allocator;
use std::marker::Model;
use typed_ids::{DenseIndex, StoreError, VariableId};

/// A clause has at most this many groups.
const MOST_GROUPS: usize = 3;

/// Clauses of groups of literals, counted as literals become false and undecided.
#[derive(Drop)]
pub struct ClauseCounters<A: Allocator + Copy> {
    alloc: A,
    /// By the index of a literal: whether it is false, and its list of places.
    literals: Vec<Standing, A>,
    /// The lists of the groups in which literals stand.
    places: Vec<Link, A>,
    groups: Vec<Group, A>,
    /// The lists of the clauses that have groups.
    members: Vec<Link, A>,
    falsified: FalsifiedHeap<A>,
}

/// What is kept: contracts say what it shows.
impl<A: Allocator + Copy> Model for ClauseCounters<A> {
    ghost use Rattle.std.specs.Prelude.{◌≡◌, ◌&&◌, length, vec_capacity};
    ghost use Rattle.clause_counters.specs.Counted.{CountsPlaces, CountsMembers};
    ghost use Rattle.clause_counters.specs.CounterState.{CounterState, counters_in, fit_three};

    ghost Value = { CounterState };

    ghost view = { λ f. counters_in f.places.items f.literals.items f.members.items f.groups.items f.falsified.firsts
        (f.falsified.has_room && fit_three (length f.members.items) (vec_capacity f.members)) };

    ghost invariant = { λ f. CountsPlaces f.places.items f.literals.items f.groups.items
        × CountsMembers f.members.items f.groups.items f.falsified.lefts
        × (length f.falsified.lefts ≡ length f.falsified.firsts) };
}

impl<A: Allocator + Copy> ClauseCounters<A> {
    /// No group and no clause. Takes no memory.
    pub fn new(alloc: A) -> Self
        ensures { (is_false : Lit → Bool) → Represents result (empty is_false) }
    {
        ClauseCounters {
            alloc,
            literals: Vec::new(alloc),
            places: Vec::new(alloc),
            groups: Vec::new(alloc),
            members: Vec::new(alloc),
            falsified: FalsifiedHeap::new(alloc),
        }
    }

    /// Adds the group of these literals, of which the values make some false, and answers its number: groups are
    /// numbered from 0 in the order in which they come.
    ///
    /// # Errors
    ///
    /// `OutOfMemory`, also if there would be more than 2^32 - 1 groups, or more than 2^32 - 2 places if each literal of
    /// the list got one.
    pub fn add_group(
        &mut self,
        literals: &[Literal],
        values: &DecisionMap<A>,
    ) -> Result<u32, StoreError>
        ensures ok { IfOk result (λ group.
            AddsGroup self.old literals.now (is_false_literal (values_in values.now)) group self.new) }
        ensures number { IfOk result (λ group. group ≡ length self.old.groups) }
        ensures groups { OnOk result (length self.new.groups ≡ length self.old.groups + 1) }
        ensures err { OnErr result (self.new ≡ self.old) }
        ensures memory { IfErr result (λ e. e ≡ OutOfMemory) }
    {
        let group = self.groups.len();
        if group >= ID_LIMIT {
            return Err(StoreError::OutOfMemory);
        }
        if self.places.len() + literals.len() >= ID_LIMIT {
            return Err(StoreError::OutOfMemory);
        }
        self.places.reserve(literals.len())?;
        self.groups.reserve(1)?;
        pad(&mut self.literals, literals)?;
        let left = place_literals(
            &mut self.literals,
            &mut self.places,
            literals,
            values,
            group as u32,
        );
        self.groups.push_reserved(Group { left, clauses: 0 });
        Ok(group as u32)
    }

    /// Adds the group of the positive literals of all variables of the lists, as [`Self::add_group`] does. The literals
    /// take memory until it returns.
    pub fn add_row_group(
        &mut self,
        lists: &[Vec<VariableId, A>],
        values: &DecisionMap<A>,
    ) -> Result<u32, StoreError>
        ensures ok { let literals = row_literals (map (λ l. l.items) lists.now) in IfOk result (λ group.
            AddsGroup self.old literals (is_false_literal (values_in values.now)) group self.new) }
        ensures number { IfOk result (λ group. group ≡ length self.old.groups) }
        ensures groups { OnOk result (length self.new.groups ≡ length self.old.groups + 1) }
        ensures err { OnErr result (self.new ≡ self.old) }
        ensures memory { IfErr result (λ e. e ≡ OutOfMemory) }
    {
        let literals = positive_literals(self.alloc, lists)?;
        self.add_group(&literals, values)
    }

    /// How many groups there are: each number of a group is below it.
    pub fn group_count(&self) -> usize
        ensures { result ≡ length self.now.groups }
    {
        self.groups.len()
    }

    /// Makes room for one clause more, of at most three groups.
    ///
    /// # Errors
    ///
    /// `OutOfMemory`, also if there would be more than 2^32 - 1 clauses, or more than 2^32 - 1 members of groups if the
    /// clause had three.
    pub fn make_room(&mut self) -> Result<(), StoreError>
        ensures room { OnOk result (IsTrue self.new.has_room) }
        ensures represents { StillRepresents self.old self.new }
        ensures groups { length self.new.groups ≡ length self.old.groups }
        ensures clauses { length self.new.firsts ≡ length self.old.firsts }
        ensures memory { IfErr result (λ e. e ≡ OutOfMemory) }
    {
        if self.members.len() + MOST_GROUPS > ID_LIMIT {
            return Err(StoreError::OutOfMemory);
        }
        self.members.reserve(MOST_GROUPS)?;
        self.falsified.make_room()
    }

    /// Adds the clause of these groups, whose parent has this first clause, and answers its number: clauses are
    /// numbered from 0 in the order in which they come. Takes no memory: [`Self::make_room`] takes it before.
    pub fn add_clause(&mut self, groups: &[u32], first_of_parent: u32) -> u32
        requires room { IsTrue self.old.has_room }
        requires known { All (λ g. g < length self.old.groups) groups.now }
        requires few { length groups.now ≤ 3 }
        ensures represents { AddsClause self.old groups.now first_of_parent result self.new }
        ensures number { result ≡ length self.old.firsts }
        ensures groups { length self.new.groups ≡ length self.old.groups }
        ensures clauses { length self.new.firsts ≡ length self.old.firsts + 1 }
    {
        let left = count_open(&self.groups, groups);
        let clause = self.falsified.add(first_of_parent, left);
        join_groups(&mut self.groups, &mut self.members, groups, clause);
        clause
    }

    /// A literal becomes false: of one that is false nothing changes. Takes no memory.
    pub fn make_false(&mut self, literal: Literal)
        ensures represents { (s : GroupedClauses) → Represents self.old s →
            Represents self.new (with_false literal s) }
        ensures groups { length self.new.groups ≡ length self.old.groups }
    {
        self.close(literal.to_index());
    }

    /// A literal becomes undecided: of one that isn't false nothing changes. Takes no memory.
    pub fn make_undecided(&mut self, literal: Literal)
        ensures represents { (s : GroupedClauses) → Represents self.old s →
            Represents self.new (with_undecided literal s) }
        ensures groups { length self.new.groups ≡ length self.old.groups }
    {
        self.reopen(literal.to_index());
    }

    /// The number of the falsified clause that comes first, `None` if no clause is falsified. Takes no memory.
    pub fn first(&mut self) -> Option<u32>
        ensures represents { StillRepresents self.old self.new }
        ensures first { (s : GroupedClauses) → Represents self.old s → IsFirstFalsified s result }
        ensures groups { length self.new.groups ≡ length self.old.groups }
    {
        self.falsified.first()
    }

    /// The literal with this index becomes false.
    fn close(&mut self, index: usize)
        ensures { IsSameButRoom (with_flag true index self.old) self.new }
    {
        if index >= self.literals.len() {
            return;
        }
        let at = self.literals[index];
        if at.is_false {
            return;
        }
        self.literals[index].is_false = true;
        if at.groups == 0 {
            return;
        }
        lower_groups(
            &mut self.groups,
            &self.members,
            &mut self.falsified,
            &self.places,
            at.groups,
        );
    }

    /// The literal with this index becomes undecided.
    fn reopen(&mut self, index: usize)
        ensures { IsSameButRoom (with_flag false index self.old) self.new }
    {
        if index >= self.literals.len() {
            return;
        }
        let at = self.literals[index];
        if !at.is_false {
            return;
        }
        self.literals[index].is_false = false;
        if at.groups == 0 {
            return;
        }
        raise_groups(
            &mut self.groups,
            &self.members,
            &mut self.falsified,
            &self.places,
            at.groups,
        );
    }
}
