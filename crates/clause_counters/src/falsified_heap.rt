//! Clauses, how many of their groups aren't false, and the falsified ones in the order of their positions.
ghost use Rattle.std.specs.Prelude.{◌≡◌, ◌<◌, ◌≤◌, ◌+◌, ◌-◌, ◌++◌, ◌∷◌, [], length, slice_index, slice_set};
ghost use Rattle.std.specs.Prelude.{true, false, IsTrue, OnOk, IfErr, IfSome, IfNone, vec_len};
ghost use Rattle.std.specs.BinaryHeap.{heap_items, heap_capacity, heap_len};
ghost use Rattle.typed_ids.specs.declared.error.StoreError.TheVariants.{OutOfMemory};
ghost use Rattle.clause_counters.specs.FalsifiedHeap.{IsHeld, IsFalsifiedHeap, IsFirst, IsTop};
ghost use Rattle.clause_counters.specs.FalsifiedHeap.{heap_clause, lefts_of, firsts_of, with_mark, tallied};

use crate::links::ID_LIMIT;
use crate::position::Position;
use std::alloc::Allocator;
use std::cmp::Reverse;
use std::collections::BinaryHeap;
use std::marker::Model;
use typed_ids::StoreError;

/// What is known of a clause here: its groups are known to others.
#[derive(Clone, Copy, Debug, PartialEq, Eq)]
struct Clause {
    /// The number of the first clause that has the same parent.
    first_of_parent: u32,
    /// How many of its groups aren't false.
    left: u8,
    /// Whether it is in the heap.
    is_in_heap: bool,
}

/// Clauses with the number of their groups that aren't false.
#[derive(Drop)]
pub(crate) struct FalsifiedHeap<A: Allocator + Copy> {
    clauses: Vec<Clause, A>,
    heap: BinaryHeap<Reverse<Position>, A>,
}

impl<A: Allocator + Copy> Model for FalsifiedHeap<A> {
    ghost use Rattle.std.specs.Prelude.{vec_capacity};
    ghost use Rattle.std.specs.BinaryHeap.{heap_items, heap_capacity};
    ghost use Rattle.clause_counters.specs.FalsifiedHeap.{Tallies, tallies_of, IsFalsifiedHeap};

    ghost Value = { Tallies };

    ghost view = { λ q. tallies_of q.clauses.items (vec_capacity q.clauses) (heap_capacity q.heap) };

    ghost invariant = { λ q. IsFalsifiedHeap q.clauses.items (heap_items q.heap) (heap_capacity q.heap) };
}

impl<A: Allocator + Copy> FalsifiedHeap<A> {
    /// No clause. Takes no memory.
    pub(crate) fn new(alloc: A) -> Self
        ensures lefts { result.lefts ≡ [] }
        ensures firsts { result.firsts ≡ [] }
    {
        FalsifiedHeap {
            clauses: Vec::new(alloc),
            heap: BinaryHeap::new(alloc),
        }
    }

    /// Makes room for a clause more, in the heap too.
    pub(crate) fn make_room(&mut self) -> Result<(), StoreError>
        ensures room { OnOk result (IsTrue self.new.has_room) }
        ensures lefts { self.new.lefts ≡ self.old.lefts }
        ensures firsts { self.new.firsts ≡ self.old.firsts }
        ensures memory { IfErr result (λ e. e ≡ OutOfMemory) }
    {
        let len = self.clauses.len();
        if len >= ID_LIMIT {
            return Err(StoreError::OutOfMemory);
        }
        self.clauses.reserve(1)?;
        self.heap.reserve(len - self.heap.len() + 1)?;
        Ok(())
    }

    /// Appends a clause whose parent has this first clause, and of which this many groups aren't false. Answers its
    /// number.
    pub(crate) fn add(&mut self, first_of_parent: u32, left: u8) -> u32
        requires { IsTrue self.old.has_room }
        ensures number { result ≡ length self.old.lefts }
        ensures lefts { self.new.lefts ≡ self.old.lefts ++ left ∷ [] }
        ensures firsts { self.new.firsts ≡ self.old.firsts ++ first_of_parent ∷ [] }
    {
        let clause = self.clauses.len() as u32;
        self.clauses.push_reserved(Clause {
            first_of_parent,
            left,
            is_in_heap: false,
        });
        if left == 0 {
            insert_entry(&mut self.clauses, &mut self.heap, clause);
        }
        clause
    }

    /// One group more of the clause is false; with the last one the clause is falsified and goes into the heap.
    pub(crate) fn lower(&mut self, clause: u32)
        requires { 1 ≤ slice_index self.old.lefts clause }
        ensures lefts { self.new.lefts ≡ slice_set self.old.lefts clause (slice_index self.old.lefts clause - 1) }
        ensures firsts { self.new.firsts ≡ self.old.firsts }
    {
        let at = self.clauses[clause as usize];
        tally(&mut self.clauses, clause, at.left - 1);
        if at.left == 1 && !at.is_in_heap {
            insert_entry(&mut self.clauses, &mut self.heap, clause);
        }
    }

    /// One group fewer of the clause is false. The heap stays as it is.
    pub(crate) fn raise(&mut self, clause: u32)
        requires within { clause < length self.old.lefts }
        requires few { slice_index self.old.lefts clause < 255 }
        ensures lefts { self.new.lefts ≡ slice_set self.old.lefts clause (slice_index self.old.lefts clause + 1) }
        ensures firsts { self.new.firsts ≡ self.old.firsts }
    {
        let left = self.clauses[clause as usize].left;
        tally(&mut self.clauses, clause, left + 1);
    }

    /// The falsified clause with the least position. Takes stale entries from the top of the heap.
    pub(crate) fn first(&mut self) -> Option<u32>
        ensures lefts { self.new.lefts ≡ self.old.lefts }
        ensures firsts { self.new.firsts ≡ self.old.firsts }
        ensures first { IsFirst self.old.lefts self.old.firsts result }
    {
        settle(&mut self.clauses, &mut self.heap)
    }
}

/// Writes how many groups of the clause aren't false.
fn tally<A: Allocator + Copy>(clauses: &mut Vec<Clause, A>, clause: u32, left: u8)
    requires { clause < vec_len clauses.old }
    ensures items { clauses.new.items ≡ tallied left clause clauses.old.items }
    ensures len { vec_len clauses.new ≡ vec_len clauses.old }
{
    clauses[clause as usize].left = left;
}

/// Puts a clause into the heap. It isn't there yet, so there is room.
fn insert_entry<A: Allocator + Copy>(
    clauses: &mut Vec<Clause, A>,
    heap: &mut BinaryHeap<Reverse<Position>, A>,
    clause: u32,
)
    requires held { IsHeld clauses.old.items (heap_items heap.old) (heap_capacity heap.old) }
    requires within { clause < vec_len clauses.old }
    requires absent { (heap_clause clauses.old.items clause).is_in_heap ≡ false }
    ensures held { IsHeld clauses.new.items (heap_items heap.new) (heap_capacity heap.new) }
    ensures marked { clauses.new.items ≡ with_mark true clause clauses.old.items }
{
    let at = &mut clauses[clause as usize];
    at.is_in_heap = true;
    let first_of_parent = at.first_of_parent;
    let _ = heap.push(Reverse(Position {
        first_of_parent,
        number: clause,
    }));
}

/// Takes the top, which is this entry, out of the heap.
fn remove_top<A: Allocator + Copy>(
    clauses: &mut Vec<Clause, A>,
    heap: &mut BinaryHeap<Reverse<Position>, A>,
    top: Position,
)
    requires held { IsHeld clauses.old.items (heap_items heap.old) (heap_capacity heap.old) }
    requires top { IsTop (heap_items heap.old) top }
    ensures held { IsHeld clauses.new.items (heap_items heap.new) (heap_capacity heap.new) }
    ensures marked { clauses.new.items ≡ with_mark false top.number clauses.old.items }
    ensures len { heap_len heap.new + 1 ≡ heap_len heap.old }
{
    let _ = heap.pop();
    clauses[top.number as usize].is_in_heap = false;
}

/// Takes entries of clauses that aren't falsified from the top of the heap, and answers the clause that is then there.
fn settle<A: Allocator + Copy>(
    clauses: &mut Vec<Clause, A>,
    heap: &mut BinaryHeap<Reverse<Position>, A>,
) -> Option<u32>
    requires { IsFalsifiedHeap clauses.old.items (heap_items heap.old) (heap_capacity heap.old) }
    ensures falsified { IsFalsifiedHeap clauses.new.items (heap_items heap.new) (heap_capacity heap.new) }
    ensures lefts { lefts_of clauses.new.items ≡ lefts_of clauses.old.items }
    ensures firsts { firsts_of clauses.new.items ≡ firsts_of clauses.old.items }
    ensures first { IsFirst (lefts_of clauses.old.items) (firsts_of clauses.old.items) result }
{
    while let Some(top) = top_of(heap) {
        if clauses[top.number as usize].left == 0 {
            return Some(top.number);
        }
        remove_top(clauses, heap, top);
    }
    None
}

/// The entry on top of the heap.
fn top_of<A: Allocator + Copy>(heap: &BinaryHeap<Reverse<Position>, A>) -> Option<Position>
    ensures some { IfSome result (λ top. IsTop (heap_items heap.now) top) }
    ensures none { IfNone result (heap_items heap.now ≡ []) }
{
    match heap.peek() {
        Some(top) => Some(top.0),
        None => None,
    }
}
