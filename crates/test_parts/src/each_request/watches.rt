//! Watch lists and the records of all clauses, kept together as a store keeps them.
ghost use Rattle.std.specs.Prelude.{◌≡◌, ◌==◌, false};
ghost use Rattle.decisions.specs.Literals.{Pos};
ghost use Rattle.watch_map.specs.WatchLists.{AreWatched};

use crate::each_request::takes_none;
use decisions::Literal;
use std::alloc::Allocator;
use std::marker::Model;
use test_support::Refusing;
use typed_ids::{ClauseId, DenseIndex, StoreError, VariableId};
use watch_map::{WatchMap, WatchedLiterals};

/// Clauses that watch the positive literals of two variables each. They count up from 0.
#[derive(Drop)]
struct WatchedClauses<A: Allocator + Copy> {
    map: WatchMap<A>,
    watches: Vec<Option<WatchedLiterals>, A>,
}

/// The lists and the records, which belong to them.
impl<A: Allocator + Copy> Model for WatchedClauses<A> {
    ghost use Rattle.watch_map.specs.WatchLists.{WatchLists, Watches, AreWatched};

    ghost Value = { WatchLists × Watches };

    ghost view = { λ c. (c.map, c.watches.items) };

    ghost invariant = { λ c. AreWatched c.map c.watches.items };
}

impl<A: Allocator + Copy> WatchedClauses<A> {
    /// No clauses.
    fn new(alloc: A) -> Result<Self, StoreError> {
        Ok(WatchedClauses {
            map: WatchMap::new(alloc)?,
            watches: Vec::new(alloc),
        })
    }

    /// Adds a clause that watches two different variables.
    fn add(&mut self, first: u16, second: u16) -> Result<(), StoreError>
        requires { (first == second) ≡ false }
    {
        let index = self.watches.len();
        if !ClauseId::in_range(index) {
            return Err(StoreError::IdSpace);
        }
        self.watches.reserve(1)?;
        let clause_id = ClauseId::from_index(index);
        let mut watched = WatchedLiterals::new(positive(first), positive(second));
        self.map.start_watching(&mut watched, clause_id)?;
        self.watches.push_reserved(Some(watched));
        Ok(())
    }

    /// The second clause of a variable's list is to watch another variable in its place.
    fn move_second(&mut self, from: u16, to: u16) -> Result<(), StoreError> {
        let (from, to) = (positive(from), positive(to));
        move_second(&mut self.map, self.watches.as_mut_slice(), from, to)
    }
}

pub(super) fn call_lists<B: Allocator>(heap: &Refusing<B>) -> Result<(), StoreError> {
    let mut clauses = WatchedClauses::new(heap)?;
    let answer = fill_lists(heap, &mut clauses);
    drop(clauses);
    answer
}

/// Variables that lie far apart have no slots for their lists before. A walk to a clause takes no memory, nor does a
/// move to a list for which there is room.
fn fill_lists<A: Allocator + Copy, B: Allocator>(
    heap: &Refusing<B>,
    clauses: &mut WatchedClauses<A>,
) -> Result<(), StoreError> {
    clauses.add(1, 3)?;
    clauses.add(1, 500)?;
    clauses.add(1, 2)?;
    clauses.move_second(1, 1000)?;
    heap.arm(1);
    clauses.move_second(1, 500)?;
    takes_none(heap)
}

/// The second clause of a literal's list is to watch another literal in its place, which it doesn't watch yet.
fn move_second<A: Allocator + Copy>(
    map: &mut WatchMap<A>,
    watches: &mut [Option<WatchedLiterals>],
    from: Literal,
    to: Literal,
) -> Result<(), StoreError>
    requires { AreWatched map.old watches.old }
    ensures { AreWatched map.new watches.new }
{
    let Some(first) = map.cursor(watches, from) else {
        return Err(StoreError::Cancelled);
    };
    let Some(at) = first.next(map, watches) else {
        return Err(StoreError::Cancelled);
    };
    let [one, other] = at.watched_literals(watches).watched_literals;
    if one == to || other == to {
        return Err(StoreError::Cancelled);
    }
    match at.update(map, watches, to) {
        Ok(_) => Ok(()),
        Err(refused) => Err(refused.error),
    }
}

/// The positive literal of a variable.
fn positive(variable: u16) -> Literal
    ensures { result ≡ Pos variable }
{
    Literal::new(VariableId::from_index(usize::from(variable)), false)
}
