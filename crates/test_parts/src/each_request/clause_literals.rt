//! The literals of clauses, and what new ones watch.
use crate::each_request::decided::variable;
use crate::each_request::takes_none;
use clauses::{Clause, Disjunction};
use decisions::{DecisionMap, DecisionTracker, Literal};
use id_storage::Arena;
use providers::{Requirement, RequirementMap};
use std::alloc::Allocator;
use test_support::Refusing;
use typed_ids::{
    ConditionId, DenseIndex, DisjunctionId, LearntClauseId, StoreError, VariableId, VersionSetId,
};
use watch_map::WatchedLiterals;

/// What the clauses refer to: a learnt clause, the lists of one requirement, and a disjunction.
#[derive(Drop)]
struct Shelf<A: Allocator + Copy> {
    learnt: Arena<LearntClauseId, Vec<Literal, A>, A>,
    lists: RequirementMap<Vec<Vec<VariableId, A>, A>, A>,
    disjunctions: Arena<DisjunctionId, Disjunction<A>, A>,
}

pub(super) fn call_shelf<B: Allocator>(heap: &Refusing<B>) -> Result<(), StoreError> {
    call_shelf_in(heap, heap)
}

fn call_shelf_in<A: Allocator + Copy, B: Allocator>(
    heap: &Refusing<B>,
    alloc: A,
) -> Result<(), StoreError> {
    let mut shelf = Shelf {
        learnt: Arena::new(alloc),
        lists: RequirementMap::new(alloc),
        disjunctions: Arena::new(alloc),
    };
    let answer = fill_shelf(heap, alloc, &mut shelf);
    drop(shelf);
    answer
}

fn fill_shelf<A: Allocator + Copy, B: Allocator>(
    heap: &Refusing<B>,
    alloc: A,
    shelf: &mut Shelf<A>,
) -> Result<(), StoreError> {
    let first = Literal::new(variable(1), false);
    let second = Literal::new(variable(2), true);
    shelf.learnt.alloc(list(alloc, &[first, second])?)?;
    let mut lists = Vec::new(alloc);
    lists.push(list(alloc, &[variable(2), variable(3)])?)?;
    shelf.lists.insert(required(), lists)?;
    shelf.disjunctions.alloc(Disjunction {
        literals: list(alloc, &[second])?,
        condition: ConditionId::from_index(0),
    })?;
    list_clauses(heap, alloc, shelf)
}

fn list<T: Copy, A: Allocator + Copy>(alloc: A, values: &[T]) -> Result<Vec<T, A>, StoreError> {
    let mut list = Vec::new(alloc);
    list.extend_from_slice(values)?;
    Ok(list)
}

fn required() -> Requirement {
    Requirement::Single(VersionSetId(0))
}

/// Lists the literals of a clause of each kind of list, and looks for one among them. Clauses that look at values are
/// made where no variable has one.
fn list_clauses<A: Allocator + Copy, B: Allocator>(
    heap: &Refusing<B>,
    alloc: A,
    shelf: &Shelf<A>,
) -> Result<(), StoreError> {
    let disjunction = Some(DisjunctionId::from_index(0));
    let clauses: [Clause<u32>; 2] = [
        Clause::Learnt(LearntClauseId::from_index(0)),
        Clause::Requires(variable(1), disjunction, required()),
    ];
    for clause in &clauses {
        drop(clause.literals(alloc, &shelf.learnt, &shelf.lists, &shelf.disjunctions)?);
    }
    heap.arm(1);
    for clause in &clauses {
        inspect(alloc, shelf, clause);
    }
    make_clauses(alloc);
    takes_none(heap)
}

/// Looks for a positive literal, and for another one to watch in the place of the first.
fn inspect<A: Allocator + Copy>(alloc: A, shelf: &Shelf<A>, clause: &Clause<u32>) {
    let (learnt, lists, disjunctions) = (&shelf.learnt, &shelf.lists, &shelf.disjunctions);
    let _found = clause.find_literal(learnt, lists, disjunctions, |literal| {
        literal.satisfying_value()
    });
    let map = DecisionMap::new(alloc);
    let first = Literal::new(variable(1), false);
    let watches = WatchedLiterals::new(first, first.negate());
    let _next = watches.next_unwatched_literal(clause, learnt, lists, disjunctions, &map, 0);
    drop(map);
}

fn make_clauses<A: Allocator + Copy>(alloc: A) {
    let tracker = DecisionTracker::new(alloc);
    let (first, second, set) = (variable(1), variable(2), VersionSetId(0));
    let literals = [Literal::new(variable(3), true)];
    let condition = Some((DisjunctionId::from_index(0), literals.as_slice()));
    let _made: [(Option<WatchedLiterals>, bool, Clause<u32>); 3] = [
        WatchedLiterals::requires_clause(first, required(), &[second], &condition, &tracker),
        WatchedLiterals::constrains(first, second, set, &tracker),
        WatchedLiterals::constrains_parent(first, second, set, &tracker),
    ];
    drop(tracker);
}
