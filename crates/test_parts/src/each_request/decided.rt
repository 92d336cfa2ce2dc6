//! The trail, the values of variables, and what variables stand for.
use crate::each_request::takes_none;
use decisions::{AddFault, Decision, DecisionMap, DecisionTracker, Literal};
use id_maps::SolverId;
use providers::Requirement;
use std::alloc::Allocator;
use test_support::Refusing;
use typed_ids::{
    ClauseId, DenseIndex, NameId, SolvableId, SolvableIdOrRoot, StoreError, VariableId,
    VersionSetId,
};
use variables::VariableMap;

pub(super) fn variable(index: u16) -> VariableId {
    VariableId::from_index(usize::from(index))
}

pub(super) fn call_trail<B: Allocator>(heap: &Refusing<B>) -> Result<(), StoreError> {
    let mut trail = DecisionTracker::new(heap);
    let answer = fill_trail(heap, &mut trail);
    drop(trail);
    answer
}

fn fill_trail<A: Allocator + Copy, B: Allocator>(
    heap: &Refusing<B>,
    trail: &mut DecisionTracker<A>,
) -> Result<(), StoreError> {
    for index in 0..20u16 {
        decide(trail, index)?;
    }
    heap.arm(1);
    decide(trail, 3)?;
    let _next = (trail.next_unpropagated(), trail.take_sync_floor());
    let _value = (
        trail.assigned_value(variable(1)),
        trail.level(variable(1)),
        trail.find_clause_for_assignment(variable(1)),
    );
    if !trail.assignments().is_empty() {
        trail.undo_last();
    }
    trail.undo_until(1);
    trail.clear();
    takes_none(heap)
}

/// Makes the variable true, at the first level.
fn decide<A: Allocator + Copy>(
    trail: &mut DecisionTracker<A>,
    index: u16,
) -> Result<(), StoreError> {
    let decision = Decision::new(variable(index), true, ClauseId::from_index(0));
    match trail.try_add_decision(decision, 1) {
        Ok(_) => Ok(()),
        Err(AddFault::Store(error)) => Err(error),
        Err(AddFault::Clash) => Err(StoreError::Cancelled),
    }
}

pub(super) fn call_values<B: Allocator>(heap: &Refusing<B>) -> Result<(), StoreError> {
    let mut map = DecisionMap::new(heap);
    let answer = fill_values(heap, &mut map);
    drop(map);
    answer
}

fn fill_values<A: Allocator + Copy, B: Allocator>(
    heap: &Refusing<B>,
    map: &mut DecisionMap<A>,
) -> Result<(), StoreError> {
    map.set(variable(1), true, 1)?;
    map.set(variable(700), false, 1)?;
    heap.arm(1);
    let _value = (map.value(variable(1)), map.level(variable(2)));
    let _literal = Literal::new(variable(1), true).eval(map);
    let _are_false = map.are_false(&[variable(700), variable(1)]);
    map.reset(variable(1));
    takes_none(heap)
}

pub(super) fn call_variables<B: Allocator>(heap: &Refusing<B>) -> Result<(), StoreError> {
    let mut map: VariableMap<NameId, SolvableId, &Refusing<B>> = VariableMap::new(heap)?;
    let answer = fill_variables(heap, &mut map, NameId::from_raw(0), SolvableId::from_raw(4));
    drop(map);
    answer
}

fn fill_variables<N: Copy, S: SolverId<A>, A: Allocator + Copy, B: Allocator>(
    heap: &Refusing<B>,
    map: &mut VariableMap<N, S, A>,
    name: N,
    solvable: S,
) -> Result<(), StoreError> {
    map.intern_solvable_or_root(SolvableIdOrRoot::Solvable(solvable))?;
    map.alloc_forbid_multiple_variable(name)?;
    map.alloc_at_least_one_variable(name)?;
    map.alloc_constrains_violation_variable(VersionSetId(0))?;
    map.alloc_requires_gate_variable(Requirement::Single(VersionSetId(0)))?;
    heap.arm(1);
    map.intern_solvable(solvable)?;
    map.intern_solvable_or_root(SolvableIdOrRoot::Root)?;
    let _found = map.lookup_solvable(solvable);
    if map.count() > 1 {
        map.forget_from(1);
    }
    takes_none(heap)
}
