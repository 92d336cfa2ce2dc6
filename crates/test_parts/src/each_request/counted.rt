//! The tracker of variables of which at most one may be true, and the counters that tell falsified clauses.
use crate::each_request::decided::variable;
use crate::each_request::takes_none;
use at_most_once::AtMostOnceTracker;
use clause_counters::ClauseCounters;
use decisions::{DecisionMap, Literal};
use std::alloc::Allocator;
use test_support::Refusing;
use typed_ids::StoreError;

pub(super) fn call_tracker<B: Allocator>(heap: &Refusing<B>) -> Result<(), StoreError> {
    let mut tracker: AtMostOnceTracker<u32, &Refusing<B>> = AtMostOnceTracker::new(heap);
    let mut clauses = Vec::new(heap);
    let answer = fill_tracker(heap, &mut tracker, &mut clauses);
    drop(clauses);
    drop(tracker);
    answer
}

fn fill_tracker<A: Allocator + Copy, B: Allocator>(
    heap: &Refusing<B>,
    tracker: &mut AtMostOnceTracker<u32, A>,
    clauses: &mut Vec<(u32, u32, bool), A>,
) -> Result<(), StoreError> {
    for variable in 1..10u32 {
        let helper = if tracker.needs_helper(&variable) {
            Some(variable.saturating_add(100))
        } else {
            None
        };
        tracker.clauses_for(&variable, helper, clauses)?;
        tracker.add(variable, helper, clauses)?;
    }
    heap.arm(1);
    tracker.add(3, None, clauses)?;
    let _seen = (tracker.needs_helper(&20), tracker.is_tracked(&20));
    takes_none(heap)
}

pub(super) fn call_counters<B: Allocator>(heap: &Refusing<B>) -> Result<(), StoreError> {
    let mut counters = ClauseCounters::new(heap);
    let answer = fill_counters(heap, &mut counters);
    drop(counters);
    answer
}

/// A clause of one literal is falsified, told, and taken back.
fn fill_counters<'h, B: Allocator>(
    heap: &'h Refusing<B>,
    counters: &mut ClauseCounters<&'h Refusing<B>>,
) -> Result<(), StoreError> {
    let literal = Literal::new(variable(1), false);
    let group = counters.add_group(&[literal], &DecisionMap::new(heap))?;
    counters.make_room()?;
    heap.arm(1);
    counters.add_clause(&[group], 0);
    counters.make_false(literal);
    let falsified = counters.first();
    counters.make_undecided(literal);
    if falsified != Some(0) || counters.first().is_some() {
        return Err(StoreError::Cancelled);
    }
    takes_none(heap)
}
