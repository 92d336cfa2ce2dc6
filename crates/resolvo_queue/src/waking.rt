//! Queueing clauses again.
ghost use Rattle.std.specs.Prelude.{◌≡◌, ◌≤◌, true, length, OnOk, IfErr};
ghost use Rattle.resolvo_queue.specs.Types.{known_true, OutOfMemory, values_in};
ghost use Rattle.resolvo_queue.specs.Scan.Positions.{same_position};
ghost use Rattle.resolvo_queue.specs.Parts.{AreWoken, AreWokenUnder, IsQueued, IsWoken, GrowsBy, HaveNumbers};
ghost use Rattle.resolvo_queue.specs.Parts.{IsOfClause};
ghost use Rattle.resolvo_queue.specs.Parts.UnderConditions.{AreChained};
ghost use Rattle.resolvo_queue.specs.Routing.Synced.{AllWokenFrom};

use crate::clause_index::ClauseIndex;
use crate::queued_clauses::QueuedClauses;
use crate::tracked_clause::TrackedClause;
use decisions::DecisionMap;
use std::alloc::Allocator;
use typed_ids::StoreError;

/// Queues a clause if its parent is true.
fn wake<A: Allocator + Copy>(
    queued: &mut QueuedClauses<A>,
    clause: &TrackedClause,
    map: &DecisionMap<A>,
) -> Result<(), StoreError>
    ensures grows { GrowsBy (λ p. same_position clause.now.position p ≡ true) queued.old queued.new }
    ensures woken { OnOk result (known_true (values_in map.now clause.now.parent) ≡ true →
        IsQueued queued.new clause.now) }
    ensures memory { IfErr result (λ e. e ≡ OutOfMemory) }
{
    match map.value(clause.parent) {
        Some(true) => queued.add(clause),
        _ => Ok(()),
    }
}

/// Queues the clause with a number if its parent is true. A number past the end stands for no clause.
fn wake_number<A: Allocator + Copy>(
    queued: &mut QueuedClauses<A>,
    clauses: &[TrackedClause],
    number: u32,
    map: &DecisionMap<A>,
) -> Result<(), StoreError>
    requires { HaveNumbers clauses.now }
    ensures grows { GrowsBy (IsOfClause clauses.now) queued.old queued.new }
    ensures woken { OnOk result (IsWoken clauses.now (values_in map.now) number queued.new) }
    ensures memory { IfErr result (λ e. e ≡ OutOfMemory) }
{
    match clauses.get(number as usize) {
        Some(clause) => wake(queued, clause, map),
        None => Ok(()),
    }
}

/// Queues those of the numbered clauses whose parent is true.
pub(crate) fn wake_clauses<A: Allocator + Copy>(
    queued: &mut QueuedClauses<A>,
    clauses: &[TrackedClause],
    numbers: &[u32],
    map: &DecisionMap<A>,
) -> Result<(), StoreError>
    requires { HaveNumbers clauses.now }
    ensures grows { GrowsBy (IsOfClause clauses.now) queued.old queued.new }
    ensures woken { OnOk result (AreWoken clauses.now (values_in map.now) numbers.now queued.new) }
    ensures memory { IfErr result (λ e. e ≡ OutOfMemory) }
{
    for number in numbers {
        wake_number(queued, clauses, *number, map)?;
    }
    Ok(())
}

/// Queues the clauses under a condition whose parents are true, the newest first.
pub(crate) fn wake_under<A: Allocator + Copy>(
    queued: &mut QueuedClauses<A>,
    index: &ClauseIndex<A>,
    disjunction: u32,
    map: &DecisionMap<A>,
) -> Result<(), StoreError>
    requires numbers { HaveNumbers index.now.clauses.items }
    requires chained { AreChained index.now.clauses.items index.now.newest_under.items }
    ensures grows { GrowsBy (IsOfClause index.now.clauses.items) queued.old queued.new }
    ensures woken { OnOk result (AreWokenUnder index.now.clauses.items (values_in map.now) disjunction queued.new) }
    ensures memory { IfErr result (λ e. e ≡ OutOfMemory) }
{
    let mut next = index.newest(disjunction);
    while next > 0 {
        let number = next - 1;
        wake_number(queued, index.clauses.as_slice(), number, map)?;
        next = index.clauses[number as usize].earlier;
    }
    Ok(())
}

/// Queues all clauses from a number on whose parent is true. The last comes first: so a place is found at the front.
pub(crate) fn wake_from<A: Allocator + Copy>(
    queued: &mut QueuedClauses<A>,
    clauses: &[TrackedClause],
    first: usize,
    map: &DecisionMap<A>,
) -> Result<(), StoreError>
    requires numbers { HaveNumbers clauses.now }
    requires first { first ≤ length clauses.now }
    ensures grows { GrowsBy (IsOfClause clauses.now) queued.old queued.new }
    ensures woken { OnOk result (AllWokenFrom first clauses.now (values_in map.now) queued.new) }
    ensures memory { IfErr result (λ e. e ≡ OutOfMemory) }
{
    for number in (first..clauses.len()).rev() {
        wake(queued, &clauses[number], map)?;
    }
    Ok(())
}
