//! A small search.
ghost use Rattle.std.specs.Prelude.{◌≡◌, not, None, Some, IfOk, OnOk, IfErr};
ghost use Rattle.resolvo_clauses.specs.Trail.{val};
ghost use Rattle.resolvo_queue.specs.Pick.{DecidesUnbeaten};
ghost use Rattle.resolvo_store.specs.Outcome.{falsified_clause, offers};
ghost use Rattle.test_store_calls.specs.Search.{IsEnd, IsFault};

use crate::requirement_callers::give;
use resolvo_clauses::Decision;
use resolvo_ids::{ClauseId, StoreError, VariableId};
use resolvo_pool::DependencyProvider;
use resolvo_queue::QueueDecision;
use resolvo_store::{Abstract, ClauseStore, Next};
use std::ops::Range;

/// How a search ends.
#[derive(Clone, Copy, Debug, PartialEq, Eq)]
pub enum SearchEnd {
    /// Each clause whose parent is true has a candidate that is true.
    Solved,
    /// This clause can't be satisfied any more.
    Falsified(ClauseId),
    /// Each level has its decision, and the last one was not inspected.
    LevelsUsed,
}

/// Why no decision can be asked for.
#[derive(Clone, Copy, Debug, PartialEq, Eq)]
pub enum DecideFault {
    /// This clause, the first such one, can't be satisfied any more.
    Falsified(ClauseId),
    /// The store was refused memory.
    Refused(StoreError),
}

/// The next decision, if there is one, which no eligible clause beats. Asking changes nothing.
pub fn ask<D: DependencyProvider + Drop>(
    store: &mut ClauseStore<D>,
) -> Result<Option<QueueDecision>, DecideFault>
    ensures decision { IfOk result (λ decision.
        DecidesUnbeaten (offers (⟦<D as Abstract>⟧.store store.old)) decision) }
    ensures unfalsified { OnOk result (falsified_clause (⟦<D as Abstract>⟧.store store.old) ≡ None) }
    ensures fault { IfErr result (IsFault (⟦<D as Abstract>⟧.store store.old)) }
    ensures same { ⟦<D as Abstract>⟧.store store.new ≡ ⟦<D as Abstract>⟧.store store.old }
{
    if let Some(clause) = store.falsified() {
        return Err(DecideFault::Falsified(clause));
    }
    match store.next_decision() {
        Ok(decision) => Ok(decision),
        Err(error) => Err(DecideFault::Refused(error)),
    }
}

/// Decides, one candidate a level, until nothing is left to decide or a clause is falsified.
pub fn search<D: DependencyProvider + Drop>(
    store: &mut ClauseStore<D>,
    levels: Range<u32>,
) -> Result<SearchEnd, StoreError>
    ensures { IfOk result (λ end. IsEnd (⟦<D as Abstract>⟧.store store.new) end) }
{
    for level in levels {
        match store.decide()? {
            Next::Decided(chosen) => {
                let decision = Decision::new(chosen.candidate, true, chosen.clause_id);
                store.assign(decision, level)?;
            }
            Next::Done => return Ok(SearchEnd::Solved),
            Next::Falsified(clause) => return Ok(SearchEnd::Falsified(clause)),
        }
    }
    Ok(SearchEnd::LevelsUsed)
}

/// Takes back what was assigned above a level, and rules a candidate out at this level: the clause can't be met with
/// it. Answers whether it is ruled out now; it isn't if it was chosen at this level or below.
pub fn rule_out<D: DependencyProvider + Drop>(
    store: &mut ClauseStore<D>,
    candidate: VariableId,
    clause: ClauseId,
    level: u32,
) -> Result<bool, StoreError>
    ensures { IfOk result (λ done. val (⟦<D as Abstract>⟧.store store.new).trail candidate ≡ Some (not done)) }
{
    store.undo_until(level);
    give(store, candidate, false, clause, level)
}
