//! What a decision queues before it goes through the queue: the clauses that came since the last one, and those under
//! conditions that may be met since then.
ghost use Rattle.std.specs.Prelude.{◌≡◌, ◌≤◌, ℕ, false, length, OnOk, IfErr};
ghost use Rattle.resolvo_queue.specs.Types.{OutOfMemory, values_in};
ghost use Rattle.resolvo_queue.specs.Parts.{GrowsBy, HaveNumbers, IsOfClause};
ghost use Rattle.resolvo_queue.specs.Parts.UnderConditions.{AreChained};
ghost use Rattle.resolvo_queue.specs.Routing.Noted.{is_noted};
ghost use Rattle.resolvo_queue.specs.Routing.Synced.{AllWokenFrom, Settles, WakesIfMet};

use crate::clause_index::ClauseIndex;
use crate::condition::is_met;
use crate::noted_conditions::NotedConditions;
use crate::questions::Question;
use crate::queued_clauses::QueuedClauses;
use crate::waking::{wake_from, wake_under};
use providers::Interner;
use typed_ids::StoreError;

/// Queues the clauses from a number on, and those under a noted condition that is met, each if its parent is true. Then
/// no condition is noted. Refused, some clauses are queued, and a condition whose clauses may not be is still noted.
pub(crate) fn wake_due<I: Interner>(
    queued: &mut QueuedClauses<I::Alloc>,
    noted: &mut NotedConditions<I::Alloc>,
    index: &ClauseIndex<I::Alloc>,
    first: usize,
    question: &Question<'_, I>,
) -> Result<(), StoreError>
    requires numbers { HaveNumbers index.now.clauses.items }
    requires chained { AreChained index.now.clauses.items index.now.newest_under.items }
    requires first { first ≤ length index.now.clauses.items }
    ensures grows { GrowsBy (IsOfClause index.now.clauses.items) queued.old queued.new }
    ensures settles { Settles index.now.clauses.items question.now.disjunctions.now (values_in question.now.map.now)
        noted.old noted.new queued.new }
    ensures woken { OnOk result (AllWokenFrom first index.now.clauses.items (values_in question.now.map.now)
        queued.new) }
    ensures none { OnOk result ((d : ℕ) → is_noted noted.new d ≡ false) }
    ensures memory { IfErr result (λ e. e ≡ OutOfMemory) }
{
    wake_from(queued, index.clauses.as_slice(), first, question.map)?;
    wake_noted(queued, noted, index, question)
}

/// Queues the clauses under the noted conditions that are met, each if its parent is true, and notes none any more.
fn wake_noted<I: Interner>(
    queued: &mut QueuedClauses<I::Alloc>,
    noted: &mut NotedConditions<I::Alloc>,
    index: &ClauseIndex<I::Alloc>,
    question: &Question<'_, I>,
) -> Result<(), StoreError>
    requires numbers { HaveNumbers index.now.clauses.items }
    requires chained { AreChained index.now.clauses.items index.now.newest_under.items }
    ensures grows { GrowsBy (IsOfClause index.now.clauses.items) queued.old queued.new }
    ensures settles { Settles index.now.clauses.items question.now.disjunctions.now (values_in question.now.map.now)
        noted.old noted.new queued.new }
    ensures none { OnOk result ((d : ℕ) → is_noted noted.new d ≡ false) }
    ensures memory { IfErr result (λ e. e ≡ OutOfMemory) }
{
    let conditions = noted.disjunctions();
    for disjunction in conditions {
        wake_if_met(queued, index, *disjunction, question)?;
    }
    noted.clear();
    Ok(())
}

/// Queues the clauses under a condition, each if its parent is true, unless the condition isn't met.
fn wake_if_met<I: Interner>(
    queued: &mut QueuedClauses<I::Alloc>,
    index: &ClauseIndex<I::Alloc>,
    disjunction: u32,
    question: &Question<'_, I>,
) -> Result<(), StoreError>
    requires numbers { HaveNumbers index.now.clauses.items }
    requires chained { AreChained index.now.clauses.items index.now.newest_under.items }
    ensures grows { GrowsBy (IsOfClause index.now.clauses.items) queued.old queued.new }
    ensures woken { OnOk result (WakesIfMet index.now.clauses.items question.now.disjunctions.now
        (values_in question.now.map.now) disjunction queued.new) }
    ensures memory { IfErr result (λ e. e ≡ OutOfMemory) }
{
    if !is_met(disjunction, question.disjunctions, question.map) {
        return Ok(());
    }
    wake_under(queued, index, disjunction, question.map)
}
