//! Looking at a clause: whether it is eligible, and where. What looks is inlined where a clause is gone through; what
//! reads rows isn't, since of most clauses a walk is known.
ghost use Rattle.std.specs.Prelude.{◌≡◌, ◌<◌, Some, true, length, is_some, IsSome, IfSome, OnOk, IfOk, IfErr};
ghost use Rattle.resolvo_queue.specs.Types.{lookup, OutOfMemory, same_requirement};
ghost use Rattle.resolvo_queue.specs.Rows.{candidates};
ghost use Rattle.resolvo_queue.specs.Pick.Grounds.{LearnsOn, RightOn, eligible_on, frontier_on, grounds};
ghost use Rattle.resolvo_queue.specs.Pick.Questions.{clause_literals};
ghost use Rattle.resolvo_queue.specs.References.{IsWalkable};
ghost use Rattle.resolvo_queue.specs.Pick.Inspection.{ListsOnly, may_be};
ghost use Rattle.resolvo_queue.specs.Rows.Listing.{IsListedWell};
ghost use Rattle.resolvo_queue.specs.Occurrences.{is_listed, GrowsWith};
ghost use Rattle.resolvo_queue.specs.Parts.{known_at, IsPlaceOf, OwesSame, SameFound};
ghost use Rattle.resolvo_queue.specs.WalkCounts.{WalksOnce};

use crate::condition::condition_holds;
use crate::offer::Frontier;
use crate::questions::Question;
use crate::requirements::{Requirements, Walk};
use crate::row_reader::{Occurrences, RowReader};
use crate::tracked_clause::TrackedClause;
use providers::{Interner, Requirement};
use std::alloc::Allocator;
use typed_ids::StoreError;

/// Lists a requirement, unless it is listed. This is the one place where rows are read for that.
#[inline(never)]
pub(crate) fn list_once<A: Allocator + Copy>(
    occurrences: &mut Occurrences<A>,
    reader: &RowReader<'_, A>,
    requirement: Requirement,
) -> Result<(), StoreError>
    requires entry { IsSome (lookup (same_requirement requirement) reader.now.lists) }
    ensures grows { GrowsWith requirement (candidates reader.now.lists requirement) occurrences.old occurrences.new }
    ensures lists { ListsOnly requirement (candidates reader.now.lists requirement) occurrences.old occurrences.new }
    ensures listed { OnOk result (is_listed occurrences.new requirement ≡ true) }
    ensures once { is_listed occurrences.old requirement ≡ true → occurrences.new ≡ occurrences.old }
    ensures memory { IfErr result (λ e. e ≡ OutOfMemory) }
{
    if occurrences.is_listed(requirement) {
        Ok(())
    } else {
        reader.list(requirement, occurrences)
    }
}

/// The frontier of a clause's requirement, which is walked only if nothing is known of its rows. This is the one place
/// where rows are walked.
#[inline(always)]
fn requirement_frontier<I: Interner>(
    requirements: &mut Requirements<I::Alloc>,
    occurrences: &mut Occurrences<I::Alloc>,
    reader: &mut RowReader<'_, I::Alloc>,
    clause: &TrackedClause,
    question: &Question<'_, I>,
) -> Result<Option<Frontier>, StoreError>
    requires place { IsPlaceOf requirements.old clause.now.requirement clause.now.record }
    requires walkable { IsWalkable (I.universe question.now.interner.now) reader.old.lists clause.now.requirement }
    requires listed { IsListedWell reader.old.lists occurrences.old requirements.old }
    requires right { let on = grounds I.universe I.NameId.Scores.value_at question.now reader.old in
        RightOn on requirements.old clause.now }
    ensures frontier { let on = grounds I.universe I.NameId.Scores.value_at question.now reader.old in
        IfOk result (λ f. f ≡ frontier_on on clause.now.requirement) }
    ensures known { IfOk result (λ f. known_at requirements.new clause.now.record ≡ Some f) }
    ensures once { WalksOnce requirements.old requirements.new reader.old.walked reader.new.walked }
    ensures learns { let on = grounds I.universe I.NameId.Scores.value_at question.now reader.old in
        LearnsOn on clause.now requirements.old requirements.new reader.old reader.new }
    ensures rows { reader.new.lists ≡ reader.old.lists }
    ensures listed { IsListedWell reader.old.lists occurrences.new requirements.new }
    ensures owes { OwesSame requirements.old requirements.new }
    ensures found { SameFound requirements.old requirements.new }
    ensures memory { IfErr result (λ e. e ≡ OutOfMemory) }
{
    match requirements.known(clause.record) {
        Walk::Known(frontier) => Ok(frontier),
        Walk::Unknown => {
            list_once(occurrences, reader, clause.requirement)?;
            let frontier = reader.walk(clause.requirement, question.map, question.interner);
            requirements.store_walk(clause.record, &frontier);
            Ok(frontier)
        }
    }
}

/// Where a clause is eligible; nothing if it isn't, and then what is known afterwards says so.
#[inline(always)]
pub(crate) fn inspect<I: Interner>(
    requirements: &mut Requirements<I::Alloc>,
    occurrences: &mut Occurrences<I::Alloc>,
    reader: &mut RowReader<'_, I::Alloc>,
    clause: &TrackedClause,
    question: &Question<'_, I>,
) -> Result<Option<Frontier>, StoreError>
    requires place { IsPlaceOf requirements.old clause.now.requirement clause.now.record }
    requires condition { IfSome clause.now.condition (λ d. d < length question.now.disjunctions.now) }
    requires walkable { IsWalkable (I.universe question.now.interner.now) reader.old.lists clause.now.requirement }
    requires listed { IsListedWell reader.old.lists occurrences.old requirements.old }
    requires right { let on = grounds I.universe I.NameId.Scores.value_at question.now reader.old in
        RightOn on requirements.old clause.now }
    ensures eligible { let on = grounds I.universe I.NameId.Scores.value_at question.now reader.old in
        IfOk result (λ f. f ≡ eligible_on on clause.now) }
    ensures set { IfOk result (λ f. IfSome f (λ g. (I.universe question.now.interner.now).knows_set g.set ≡ true)) }
    ensures possible { let on = grounds I.universe I.NameId.Scores.value_at question.now reader.old in
        IfOk result (λ f. may_be on.val (clause_literals on.refs) requirements.new clause.now ≡ is_some f) }
    ensures once { WalksOnce requirements.old requirements.new reader.old.walked reader.new.walked }
    ensures learns { let on = grounds I.universe I.NameId.Scores.value_at question.now reader.old in
        LearnsOn on clause.now requirements.old requirements.new reader.old reader.new }
    ensures rows { reader.new.lists ≡ reader.old.lists }
    ensures listed { IsListedWell reader.old.lists occurrences.new requirements.new }
    ensures owes { OwesSame requirements.old requirements.new }
    ensures found { SameFound requirements.old requirements.new }
    ensures memory { IfErr result (λ e. e ≡ OutOfMemory) }
{
    match question.map.value(clause.parent) {
        Some(true) => {}
        _ => return Ok(None),
    }
    if !condition_holds(clause.condition, question.disjunctions, question.map) {
        return Ok(None);
    }
    requirement_frontier(requirements, occurrences, reader, clause, question)
}
