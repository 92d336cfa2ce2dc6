//! The decision along what is queued. First the root's clauses are gone through, which are decided before anything that
//! follows from them; only where none of them is eligible, all that is queued, which the root's have left by then. Each
//! time the first eligible clause is the best at first, and behind it what may be better is looked at.
ghost use Rattle.std.specs.Prelude.{◌≡◌, ◌<◌, Some, None, true, false, filter, length, slice_get};
ghost use Rattle.std.specs.Prelude.{IfSome, MatchOption, OnOk, IfOk, IfErr};
ghost use Rattle.typed_ids.specs.declared.error.StoreError.TheVariants.{OutOfMemory};
ghost use Rattle.resolvo_queue.specs.Pick.{best_offer, is_of_root, pick};
ghost use Rattle.resolvo_queue.specs.Pick.Grounds.{CanDecideOn, BeginsPick, BestFrom, ColdOn, EligibleAt};
ghost use Rattle.resolvo_queue.specs.Pick.Grounds.{ImprovedBy, grounds, offers_on, score_by};
ghost use Rattle.resolvo_queue.specs.Pick.Groups.{IsNextOf, has_of, is_in, offers_of};
ghost use Rattle.resolvo_queue.specs.Pick.Inspection.{offer_with};
ghost use Rattle.resolvo_queue.specs.Pick.Questions.{AreUpTo};
ghost use Rattle.resolvo_queue.specs.Pick.Ready.{IsDone, offered};
ghost use Rattle.resolvo_queue.specs.Pick.Grounds.{OnlyWalks};
ghost use Rattle.resolvo_queue.specs.Scan.Positions.{has, is_after, IsBefore};
ghost use Rattle.resolvo_queue.specs.Parts.{IsOfClause, set_of};
ghost use Rattle.resolvo_queue.specs.declared.tracked_clause.Position.{Position as APosition};
ghost use Rattle.resolvo_queue.specs.declared.tracked_clause.TrackedClause.{TrackedClause as ATrackedClause};

use crate::group::Group;
use crate::inspection::inspect;
use crate::offer::{Candidate, Frontier, Offer};
use crate::questions::Question;
use crate::row_reader::RowReader;
use crate::tracked_clause::{Position, TrackedClause};
use crate::tracked_clauses::TrackedClauses;
use id_maps::{IdMap, SolverId};
use providers::Interner;
use std::alloc::Allocator;
use typed_ids::{StoreError, VariableId, VersionSetId};

/// Where the clause at a position is eligible. One that isn't leaves the queue.
#[inline(always)]
fn inspect_at<I: Interner>(
    tracked: &mut TrackedClauses<I::Alloc>,
    position: Position,
    reader: &mut RowReader<'_, I::Alloc>,
    question: &Question<'_, I>,
) -> Result<Option<Frontier>, StoreError>
    requires of { IsOfClause tracked.old.index.clauses.items position }
    requires decidable { CanDecideOn (grounds I.universe I.NameId.Scores.value_at question.now reader.old) tracked.old }
    ensures frontier { let on = grounds I.universe I.NameId.Scores.value_at question.now reader.old in
        IfOk result (EligibleAt on tracked.old position) }
    ensures set { IfOk result (λ f. IfSome f (λ g. (I.universe question.now.interner.now).knows_set g.set ≡ true)) }
    ensures fewer { IfOk result (λ f. f ≡ None → has tracked.old.queued.all position ≡ true →
        length tracked.new.queued.all < length tracked.old.queued.all) }
    ensures decidable { CanDecideOn (grounds I.universe I.NameId.Scores.value_at question.now reader.old) tracked.new }
    ensures walks { OnlyWalks tracked.old tracked.new reader.old reader.new }
    ensures memory { IfErr result (λ e. e ≡ OutOfMemory) }
{
    let clause = &tracked.index.clauses[position.number as usize];
    let found = inspect(
        &mut tracked.requirements,
        &mut tracked.occurrences,
        reader,
        clause,
        question,
    )?;
    match found {
        None => {
            tracked.queued.remove(position);
            Ok(None)
        }
        Some(frontier) => Ok(Some(frontier)),
    }
}

/// What an eligible clause offers, by its frontier.
fn offer_at<I: Interner>(
    clause: &TrackedClause,
    frontier: Frontier,
    question: &Question<'_, I>,
) -> Offer
    requires { (I.universe question.now.interner.now).knows_set frontier.set ≡ true }
    ensures { result ≡ offer_with (score_by I.universe I.NameId.Scores.value_at question.now) clause.now frontier }
{
    Offer {
        clause: clause.clause(),
        frontier,
        score: score_of(frontier.set, question.scores, question.interner),
    }
}

/// What the clause at a position offers, by its frontier.
fn candidate_at<I: Interner>(
    tracked: &TrackedClauses<I::Alloc>,
    position: Position,
    frontier: Frontier,
    question: &Question<'_, I>,
) -> Candidate
    requires of { IsOfClause tracked.now.index.clauses.items position }
    requires set { (I.universe question.now.interner.now).knows_set frontier.set ≡ true }
    ensures offer { (c : ATrackedClause) → slice_get tracked.now.index.clauses.items position.number ≡ Some c →
        result.offer ≡ offer_with (score_by I.universe I.NameId.Scores.value_at question.now) c frontier }
    ensures at { result.position ≡ position }
{
    let clause = &tracked.index.clauses[position.number as usize];
    Candidate {
        position,
        offer: offer_at(clause, frontier, question),
    }
}

/// The first eligible clause of a group. Those before it leave the queue.
fn first_eligible<I: Interner>(
    tracked: &mut TrackedClauses<I::Alloc>,
    group: Group,
    reader: &mut RowReader<'_, I::Alloc>,
    question: &Question<'_, I>,
) -> Result<Option<Candidate>, StoreError>
    requires decidable { CanDecideOn (grounds I.universe I.NameId.Scores.value_at question.now reader.old) tracked.old }
    ensures picked { let on = grounds I.universe I.NameId.Scores.value_at question.now reader.old in
        IfOk result (BeginsPick tracked.old.index.clauses.items (offers_of group (offers_on on))) }
    ensures of { IfOk result (λ o. IfSome o (λ b. is_in group b.position ≡ true)) }
    ensures decidable { CanDecideOn (grounds I.universe I.NameId.Scores.value_at question.now reader.old) tracked.new }
    ensures walks { OnlyWalks tracked.old tracked.new reader.old reader.new }
    ensures memory { IfErr result (λ e. e ≡ OutOfMemory) }
{
    while let Some(position) = tracked.queued.first_of(group) {
        match inspect_at(tracked, position, reader, question)? {
            Some(frontier) => return Ok(Some(candidate_at(tracked, position, frontier, question))),
            None => {}
        }
    }
    Ok(None)
}

/// The next clauses of a group behind a position of it that may be better than the best so far, one or two. None if
/// nothing can be better, or nothing is left.
fn next_rivals<A: Allocator + Copy>(
    tracked: &TrackedClauses<A>,
    group: Group,
    best: &Candidate,
    cursor: Position,
    largest: u64,
) -> Option<(Position, Option<Position>)>
    requires of { is_in group cursor ≡ true }
    ensures none { let set = set_of tracked.now.only_hot tracked.now.queued in
        MatchOption result (IsDone best.now.offer largest cursor (has_of group set))
        (λ r. has_of group set r.0 ≡ true) }
    ensures behind { IfSome result (λ r. IsBefore cursor r.0) }
    ensures least { let set = set_of tracked.now.only_hot tracked.now.queued in
        IfSome result (λ r. (p : APosition) → has_of group set p ≡ true → IsBefore cursor p →
        is_after r.0 p ≡ false) }
    ensures next { let set = set_of tracked.now.only_hot tracked.now.queued in
        IfSome result (λ r. IfSome r.1 (λ p. IsNextOf group set r.0 p)) }
{
    if best.offer.frontier.count == 1 {
        return None;
    }
    if tracked.only_hot && best.offer.score == largest {
        return None;
    }
    match tracked.queued.two_behind(tracked.only_hot, group, cursor) {
        (Some(first), second) => Some((first, second)),
        (None, _) => None,
    }
}

/// Makes the best so far what the clause at a position behind it offers, if that is better. Only where it has fewer
/// candidates its score is asked for.
fn improve<I: Interner>(
    best: &mut Candidate,
    tracked: &mut TrackedClauses<I::Alloc>,
    position: Position,
    reader: &mut RowReader<'_, I::Alloc>,
    question: &Question<'_, I>,
) -> Result<(), StoreError>
    requires of { IsOfClause tracked.old.index.clauses.items position }
    requires decidable { CanDecideOn (grounds I.universe I.NameId.Scores.value_at question.now reader.old) tracked.old }
    ensures better { let on = grounds I.universe I.NameId.Scores.value_at question.now reader.old in
        OnOk result (ImprovedBy on tracked.old position best.old.offer best.new.offer) }
    ensures decidable { CanDecideOn (grounds I.universe I.NameId.Scores.value_at question.now reader.old) tracked.new }
    ensures walks { OnlyWalks tracked.old tracked.new reader.old reader.new }
    ensures memory { IfErr result (λ e. e ≡ OutOfMemory) }
{
    let frontier = match inspect_at(tracked, position, reader, question)? {
        Some(frontier) => frontier,
        None => return Ok(()),
    };
    if best.offer.frontier.count <= frontier.count {
        return Ok(());
    }
    let rival = candidate_at(tracked, position, frontier, question);
    if rival.offer.beats(&best.offer) {
        *best = rival;
    }
    Ok(())
}

/// The best offer of the first clause of a group and of those behind it, in the order of the scan: the first, unless a
/// later one beats the best so far.
fn best_from<I: Interner>(
    tracked: &mut TrackedClauses<I::Alloc>,
    group: Group,
    first: Candidate,
    reader: &mut RowReader<'_, I::Alloc>,
    question: &Question<'_, I>,
) -> Result<Option<Offer>, StoreError>
    requires of { is_in group first.position ≡ true }
    requires decidable { CanDecideOn (grounds I.universe I.NameId.Scores.value_at question.now reader.old) tracked.old }
    requires cold { ColdOn (grounds I.universe I.NameId.Scores.value_at question.now reader.old) tracked.old }
    requires largest { AreUpTo question.now.largest (score_by I.universe I.NameId.Scores.value_at question.now) }
    ensures best { let on = grounds I.universe I.NameId.Scores.value_at question.now reader.old in
        IfOk result (BestFrom tracked.old.index.clauses.items (offers_of group (offers_on on)) first) }
    ensures decidable { CanDecideOn (grounds I.universe I.NameId.Scores.value_at question.now reader.old) tracked.new }
    ensures walks { OnlyWalks tracked.old tracked.new reader.old reader.new }
    ensures memory { IfErr result (λ e. e ≡ OutOfMemory) }
{
    let mut best = first;
    let mut cursor = best.position;
    while let Some((first, second)) = next_rivals(tracked, group, &best, cursor, question.largest) {
        improve(&mut best, tracked, first, reader, question)?;
        cursor = first;
        if let Some(position) = second {
            improve(&mut best, tracked, position, reader, question)?;
            cursor = position;
        }
    }
    Ok(Some(best.offer))
}

/// The best offer of a group's eligible clauses.
fn best_of<I: Interner>(
    tracked: &mut TrackedClauses<I::Alloc>,
    group: Group,
    reader: &mut RowReader<'_, I::Alloc>,
    question: &Question<'_, I>,
) -> Result<Option<Offer>, StoreError>
    requires decidable { CanDecideOn (grounds I.universe I.NameId.Scores.value_at question.now reader.old) tracked.old }
    requires cold { ColdOn (grounds I.universe I.NameId.Scores.value_at question.now reader.old) tracked.old }
    requires largest { AreUpTo question.now.largest (score_by I.universe I.NameId.Scores.value_at question.now) }
    ensures best { let on = grounds I.universe I.NameId.Scores.value_at question.now reader.old in
        IfOk result (λ o. o ≡ best_offer (offered tracked.old.index.clauses.items (offers_of group (offers_on on)))) }
    ensures decidable { CanDecideOn (grounds I.universe I.NameId.Scores.value_at question.now reader.old) tracked.new }
    ensures walks { OnlyWalks tracked.old tracked.new reader.old reader.new }
    ensures memory { IfErr result (λ e. e ≡ OutOfMemory) }
{
    match first_eligible(tracked, group, reader, question)? {
        Some(first) => best_from(tracked, group, first, reader, question),
        None => Ok(None),
    }
}

/// The best offer of the root's eligible clauses, wherever among the parents the root was registered.
fn best_of_root<I: Interner>(
    tracked: &mut TrackedClauses<I::Alloc>,
    reader: &mut RowReader<'_, I::Alloc>,
    question: &Question<'_, I>,
) -> Result<Option<Offer>, StoreError>
    requires decidable { CanDecideOn (grounds I.universe I.NameId.Scores.value_at question.now reader.old) tracked.old }
    requires cold { ColdOn (grounds I.universe I.NameId.Scores.value_at question.now reader.old) tracked.old }
    requires largest { AreUpTo question.now.largest (score_by I.universe I.NameId.Scores.value_at question.now) }
    ensures best { let on = grounds I.universe I.NameId.Scores.value_at question.now reader.old in
        IfOk result (λ o. o ≡ best_offer (filter is_of_root (offered tracked.old.index.clauses.items (offers_on on)))) }
    ensures decidable { CanDecideOn (grounds I.universe I.NameId.Scores.value_at question.now reader.old) tracked.new }
    ensures walks { OnlyWalks tracked.old tracked.new reader.old reader.new }
    ensures memory { IfErr result (λ e. e ≡ OutOfMemory) }
{
    match tracked.index.group_of(VariableId::root()) {
        Some(of_root) => best_of(tracked, of_root, reader, question),
        None => Ok(None),
    }
}

/// The decision to take, if a clause is eligible: the pick of all eligible clauses, in the order of the scan.
pub(crate) fn next_offer<I: Interner>(
    tracked: &mut TrackedClauses<I::Alloc>,
    reader: &mut RowReader<'_, I::Alloc>,
    question: &Question<'_, I>,
) -> Result<Option<Offer>, StoreError>
    requires decidable { CanDecideOn (grounds I.universe I.NameId.Scores.value_at question.now reader.old) tracked.old }
    requires cold { ColdOn (grounds I.universe I.NameId.Scores.value_at question.now reader.old) tracked.old }
    requires largest { AreUpTo question.now.largest (score_by I.universe I.NameId.Scores.value_at question.now) }
    ensures picked { let on = grounds I.universe I.NameId.Scores.value_at question.now reader.old in
        IfOk result (λ o. o ≡ pick (offered tracked.old.index.clauses.items (offers_on on))) }
    ensures decidable { CanDecideOn (grounds I.universe I.NameId.Scores.value_at question.now reader.old) tracked.new }
    ensures walks { OnlyWalks tracked.old tracked.new reader.old reader.new }
    ensures memory { IfErr result (λ e. e ≡ OutOfMemory) }
{
    match best_of_root(tracked, reader, question)? {
        Some(offer) => Ok(Some(offer)),
        None => best_of(tracked, Group::OfAllParents, reader, question),
    }
}

/// The score of a version set: its package's.
pub(crate) fn score_of<I: Interner>(
    set: VersionSetId,
    scores: &<I::NameId as SolverId<I::Alloc>>::Scores,
    interner: &I,
) -> u64
    requires { (I.universe interner.now).knows_set set ≡ true }
    ensures { result ≡ I.NameId.Scores.value_at scores.now ((I.universe interner.now).set_name set) }
{
    scores.get(interner.version_set_name(set))
}
