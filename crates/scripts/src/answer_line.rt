//! The lines of what the store's methods answer.
#![tactic(auto, using(crate::proofs::Beginnings::begins_more, crate::proofs::Beginnings::begins_whole))]

ghost use Rattle.std.specs.Prelude.{◌++◌};
ghost use Rattle.resolvo_store.specs.Answers.{added, assignment, conflict, done, next, replied, tracked, undone};
ghost use Rattle.resolvo_store.specs.Answers.{watchers_are};
ghost use Rattle.resolvo_store.specs.Command.{DisjunctionIs, Done, VariableIs};
ghost use Rattle.scripts.specs.Replies.{Pushes, reply_text};

use crate::reply_line::{
    push_clause, push_decision, push_end, push_line, push_refused, push_undone, push_watchers,
};
use decisions::Decision;
use resolvo_store::{Added, Assignment, Next, Tracked};
use std::alloc::{AllocError, Allocator};
use typed_ids::{ClauseId, DenseIndex, DisjunctionId, StoreError, VariableId};

/// Puts the line that tells a variable after the text, or that of a refusal.
#[inline(always)]
pub(crate) fn push_variable(
    text: &mut Vec<u8>,
    answer: Result<VariableId, StoreError>,
) -> Result<(), AllocError>
    ensures { Pushes result text.old.items text.new.items (reply_text (replied VariableIs answer)) }
{
    match answer {
        Ok(variable) => push_line(text, b"variable", variable.to_index()),
        Err(e) => push_refused(text, e),
    }
}

/// Puts the line that tells a disjunction after the text, or that of a refusal.
#[inline(always)]
pub(crate) fn push_disjunction(
    text: &mut Vec<u8>,
    answer: Result<DisjunctionId, StoreError>,
) -> Result<(), AllocError>
    ensures { Pushes result text.old.items text.new.items (reply_text (replied DisjunctionIs answer)) }
{
    match answer {
        Ok(disjunction) => push_line(text, b"disjunction", disjunction.to_index()),
        Err(e) => push_refused(text, e),
    }
}

/// Puts the line that tells a new clause after the text, or that of a refusal.
#[inline(always)]
pub(crate) fn push_added(
    text: &mut Vec<u8>,
    answer: Result<Added, StoreError>,
) -> Result<(), AllocError>
    ensures { Pushes result text.old.items text.new.items (reply_text (replied added answer)) }
{
    match answer {
        Ok(
            Added {
                clause,
                is_conflict,
            },
        ) => push_clause(text, clause, is_conflict),
        Err(e) => push_refused(text, e),
    }
}

/// Puts the line that tells how a variable is tracked after the text, or that of a refusal.
#[inline(always)]
pub(crate) fn push_tracked(
    text: &mut Vec<u8>,
    answer: Result<Tracked, StoreError>,
) -> Result<(), AllocError>
    ensures { Pushes result text.old.items text.new.items (reply_text (replied tracked answer)) }
{
    match answer {
        Ok(answer) if answer.is_new => push_line(text, b"tracked yes", answer.clauses),
        Ok(answer) => push_line(text, b"tracked no", answer.clauses),
        Err(e) => push_refused(text, e),
    }
}

/// Puts the line that tells what became of an assignment after the text, or that of a refusal.
#[inline(always)]
pub(crate) fn push_assigned(
    text: &mut Vec<u8>,
    answer: Result<Assignment, StoreError>,
) -> Result<(), AllocError>
    ensures { Pushes result text.old.items text.new.items (reply_text (replied assignment answer)) }
{
    match answer {
        Ok(Assignment::New) => text.extend_from_slice(b"assigned\n"),
        Ok(Assignment::Already) => text.extend_from_slice(b"already\n"),
        Ok(Assignment::Clash) => text.extend_from_slice(b"clash\n"),
        Err(e) => push_refused(text, e),
    }
}

/// Puts the line that tells the assignment that was taken back after the text, or that of a refusal.
#[inline(always)]
pub(crate) fn push_taken_back(
    text: &mut Vec<u8>,
    answer: Result<(Decision, u32), StoreError>,
) -> Result<(), AllocError>
    ensures { Pushes result text.old.items text.new.items (reply_text (replied undone answer)) }
{
    match answer {
        Ok(last) => push_undone(text, Some(last)),
        Err(e) => push_refused(text, e),
    }
}

/// Puts the line that tells that a command was obeyed after the text, or that of its refusal.
#[inline(always)]
pub(crate) fn push_done(
    text: &mut Vec<u8>,
    answer: Result<(), StoreError>,
) -> Result<(), AllocError>
    ensures { Pushes result text.old.items text.new.items (reply_text (replied done answer)) }
{
    match answer {
        Ok(()) => push_obeyed(text),
        Err(e) => push_refused(text, e),
    }
}

/// Puts the line that tells that a command was obeyed after the text.
#[inline(always)]
pub(crate) fn push_obeyed(text: &mut Vec<u8>) -> Result<(), AllocError>
    ensures { Pushes result text.old.items text.new.items (reply_text Done) }
{
    text.extend_from_slice(b"done\n")
}

/// Puts the line that tells the clauses that watch a literal after the text, or that of a refusal.
#[inline(always)]
pub(crate) fn push_watched<A: Allocator>(
    text: &mut Vec<u8>,
    answer: Result<Vec<ClauseId, A>, StoreError>,
) -> Result<(), AllocError>
    ensures { Pushes result text.old.items text.new.items (reply_text (replied watchers_are answer)) }
{
    match answer {
        Ok(clauses) => {
            push_watchers(text, &clauses)?;
            push_end(text)
        }
        Err(e) => push_refused(text, e),
    }
}

/// Puts the line that tells how a saturation ended after the text, or that of a refusal.
#[inline(always)]
pub(crate) fn push_saturated(
    text: &mut Vec<u8>,
    answer: Result<Option<ClauseId>, StoreError>,
) -> Result<(), AllocError>
    ensures { Pushes result text.old.items text.new.items (reply_text (replied conflict answer)) }
{
    match answer {
        Ok(Some(clause)) => push_line(text, b"conflict", clause.to_index()),
        Ok(None) => text.extend_from_slice(b"done\n"),
        Err(e) => push_refused(text, e),
    }
}

/// Puts the line that tells what a search does next after the text, or that of a refusal.
#[inline(always)]
pub(crate) fn push_decided(
    text: &mut Vec<u8>,
    answer: Result<Next, StoreError>,
) -> Result<(), AllocError>
    ensures { Pushes result text.old.items text.new.items (reply_text (replied next answer)) }
{
    match answer {
        Ok(found) => push_found(text, found),
        Err(e) => push_refused(text, e),
    }
}

#[inline(always)]
fn push_found(text: &mut Vec<u8>, found: Next) -> Result<(), AllocError>
    ensures { Pushes result text.old.items text.new.items (reply_text (next found)) }
{
    match found {
        Next::Decided(decision) => push_decision(text, &decision),
        Next::Done => text.extend_from_slice(b"no decision\n"),
        Next::Falsified(clause) => push_line(text, b"falsified", clause.to_index()),
    }
}
