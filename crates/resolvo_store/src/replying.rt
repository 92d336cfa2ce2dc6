//! The typed calls' answers as replies.
ghost use Rattle.std.specs.Prelude.{◌≡◌};
ghost use Rattle.resolvo_store.specs.Answers.{added, assignment, conflict, done, next, replied, tracked, undone};
ghost use Rattle.resolvo_store.specs.Command.{DisjunctionIs, VariableIs, reply_of};
ghost use Rattle.resolvo_store.specs.Answers.{loaded_as, watchers_are};

use crate::answers::{Added, Assignment, Next, Tracked};
use crate::reply::Reply;
use decisions::Decision;
use std::alloc::Allocator;
use typed_ids::{ClauseId, DisjunctionId, StoreError, VariableId};

pub(crate) fn variable_reply<A: Allocator>(answer: Result<VariableId, StoreError>) -> Reply<A>
    ensures { reply_of result ≡ replied VariableIs answer }
{
    match answer {
        Ok(variable) => Reply::Variable(variable),
        Err(e) => Reply::Refused(e),
    }
}

pub(crate) fn disjunction_reply<A: Allocator>(answer: Result<DisjunctionId, StoreError>) -> Reply<A>
    ensures { reply_of result ≡ replied DisjunctionIs answer }
{
    match answer {
        Ok(disjunction) => Reply::Disjunction(disjunction),
        Err(e) => Reply::Refused(e),
    }
}

pub(crate) fn clause_reply<A: Allocator>(answer: Result<Added, StoreError>) -> Reply<A>
    ensures { reply_of result ≡ replied added answer }
{
    match answer {
        Ok(
            Added {
                clause,
                is_conflict,
            },
        ) => Reply::Clause(clause, is_conflict),
        Err(e) => Reply::Refused(e),
    }
}

pub(crate) fn tracked_reply<A: Allocator>(answer: Result<Tracked, StoreError>) -> Reply<A>
    ensures { reply_of result ≡ replied tracked answer }
{
    match answer {
        Ok(Tracked { is_new, clauses }) => Reply::Tracked(is_new, clauses),
        Err(e) => Reply::Refused(e),
    }
}

pub(crate) fn assignment_reply<A: Allocator>(answer: Result<Assignment, StoreError>) -> Reply<A>
    ensures { reply_of result ≡ replied assignment answer }
{
    match answer {
        Ok(Assignment::New) => Reply::Assigned,
        Ok(Assignment::Already) => Reply::Already,
        Ok(Assignment::Clash) => Reply::Clash,
        Err(e) => Reply::Refused(e),
    }
}

pub(crate) fn undone_reply<A: Allocator>(answer: Result<(Decision, u32), StoreError>) -> Reply<A>
    ensures { reply_of result ≡ replied undone answer }
{
    match answer {
        Ok(last) => Reply::Undone(Some(last)),
        Err(e) => Reply::Refused(e),
    }
}

pub(crate) fn done_reply<A: Allocator>(answer: Result<(), StoreError>) -> Reply<A>
    ensures { reply_of result ≡ replied done answer }
{
    match answer {
        Ok(()) => Reply::Done,
        Err(e) => Reply::Refused(e),
    }
}

pub(crate) fn watchers_reply<A: Allocator>(answer: Result<Vec<ClauseId, A>, StoreError>) -> Reply<A>
    ensures { reply_of result ≡ replied watchers_are answer }
{
    match answer {
        Ok(found) => Reply::Watchers(found),
        Err(e) => Reply::Refused(e),
    }
}

pub(crate) fn loaded_reply<A: Allocator>(
    answer: Result<Vec<Vec<VariableId, A>, A>, StoreError>,
) -> Reply<A>
    ensures { reply_of result ≡ replied loaded_as answer }
{
    match answer {
        Ok(lists) => Reply::Loaded(lists),
        Err(e) => Reply::Refused(e),
    }
}

pub(crate) fn conflict_reply<A: Allocator>(answer: Result<Option<ClauseId>, StoreError>) -> Reply<A>
    ensures { reply_of result ≡ replied conflict answer }
{
    match answer {
        Ok(Some(clause)) => Reply::Conflict(clause),
        Ok(None) => Reply::Done,
        Err(e) => Reply::Refused(e),
    }
}

pub(crate) fn next_reply<A: Allocator>(answer: Result<Next, StoreError>) -> Reply<A>
    ensures { reply_of result ≡ replied next answer }
{
    match answer {
        Ok(next) => reply_of_next(next),
        Err(e) => Reply::Refused(e),
    }
}

fn reply_of_next<A: Allocator>(found: Next) -> Reply<A>
    ensures { reply_of result ≡ next found }
{
    match found {
        Next::Decided(decision) => Reply::Decided(decision),
        Next::Done => Reply::NoDecision,
        Next::Falsified(clause) => Reply::Falsified(clause),
    }
}
