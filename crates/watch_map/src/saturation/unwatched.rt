//! The clauses that watch nothing: each visit reads all of their literals.
ghost use Rattle.std.specs.Prelude.{◌≡◌, ◌<◌, ◌≤◌, ◌&&◌, true, false, not, length, take, MatchOption, IfOk, IfErr};
ghost use Rattle.std.specs.Prelude.{All};
ghost use Rattle.std.specs.List.{AllPairs};
ghost use Rattle.typed_ids.specs.declared.error.StoreError.TheVariants.{OutOfMemory};
ghost use Rattle.decisions.specs.Decisions.{values_in};
ghost use Rattle.decisions.specs.Literals.{is_false_literal};
ghost use Rattle.decisions.specs.Trail.{val};
ghost use Rattle.clauses.specs.Clauses.{literals_of, same_literal};
ghost use Rattle.clauses.specs.Stored.{stored_in};
ghost use Rattle.watch_map.specs.Implication.{is_false, IsSettled, IsConflict};
ghost use Rattle.watch_map.specs.Saturation.{HasImplied};
ghost use Rattle.watch_map.specs.WatchInvariant.{is_true};
ghost use Rattle.watch_map.specs.Visits.{literals_at, IsFinding, AreAllSettled, AreAllTrue};

use crate::saturation::input::{SaturationInput, clause_at};
use crate::saturation::visit::{assign_implied, is_false, is_true};
use clauses::Clause;
use decisions::{DecisionMap, DecisionTracker, Literal};
use std::alloc::Allocator;
use typed_ids::{ClauseId, DenseIndex, StoreError};

/// What a look at all literals of a clause tells.
pub(crate) enum Finding {
    /// It is neither false, nor does it force a literal.
    Settled,
    /// It forces this literal.
    Unit(Literal),
    /// It is false.
    Conflict,
}

/// How many of the clauses that watch nothing come before this bound of ids. Looks at those behind it.
pub(crate) fn count_before<N: Copy, A: Allocator + Copy>(
    input: &SaturationInput<N, A>,
    bound: usize,
) -> usize
    requires { AllPairs (λ c d. c < d) input.now.unwatched.now }
    ensures { All (λ c. c < bound) (take result input.now.unwatched.now) }
{
    let mut count = input.unwatched.len();
    while count > 0 {
        if input.unwatched[count - 1].to_index() < bound {
            return count;
        }
        count -= 1;
    }
    0
}

/// Visits each clause that watches nothing, from a place in their list on: those before it are true. Answers one that
/// is false, if it meets one; else all are settled where no entry was added.
pub(crate) fn visit_all_unwatched<N: Copy, A: Allocator + Copy>(
    input: &SaturationInput<N, A>,
    trail: &mut DecisionTracker<A>,
    first: usize,
) -> Result<Option<ClauseId>, StoreError>
    requires there { All (λ c. c < length input.now.clauses.now) input.now.unwatched.now }
    requires first { AreAllTrue (literals_at input.now) (take first input.now.unwatched.now) (val trail.old.entries) }
    ensures implied { HasImplied (literals_at input.now) input.now.level trail.old trail.new }
    ensures ok { IfOk result (λ conflict. MatchOption conflict (length trail.new.entries ≡ length trail.old.entries
        → AreAllSettled (literals_at input.now) input.now.unwatched.now (val trail.new.entries))
        (IsConflict (literals_at input.now) (length input.now.clauses.now) (val trail.new.entries))) }
    ensures memory { IfErr result (λ e. e ≡ OutOfMemory) }
{
    for index in first..input.unwatched.len() {
        let id = input.unwatched[index];
        if visit_unwatched(input, id, trail)? {
            return Ok(Some(id));
        }
    }
    Ok(None)
}

/// A bound of ids: each clause below it that watches nothing is true. Those before the place in their list are.
pub(crate) fn bound_of_true<N: Copy, A: Allocator + Copy>(
    input: &SaturationInput<N, A>,
    map: &DecisionMap<A>,
    first: usize,
) -> usize
    requires there { All (λ c. c < length input.now.clauses.now) input.now.unwatched.now }
    requires ascending { AllPairs (λ c d. c < d) input.now.unwatched.now }
    requires first { AreAllTrue (literals_at input.now) (take first input.now.unwatched.now) (values_in map.now) }
    ensures within { result ≤ length input.now.clauses.now }
    ensures below { All (λ c. c < result → is_true (values_in map.now) (literals_at input.now c) ≡ true)
        input.now.unwatched.now }
{
    for place in first..input.unwatched.len() {
        let id = input.unwatched[place];
        if !is_clause_true(input, id, map) {
            return id.to_index();
        }
    }
    input.clauses.len()
}

/// Whether the clause is true.
fn is_clause_true<N: Copy, A: Allocator + Copy>(
    input: &SaturationInput<N, A>,
    id: ClauseId,
    map: &DecisionMap<A>,
) -> bool
    ensures { result ≡ is_true (values_in map.now) (literals_at input.now id) }
{
    let Some(clause) = clause_at(input, id) else {
        return false;
    };
    let found = clause.find_literal(
        input.learnt,
        input.lists,
        input.disjunctions,
        |literal| is_true(map, literal),
    );
    found.is_some()
}

/// Visits a clause that watches nothing: adds an entry for what it forces. Answers whether it is false.
fn visit_unwatched<N: Copy, A: Allocator + Copy>(
    input: &SaturationInput<N, A>,
    id: ClauseId,
    trail: &mut DecisionTracker<A>,
) -> Result<bool, StoreError>
    requires there { id < length input.now.clauses.now }
    ensures implied { HasImplied (literals_at input.now) input.now.level trail.old trail.new }
    ensures conflict { IfOk result (λ conflict. conflict ≡ true
        → is_false (val trail.new.entries) (literals_at input.now id) ≡ true) }
    ensures settled { IfOk result (λ conflict. conflict ≡ false
        → length trail.new.entries ≡ length trail.old.entries
        → IsSettled (val trail.new.entries) (literals_at input.now id)) }
    ensures memory { IfErr result (λ e. e ≡ OutOfMemory) }
{
    let Some(clause) = clause_at(input, id) else {
        unreachable!();
    };
    match find_unit(input, &clause, trail.map()) {
        Finding::Settled => Ok(false),
        Finding::Conflict => Ok(true),
        Finding::Unit(literal) => {
            assign_implied(input, id, literal, trail)?;
            Ok(false)
        }
    }
}

/// Looks at the literals of a clause, up to the second that isn't false. One that stands there twice is one literal.
fn find_unit<N: Copy, A: Allocator + Copy>(
    input: &SaturationInput<N, A>,
    clause: &Clause<N>,
    map: &DecisionMap<A>,
) -> Finding
    ensures { IsFinding (values_in map.now)
        (literals_of (stored_in input.now.learnt.now input.now.lists.now input.now.disjunctions.now) clause.now)
        result }
{
    let first = clause.find_literal(
        input.learnt,
        input.lists,
        input.disjunctions,
        |literal| !is_false(map, literal),
    );
    let Some(first) = first else {
        return Finding::Conflict;
    };
    if is_true(map, first) {
        return Finding::Settled;
    }
    let second = clause.find_literal(
        input.learnt,
        input.lists,
        input.disjunctions,
        |literal| is_second(map, first, literal),
    );
    match second {
        Some(_) => Finding::Settled,
        None => Finding::Unit(first),
    }
}

/// Whether it is another literal than the first, and isn't false.
fn is_second<A: Allocator + Copy>(map: &DecisionMap<A>, first: Literal, literal: Literal) -> bool
    ensures { result ≡ (not (same_literal literal first) && not (is_false_literal (values_in map.now) literal)) }
{
    literal != first && !is_false(map, literal)
}
