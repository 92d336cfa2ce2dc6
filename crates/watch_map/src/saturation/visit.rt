//! One clause of which a watch is false.
ghost use Rattle.std.specs.Prelude.{◌≡◌, ◌<◌, true, [], ◌∷◌, length, find, OnOk, OnErr, IfOk, IfErr};
ghost use Rattle.typed_ids.specs.declared.error.StoreError.TheVariants.{OutOfMemory};
ghost use Rattle.decisions.specs.Decisions.{values_in};
ghost use Rattle.decisions.specs.Literals.{is_false_literal};
ghost use Rattle.decisions.specs.Trail.{val};
ghost use Rattle.clauses.specs.Clauses.{literals_of};
ghost use Rattle.clauses.specs.Stored.{stored_in};
ghost use Rattle.watch_map.specs.WatchLists.{watched_by, IsNode};
ghost use Rattle.watch_map.specs.Implication.{is_unit};
ghost use Rattle.watch_map.specs.Saturation.{HasImplied};
ghost use Rattle.watch_map.specs.WatchInvariant.{is_true_literal};
ghost use Rattle.watch_map.specs.Visits.{literals_at, may_watch, IsWatching, IsInspection, IsVisit};

use crate::nodes::{WatchNode, record_at};
use crate::saturation::input::{SaturationInput, clause_at};
use crate::watched_literals::WatchedLiterals;
use clauses::Clause;
use decisions::{Decision, DecisionMap, DecisionTracker, Literal};
use std::alloc::Allocator;
use typed_ids::{ClauseId, DenseIndex, StoreError};

/// What the inspection of a clause finds, of which a watch is false.
pub(crate) enum Inspection {
    /// The other watch is true.
    Satisfied,
    /// It may watch this literal in the place of the false one.
    Moves(Literal),
    /// It is unit: this literal, its other watch, is left.
    Unit(Literal),
    /// It is false.
    Conflict,
}

/// How a visit ends.
pub(crate) enum VisitOutcome {
    /// Nothing: the other watch is true.
    Satisfied,
    /// The clause may watch this literal in the place of the false one.
    Moves(Literal),
    /// The clause is false.
    Conflict,
}

/// Visits the clause of this node in the list of a false literal: adds an entry if it is unit.
pub(crate) fn visit<N: Copy, A: Allocator + Copy>(
    input: &SaturationInput<N, A>,
    watches: &[Option<WatchedLiterals>],
    falsified: Literal,
    node: &WatchNode,
    trail: &mut DecisionTracker<A>,
) -> Result<VisitOutcome, StoreError>
    requires own { IsWatching (literals_at input.now node.now.clause_id) (watched_by watches.now node.now.clause_id) }
    requires node { IsNode watches.now falsified node.now }
    requires is_false { is_false_literal (val trail.old.entries) falsified ≡ true }
    ensures implied { HasImplied (literals_at input.now) input.now.level trail.old trail.new }
    ensures ok { IfOk result (IsVisit (val trail.new.entries) (literals_at input.now node.now.clause_id)
        (watched_by watches.now node.now.clause_id) falsified) }
    ensures memory { IfErr result (λ e. e ≡ OutOfMemory) }
{
    match inspect(input, watches, falsified, node, trail.map()) {
        Inspection::Satisfied => Ok(VisitOutcome::Satisfied),
        Inspection::Moves(literal) => Ok(VisitOutcome::Moves(literal)),
        Inspection::Conflict => Ok(VisitOutcome::Conflict),
        Inspection::Unit(other) => {
            assign_implied(input, node.clause_id, other, trail)?;
            Ok(VisitOutcome::Satisfied)
        }
    }
}

/// Inspects the clause of this node in the list of a false literal. Reads it only if its other watch isn't true.
fn inspect<N: Copy, A: Allocator + Copy>(
    input: &SaturationInput<N, A>,
    watches: &[Option<WatchedLiterals>],
    falsified: Literal,
    node: &WatchNode,
    map: &DecisionMap<A>,
) -> Inspection
    requires own { IsWatching (literals_at input.now node.now.clause_id) (watched_by watches.now node.now.clause_id) }
    requires node { IsNode watches.now falsified node.now }
    requires is_false { is_false_literal (values_in map.now) falsified ≡ true }
    ensures { IsInspection (values_in map.now) (literals_at input.now node.now.clause_id)
        (watched_by watches.now node.now.clause_id) falsified result }
{
    let index = node.watch_index as usize;
    let watched = record_at(watches, node.clause_id);
    let other = watched.watched_literals[1 - index];
    let value = other.eval(map);
    if value == Some(true) {
        return Inspection::Satisfied;
    }
    let Some(clause) = clause_at(input, node.clause_id) else {
        unreachable!();
    };
    let next = find_beside(input, &clause, map, falsified, other);
    match next {
        Some(next) => Inspection::Moves(next),
        None if value.is_some() => Inspection::Conflict,
        None => Inspection::Unit(other),
    }
}

/// The first of the clause's literals that is neither of its two watches and isn't false. One of two literals has none.
fn find_beside<N: Copy, A: Allocator + Copy>(
    input: &SaturationInput<N, A>,
    clause: &Clause<N>,
    map: &DecisionMap<A>,
    falsified: Literal,
    other: Literal,
) -> Option<Literal>
    requires { IsWatching
        (literals_of (stored_in input.now.learnt.now input.now.lists.now input.now.disjunctions.now) clause.now)
        (falsified ∷ other ∷ []) }
    ensures { result ≡ find (may_watch (values_in map.now) falsified other)
        (literals_of (stored_in input.now.learnt.now input.now.lists.now input.now.disjunctions.now) clause.now) }
{
    if has_two_literals(input, clause) {
        return None;
    }
    clause.find_literal(
        input.learnt,
        input.lists,
        input.disjunctions,
        |literal| literal != other && literal != falsified && !is_false(map, literal),
    )
}

/// Whether the clause is of a kind that has two literals, or a learnt one that has.
fn has_two_literals<N: Copy, A: Allocator + Copy>(
    input: &SaturationInput<N, A>,
    clause: &Clause<N>,
) -> bool
    ensures { result ≡ true → length (literals_of
        (stored_in input.now.learnt.now input.now.lists.now input.now.disjunctions.now) clause.now) ≡ 2 }
{
    match clause {
        Clause::Learnt(id) => id.to_index() < input.learnt.len() && input.learnt[*id].len() == 2,
        _ => clause.is_binary(),
    }
}

/// Adds the entry that makes the last literal of a unit clause true.
pub(crate) fn assign_implied<N: Copy, A: Allocator + Copy>(
    input: &SaturationInput<N, A>,
    id: ClauseId,
    literal: Literal,
    trail: &mut DecisionTracker<A>,
) -> Result<(), StoreError>
    requires is_unit { is_unit (val trail.old.entries) (literals_at input.now id) literal ≡ true }
    ensures implied { HasImplied (literals_at input.now) input.now.level trail.old trail.new }
    ensures ok { OnOk result (is_true_literal (val trail.new.entries) literal ≡ true) }
    ensures grown { OnOk result (length trail.old.entries < length trail.new.entries) }
    ensures err { OnErr result (trail.new ≡ trail.old) }
    ensures memory { IfErr result (λ e. e ≡ OutOfMemory) }
{
    let decision = Decision::new(literal.variable(), literal.satisfying_value(), id);
    trail.push(decision, input.level)?;
    Ok(())
}

/// Whether the literal is true.
pub(crate) fn is_true<A: Allocator + Copy>(map: &DecisionMap<A>, literal: Literal) -> bool
    ensures { result ≡ is_true_literal (values_in map.now) literal }
{
    literal.eval(map) == Some(true)
}

/// Whether the literal is false.
pub(crate) fn is_false<A: Allocator + Copy>(map: &DecisionMap<A>, literal: Literal) -> bool
    ensures { result ≡ is_false_literal (values_in map.now) literal }
{
    literal.eval(map) == Some(false)
}
