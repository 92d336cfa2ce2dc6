//! Routing variables whose values may have changed.
ghost use Rattle.std.specs.Prelude.{◌≡◌, [], ◌∷◌, true, is_some, OnOk, IfErr};
ghost use Rattle.resolvo_queue.specs.Types.{OutOfMemory, values_in};
ghost use Rattle.resolvo_queue.specs.Occurrences.{listing};
ghost use Rattle.resolvo_queue.specs.Rows.ByVariable.{list_at};
ghost use Rattle.resolvo_queue.specs.Parts.{GrowsBy, HaveNumbers, IsOfClause};
ghost use Rattle.resolvo_queue.specs.Routing.{AreUnknown, ForgetsAmong, OnlyForgets, Routes, Unrouted, WakesForgotten};
ghost use Rattle.resolvo_queue.specs.Routing.{NotesConditions, variables_of, ways};
ghost use Rattle.resolvo_queue.specs.Routing.Noted.{AreNoted, KeepsNoted};

use crate::clause_index::ClauseIndex;
use crate::noted_conditions::NotedConditions;
use crate::queued_clauses::QueuedClauses;
use crate::requirements::{Requirements, Walk};
use crate::row_reader::Occurrences;
use crate::tracked_clause::TrackedClause;
use crate::waking::wake_clauses;
use decisions::{Decision, DecisionMap};
use providers::Requirement;
use std::alloc::Allocator;
use typed_ids::{StoreError, VariableId};

/// What variables are routed by: the woken clauses, who finds clauses, the requirements with a variable in a row, and
/// the values of variables.
#[derive(Drop)]
pub(crate) struct Routing<'r, A: Allocator + Copy> {
    pub(crate) clauses: &'r [TrackedClause],
    pub(crate) index: &'r ClauseIndex<A>,
    pub(crate) occurrences: &'r Occurrences<A>,
    pub(crate) map: &'r DecisionMap<A>,
}

/// Forgets what is known of a requirement's rows. If they were known to have no frontier, its clauses may be eligible
/// again.
fn forget<A: Allocator + Copy>(
    queued: &mut QueuedClauses<A>,
    requirements: &mut Requirements<A>,
    requirement: Requirement,
    routing: &Routing<'_, A>,
) -> Result<(), StoreError>
    requires { HaveNumbers routing.now.clauses.now }
    ensures grows { GrowsBy (IsOfClause routing.now.clauses.now) queued.old queued.new }
    ensures only { OnlyForgets requirements.old requirements.new }
    ensures others { ForgetsAmong (requirement ∷ []) requirements.old requirements.new }
    ensures unknown { OnOk result (AreUnknown (requirement ∷ []) requirements.new) }
    ensures woken { OnOk result (WakesForgotten (ways routing.now) requirements.old requirements.new queued.new) }
    ensures memory { IfErr result (λ e. e ≡ OutOfMemory) }
{
    let place = match requirements.place(requirement) {
        None => return Ok(()),
        Some(place) => place,
    };
    match requirements.known(place) {
        Walk::Unknown => Ok(()),
        Walk::Known(Some(_)) => {
            requirements.forget(place);
            Ok(())
        }
        Walk::Known(None) => {
            wake_clauses(
                queued,
                routing.clauses,
                requirements.clauses(place),
                routing.map,
            )?;
            requirements.forget(place);
            Ok(())
        }
    }
}

/// Forgets what is known of these requirements' rows.
fn forget_all<A: Allocator + Copy>(
    queued: &mut QueuedClauses<A>,
    requirements: &mut Requirements<A>,
    listed: &[Requirement],
    routing: &Routing<'_, A>,
) -> Result<(), StoreError>
    requires { HaveNumbers routing.now.clauses.now }
    ensures grows { GrowsBy (IsOfClause routing.now.clauses.now) queued.old queued.new }
    ensures only { OnlyForgets requirements.old requirements.new }
    ensures others { ForgetsAmong listed.now requirements.old requirements.new }
    ensures unknown { OnOk result (AreUnknown listed.now requirements.new) }
    ensures woken { OnOk result (WakesForgotten (ways routing.now) requirements.old requirements.new queued.new) }
    ensures memory { IfErr result (λ e. e ≡ OutOfMemory) }
{
    for requirement in listed {
        forget(queued, requirements, *requirement, routing)?;
    }
    Ok(())
}

/// Notes the conditions in which the variable stands, if it has a value: a condition is met only if each of its
/// variables has one. So a condition with many literals, or with many clauses, is looked at once for all that changed.
fn note_conditions<A: Allocator + Copy>(
    noted: &mut NotedConditions<A>,
    variable: VariableId,
    routing: &Routing<'_, A>,
) -> Result<(), StoreError>
    ensures kept { KeepsNoted noted.old noted.new }
    ensures noted { OnOk result (is_some (values_in routing.now.map.now variable) ≡ true →
        AreNoted (list_at routing.now.index.now.conditions variable) noted.new) }
    ensures memory { IfErr result (λ e. e ≡ OutOfMemory) }
{
    if routing.map.value(variable).is_none() {
        return Ok(());
    }
    let disjunctions = routing.index.conditions.at(variable);
    for disjunction in disjunctions {
        noted.note(*disjunction)?;
    }
    Ok(())
}

/// Wakes the clauses of which the variable is the parent. Notes the conditions in which it stands. Forgets what is
/// known of the requirements that have it in a row.
fn route<A: Allocator + Copy>(
    queued: &mut QueuedClauses<A>,
    noted: &mut NotedConditions<A>,
    requirements: &mut Requirements<A>,
    variable: VariableId,
    routing: &Routing<'_, A>,
) -> Result<(), StoreError>
    requires { HaveNumbers routing.now.clauses.now }
    ensures grows { GrowsBy (IsOfClause routing.now.clauses.now) queued.old queued.new }
    ensures only { OnlyForgets requirements.old requirements.new }
    ensures others { Unrouted (listing routing.now.occurrences.now) (variable ∷ []) requirements.old requirements.new }
    ensures kept { KeepsNoted noted.old noted.new }
    ensures ok { let variables = variable ∷ [] in
        OnOk result (Routes (ways routing.now) variables requirements.old requirements.new queued.old queued.new) }
    ensures noted { OnOk result (NotesConditions (ways routing.now) (variable ∷ []) noted.new) }
    ensures memory { IfErr result (λ e. e ≡ OutOfMemory) }
{
    let numbers = routing.index.by_parent.at(variable);
    wake_clauses(queued, routing.clauses, numbers, routing.map)?;
    note_conditions(noted, variable, routing)?;
    let listed = routing.occurrences.listing(variable);
    forget_all(queued, requirements, listed, routing)
}

/// Routes the variables of these decisions.
pub(crate) fn route_all<A: Allocator + Copy>(
    queued: &mut QueuedClauses<A>,
    noted: &mut NotedConditions<A>,
    requirements: &mut Requirements<A>,
    decisions: &[Decision],
    routing: &Routing<'_, A>,
) -> Result<(), StoreError>
    requires { HaveNumbers routing.now.clauses.now }
    ensures grows { GrowsBy (IsOfClause routing.now.clauses.now) queued.old queued.new }
    ensures only { OnlyForgets requirements.old requirements.new }
    ensures others { let variables = variables_of decisions.now in
        Unrouted (listing routing.now.occurrences.now) variables requirements.old requirements.new }
    ensures kept { KeepsNoted noted.old noted.new }
    ensures ok { let variables = variables_of decisions.now in
        OnOk result (Routes (ways routing.now) variables requirements.old requirements.new queued.old queued.new) }
    ensures noted { OnOk result (NotesConditions (ways routing.now) (variables_of decisions.now) noted.new) }
    ensures memory { IfErr result (λ e. e ≡ OutOfMemory) }
{
    for decision in decisions {
        route(queued, noted, requirements, decision.variable, routing)?;
    }
    Ok(())
}
