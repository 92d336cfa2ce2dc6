//! What the rows of a requirement come to.
//!
//! A row is a candidate of a requirement: a variable, in the list of one of the requirement's version sets.
ghost use Rattle.std.specs.Prelude.{◌≡◌, ◌+◌, ◌<◌, ◌^◌, true, map, flat_map, length};
ghost use Rattle.resolvo_queue.specs.Types.{knows_requirement, values_in};
ghost use Rattle.resolvo_queue.specs.Rows.{list_rows, rows, loaded_rows, all_false, candidates};
ghost use Rattle.resolvo_queue.specs.Rows.States.{state_of, counted, with_row, with_rows};

use crate::offer::Frontier;
use decisions::DecisionMap;
use providers::{Interner, Requirement, RequirementMap};
use std::alloc::Allocator;
use typed_ids::{VariableId, VersionSetId};

/// A row is true, or else there is an undecided one, or else all are false.
#[derive(Clone, Copy, Debug, PartialEq, Eq)]
pub(crate) enum RowState {
    Satisfied,
    Undecided(Frontier),
    AllFalse,
}

/// The state once there is a row more, whose variable has this value.
fn with_row(
    state: RowState,
    value: Option<bool>,
    set: VersionSetId,
    variable: VariableId,
) -> RowState
    requires { counted state + 1 < 2 ^ 64 }
    ensures { result ≡ with_row state value (record { set = set; variable = variable }) }
{
    match (value, state) {
        (Some(true), _) => RowState::Satisfied,
        (Some(false), _) => state,
        (None, RowState::Satisfied) => RowState::Satisfied,
        (None, RowState::AllFalse) => RowState::Undecided(Frontier {
            variable,
            set,
            count: 1,
        }),
        (None, RowState::Undecided(mut frontier)) => {
            if set == frontier.set {
                frontier.count += 1;
            }
            RowState::Undecided(frontier)
        }
    }
}

/// The state once there are the rows of one list more, in one walk that ends at the first true variable.
fn walk<A: Allocator + Copy>(
    decisions: &DecisionMap<A>,
    mut state: RowState,
    set: VersionSetId,
    list: &[VariableId],
) -> RowState
    requires { counted state + length list.now < 2 ^ 64 }
    ensures { result ≡ with_rows (values_in decisions.now) state (list_rows set list.now) }
{
    for variable in list {
        state = with_row(state, decisions.value(*variable), set, *variable);
        if let RowState::Satisfied = state {
            return RowState::Satisfied;
        }
    }
    state
}

/// The state of version sets with their lists, one after another. The walk ends at the first true variable.
fn rows_state<A: Allocator + Copy>(
    decisions: &DecisionMap<A>,
    sets: &[VersionSetId],
    lists: &[Vec<VariableId, A>],
) -> RowState
    requires { length (flat_map (λ l. l.items) lists.now) < 2 ^ 40 }
    ensures { result ≡ state_of (values_in decisions.now) (rows sets.now (map (λ l. l.items) lists.now)) }
{
    let mut state = RowState::AllFalse;
    let mut left = sets;
    for list in lists {
        let Some((set, others)) = left.split_first() else {
            return state;
        };
        state = walk(decisions, state, *set, list);
        if let RowState::Satisfied = state {
            return RowState::Satisfied;
        }
        left = others;
    }
    state
}

/// The state of a requirement by the lists that are loaded. What isn't loaded has no rows.
pub(crate) fn requirement_state<I: Interner, A: Allocator + Copy>(
    decisions: &DecisionMap<A>,
    lists: &RequirementMap<Vec<Vec<VariableId, A>, A>, A>,
    requirement: Requirement,
    interner: &I,
) -> RowState
    requires known { knows_requirement (I.universe interner.now) requirement ≡ true }
    requires few { length (candidates lists.now requirement) < 2 ^ 40 }
    ensures { result ≡ state_of (values_in decisions.now)
        (loaded_rows (I.universe interner.now) lists.now requirement) }
{
    let sets = requirement.version_sets(interner);
    match lists.get(requirement) {
        Some(lists) => rows_state(decisions, sets.as_slice(), lists),
        None => RowState::AllFalse,
    }
}

/// Whether all rows of a requirement are false, by the lists that are loaded. What isn't loaded has no rows. Reads the
/// rows up to the first that isn't false.
pub(crate) fn are_all_false<I: Interner, A: Allocator + Copy>(
    decisions: &DecisionMap<A>,
    lists: &RequirementMap<Vec<Vec<VariableId, A>, A>, A>,
    requirement: Requirement,
    interner: &I,
) -> bool
    requires { knows_requirement (I.universe interner.now) requirement ≡ true }
    ensures { result ≡ all_false (values_in decisions.now)
        (loaded_rows (I.universe interner.now) lists.now requirement) }
{
    let sets = requirement.version_sets(interner);
    match lists.get(requirement) {
        Some(lists) => are_rows_false(decisions, sets.as_slice(), lists),
        None => true,
    }
}

/// Whether the rows of version sets with their lists are all false.
fn are_rows_false<A: Allocator + Copy>(
    decisions: &DecisionMap<A>,
    sets: &[VersionSetId],
    lists: &[Vec<VariableId, A>],
) -> bool
    ensures { result ≡ all_false (values_in decisions.now) (rows sets.now (map (λ l. l.items) lists.now)) }
{
    lists
        .iter()
        .take(sets.len())
        .all(|list| decisions.are_false(list))
}
