//! The group of a key, made in the counters.
ghost use Rattle.std.specs.Prelude.{◌≡◌, ◌+◌, length, IfOk, OnOk, OnErr, IfErr};
ghost use Rattle.typed_ids.specs.declared.error.StoreError.TheVariants.{OutOfMemory};
ghost use Rattle.decisions.specs.Decisions.{values_in};
ghost use Rattle.decisions.specs.Literals.{is_false_literal};
ghost use Rattle.clause_counters.specs.GroupedClauses.{AddsGroup};
ghost use Rattle.falsified_clauses.specs.GroupKeys.{literals_of, IsKnown};

use crate::group_key::GroupKey;
use clause_counters::ClauseCounters;
use clauses::Disjunction;
use decisions::{DecisionMap, Literal};
use id_storage::Arena;
use providers::RequirementMap;
use std::alloc::Allocator;
use typed_ids::{DisjunctionId, StoreError, VariableId};

/// Adds the group of a key, and answers its number.
pub(crate) fn add_key_group<A: Allocator + Copy>(
    counters: &mut ClauseCounters<A>,
    key: GroupKey,
    lists: &RequirementMap<Vec<Vec<VariableId, A>, A>, A>,
    disjunctions: &Arena<DisjunctionId, Disjunction<A>, A>,
    values: &DecisionMap<A>,
) -> Result<u32, StoreError>
    requires known { IsKnown lists.now disjunctions.now key }
    ensures ok { IfOk result (λ group. AddsGroup counters.old (literals_of lists.now disjunctions.now key)
        (is_false_literal (values_in values.now)) group counters.new) }
    ensures number { IfOk result (λ group. group ≡ length counters.old.groups) }
    ensures groups { OnOk result (length counters.new.groups ≡ length counters.old.groups + 1) }
    ensures err { OnErr result (counters.new ≡ counters.old) }
    ensures memory { IfErr result (λ e. e ≡ OutOfMemory) }
{
    match key {
        GroupKey::Parent(parent) => counters.add_group(&[Literal::new(parent, true)], values),
        GroupKey::Condition(disjunction) => {
            counters.add_group(disjunctions[disjunction].literals.as_slice(), values)
        }
        GroupKey::Rows(requirement) => {
            counters.add_row_group(lists[requirement].as_slice(), values)
        }
    }
}
