//! What a line names comes into the pool, and gets ids.
ghost use Rattle.std.specs.Prelude.{◌≡◌, ◌<◌, [], ◌∷◌, ◌++◌, IfOk, OnOk, Some, List, length, map, slice_get};
ghost use Rattle.std.specs.List.{AllZip};
ghost use Rattle.index_text.specs.Plain.{plain_set, plain_sets, plain_need};
ghost use Rattle.index_text.specs.Sets.{SetText};
ghost use Rattle.resolvo_pool.specs.Pool.{IsLater, IsMadeBelow};
ghost use Rattle.example_index.specs.Listed.{with_bytes};
ghost use Rattle.example_index.specs.Meaning.{IsNamed, IsSet, IsUnion, IsCondition, IsConditionOr, IsNeed, IsPushed};

use crate::range::VersionRange;
use index_text::{Need, Set, Sets};
use resolvo_ids::{ConditionId, NameId, StoreError, StringId, VersionSetId};
use resolvo_pool::{Condition, ConditionalRequirement, LogicalOperator, Pool, Requirement};
use std::alloc::Global;

/// The pool of an index: names and versions, ranges, conditions, and reasons.
pub(crate) type Ids = Pool<VersionRange>;

/// A package's name.
pub(crate) fn intern_name(alloc: Global, pool: &mut Ids, name: &str) -> Result<NameId, StoreError>
    ensures is { IfOk result (λ id. IsNamed (with_bytes pool.new) id name.now) }
    ensures later { IsLater pool.old pool.new }
    ensures solvables { pool.new.solvables ≡ pool.old.solvables }
{
    match pool.find_package_name(name) {
        Some(id) => Ok(id),
        None => intern_new_name(alloc, pool, name),
    }
}

/// The name of a package that wasn't named so far.
fn intern_new_name(alloc: Global, pool: &mut Ids, name: &str) -> Result<NameId, StoreError>
    ensures is { IfOk result (λ id. IsNamed (with_bytes pool.new) id name.now) }
    ensures later { IsLater pool.old pool.new }
    ensures solvables { pool.new.solvables ≡ pool.old.solvables }
{
    let name = String::from_str(alloc, name)?;
    match pool.intern_package_name(name) {
        Ok(id) => Ok(id),
        Err(refused) => Err(StoreError::from(refused)),
    }
}

/// A reason.
pub(crate) fn intern_reason(
    alloc: Global,
    pool: &mut Ids,
    reason: &str,
) -> Result<StringId, StoreError>
    ensures is { IfOk result (λ id. slice_get pool.new.strings id.0 ≡ Some reason.now) }
    ensures later { IsLater pool.old pool.new }
    ensures solvables { pool.new.solvables ≡ pool.old.solvables }
{
    let reason = String::from_str(alloc, reason)?;
    match pool.intern_string(reason) {
        Ok(id) => Ok(id),
        Err(refused) => Err(StoreError::from(refused)),
    }
}

/// A version set of a package.
fn intern_set(alloc: Global, pool: &mut Ids, set: &Set<'_>) -> Result<VersionSetId, StoreError>
    ensures is { IfOk result (λ id. IsSet (with_bytes pool.new) id (plain_set set.now)) }
    ensures later { IsLater pool.old pool.new }
    ensures solvables { pool.new.solvables ≡ pool.old.solvables }
{
    let name = intern_name(alloc, pool, set.name)?;
    let range = VersionRange {
        low: set.low,
        high: set.high,
    };
    match pool.intern_version_set(name, range) {
        Ok(id) => Ok(id),
        Err(refused) => Err(StoreError::from(refused)),
    }
}

/// The sets of a union.
#[tactic(auto, using(crate::proofs::Later::later_twice))]
fn intern_union(alloc: Global, pool: &mut Ids, sets: &Sets<'_>) -> Result<Requirement, StoreError>
    ensures is { IfOk result (λ union. IsUnion (with_bytes pool.new) union (plain_sets sets.now)) }
    ensures later { IsLater pool.old pool.new }
    ensures solvables { pool.new.solvables ≡ pool.old.solvables }
{
    let first = intern_set(alloc, pool, &sets.first)?;
    if sets.others.is_empty() {
        return Ok(Requirement::Single(first));
    }
    let others = intern_sets(alloc, pool, &sets.others)?;
    let union = pool.intern_version_set_union(first, &others)?;
    Ok(Requirement::Union(union))
}

/// Version sets.
fn intern_sets(
    alloc: Global,
    pool: &mut Ids,
    sets: &[Set<'_>],
) -> Result<Vec<VersionSetId>, StoreError>
    ensures are { IfOk result (λ ids. AllZip (IsSet (with_bytes pool.new)) ids.items (map plain_set sets.now)) }
    ensures later { IsLater pool.old pool.new }
    ensures solvables { pool.new.solvables ≡ pool.old.solvables }
{
    let mut ids = Vec::new(alloc);
    for set in sets {
        let id = intern_set(alloc, pool, set)?;
        ids.push(id)?;
    }
    Ok(ids)
}

/// Sets that hold together.
fn intern_together(
    alloc: Global,
    pool: &mut Ids,
    sets: &Sets<'_>,
) -> Result<ConditionId, StoreError>
    ensures is { IfOk result (λ id. IsCondition (with_bytes pool.new) id (plain_sets sets.now ∷ [])) }
    ensures here { IfOk result (λ id. id < length pool.new.conditions) }
    ensures later { IsLater pool.old pool.new }
    ensures solvables { pool.new.solvables ≡ pool.old.solvables }
{
    let mut condition = intern_leaf(alloc, pool, &sets.first)?;
    for set in &sets.others {
        condition = intern_both(alloc, pool, condition, set)?;
    }
    Ok(condition)
}

/// That a condition of one list holds, and a set with it.
fn intern_both(
    alloc: Global,
    pool: &mut Ids,
    condition: ConditionId,
    set: &Set<'_>,
) -> Result<ConditionId, StoreError>
    requires { condition < length pool.old.conditions }
    ensures is { IfOk result (λ id. (sets : List SetText) → IsCondition (with_bytes pool.old) condition (sets ∷ []) →
        IsCondition (with_bytes pool.new) id ((sets ++ plain_set set.now ∷ []) ∷ [])) }
    ensures here { IfOk result (λ id. id < length pool.new.conditions) }
    ensures later { IsLater pool.old pool.new }
    ensures solvables { pool.new.solvables ≡ pool.old.solvables }
{
    let other = intern_leaf(alloc, pool, set)?;
    intern_said(
        pool,
        Condition::Binary(LogicalOperator::And, condition, other),
    )
}

/// That a condition holds, or all sets of a list.
fn intern_either(
    alloc: Global,
    pool: &mut Ids,
    condition: ConditionId,
    sets: &Sets<'_>,
) -> Result<ConditionId, StoreError>
    requires { condition < length pool.old.conditions }
    ensures is { IfOk result (λ id. (lists : List (List SetText)) → IsCondition (with_bytes pool.old) condition lists →
        IsCondition (with_bytes pool.new) id (lists ++ plain_sets sets.now ∷ [])) }
    ensures here { IfOk result (λ id. id < length pool.new.conditions) }
    ensures later { IsLater pool.old pool.new }
    ensures solvables { pool.new.solvables ≡ pool.old.solvables }
{
    let other = intern_together(alloc, pool, sets)?;
    intern_said(
        pool,
        Condition::Binary(LogicalOperator::Or, condition, other),
    )
}

/// A condition.
fn intern_said(pool: &mut Ids, condition: Condition) -> Result<ConditionId, StoreError>
    requires { IsMadeBelow pool.old (length pool.old.conditions) condition }
    ensures is { IfOk result (λ id. slice_get pool.new.conditions id ≡ Some condition) }
    ensures here { IfOk result (λ id. id < length pool.new.conditions) }
    ensures later { IsLater pool.old pool.new }
    ensures solvables { pool.new.solvables ≡ pool.old.solvables }
{
    pool.intern_condition(condition)
}

/// A set, as a condition.
fn intern_leaf(alloc: Global, pool: &mut Ids, set: &Set<'_>) -> Result<ConditionId, StoreError>
    ensures is { IfOk result (λ id. IsCondition (with_bytes pool.new) id ((plain_set set.now ∷ []) ∷ [])) }
    ensures here { IfOk result (λ id. id < length pool.new.conditions) }
    ensures later { IsLater pool.old pool.new }
    ensures solvables { pool.new.solvables ≡ pool.old.solvables }
{
    let set = intern_set(alloc, pool, set)?;
    intern_said(pool, Condition::Requirement(set))
}

/// That the sets of one of these lists hold; no condition if there is none.
fn intern_condition(
    alloc: Global,
    pool: &mut Ids,
    lists: &[Sets<'_>],
) -> Result<Option<ConditionId>, StoreError>
    ensures is { IfOk result (λ id. IsConditionOr (with_bytes pool.new) id (map plain_sets lists.now)) }
    ensures later { IsLater pool.old pool.new }
    ensures solvables { pool.new.solvables ≡ pool.old.solvables }
{
    match lists {
        [] => Ok(None),
        [first, others @ ..] => Ok(Some(intern_alternatives(alloc, pool, first, others)?)),
    }
}

/// That the sets of the first list hold, or those of another one.
fn intern_alternatives(
    alloc: Global,
    pool: &mut Ids,
    first: &Sets<'_>,
    others: &[Sets<'_>],
) -> Result<ConditionId, StoreError>
    ensures is { IfOk result (λ id.
        IsCondition (with_bytes pool.new) id (plain_sets first.now ∷ map plain_sets others.now)) }
    ensures later { IsLater pool.old pool.new }
    ensures solvables { pool.new.solvables ≡ pool.old.solvables }
{
    let mut condition = intern_together(alloc, pool, first)?;
    for sets in others {
        condition = intern_either(alloc, pool, condition, sets)?;
    }
    Ok(condition)
}

/// Adds what is needed.
pub(crate) fn add_need(
    alloc: Global,
    pool: &mut Ids,
    needs: &mut Vec<ConditionalRequirement>,
    need: &Need<'_>,
) -> Result<(), StoreError>
    ensures is { OnOk result (IsPushed needs.old.items needs.new.items
        (λ conditional. IsNeed (with_bytes pool.new) conditional (plain_need need.now))) }
    ensures later { IsLater pool.old pool.new }
    ensures solvables { pool.new.solvables ≡ pool.old.solvables }
{
    let requirement = intern_union(alloc, pool, &need.union)?;
    let condition = intern_condition(alloc, pool, &need.condition)?;
    Ok(needs.push(ConditionalRequirement {
        condition,
        requirement,
    })?)
}

/// Adds a set that is limited to.
pub(crate) fn add_limit(
    alloc: Global,
    pool: &mut Ids,
    limits: &mut Vec<VersionSetId>,
    set: &Set<'_>,
) -> Result<(), StoreError>
    ensures is { OnOk result (IsPushed limits.old.items limits.new.items
        (λ id. IsSet (with_bytes pool.new) id (plain_set set.now))) }
    ensures later { IsLater pool.old pool.new }
    ensures solvables { pool.new.solvables ≡ pool.old.solvables }
{
    let id = intern_set(alloc, pool, set)?;
    Ok(limits.push(id)?)
}
