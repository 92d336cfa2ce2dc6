//! Versions, version sets and conditions as values.
ghost use Rattle.std.specs.Prelude.{◌≡◌, ◌==◌, IfOk};
ghost use Rattle.std.specs.List.{after_first, before_first};
ghost use Rattle.serde_json.specs.View.{view};
ghost use Rattle.example_json.specs.Values.{condition_data, if_data, joined, parent_data, parted, set_data, sets_data};
ghost use Rattle.example_json.specs.Values.{sets_of_data, string_data, version_data, versions_data};

use example_answers::{write_set, write_solvable};
use resolvo_ids::{ConditionId, StoreError, StringId, VersionSetId};
use resolvo_pool::{Condition, Interner, LogicalOperator, Requirement};
use serde_json::{Map, Value, json, push};
use std::alloc::{AllocError, Global};

pub(crate) type Made = Result<Value, StoreError>;

/// The members of an object.
pub(crate) type Members = Map<String, Value>;

/// How deep a condition is spelled out. What is joined deeper is two dots.
const DEPTH: usize = 40;

/// Makes values of an interner's ids.
#[derive(Drop)]
pub(crate) struct Values<'i, I: Interner> {
    pub(crate) interner: &'i I,
    /// The allocator of values, and that of the interner's texts.
    pub(crate) alloc: Global,
    pub(crate) texts: I::Alloc,
}

impl<I: Interner> Values<'_, I> {
    /// These versions, in turn.
    pub(crate) fn versions(&self, solvables: &[I::SolvableId]) -> Made
        ensures { IfOk result (λ value. view value ≡
            versions_data (I.universe self.now.interner.now) (I.texts self.now.interner.now) solvables.now) }
    {
        let mut values = Vec::new(self.alloc);
        for solvable in solvables {
            push(&mut values, self.version(*solvable)?)?;
        }
        Ok(Value::Array(values))
    }

    /// A version: its package's name, and what is behind that.
    pub(crate) fn version(&self, solvable: I::SolvableId) -> Made
        ensures { IfOk result (λ value. view value ≡
            version_data (I.universe self.now.interner.now) (I.texts self.now.interner.now) solvable) }
    {
        let mut text = String::new(self.texts);
        write_solvable(self.interner, solvable, &mut text)?;
        Ok(parted(self.alloc, "version", text.as_str())?)
    }

    /// Who needs something; null if the request does.
    pub(crate) fn parent(&self, parent: Option<I::SolvableId>) -> Made
        ensures { IfOk result (λ value. view value ≡
            parent_data (I.universe self.now.interner.now) (I.texts self.now.interner.now) parent) }
    {
        match parent {
            Some(solvable) => self.version(solvable),
            None => Ok(Value::Null),
        }
    }

    /// The version sets of a requirement, of which one is enough. Of one that isn't known there are none.
    pub(crate) fn sets(&self, requirement: Requirement) -> Made
        ensures { IfOk result (λ value. view value ≡
            sets_of_data (I.universe self.now.interner.now) (I.texts self.now.interner.now) requirement) }
    {
        match requirement {
            Requirement::Single(set) if self.interner.knows_version_set(set) => {
                self.each_set(&[set])
            }
            Requirement::Union(union) if self.interner.knows_union(union) => {
                self.each_set(self.interner.version_sets_in_union(union))
            }
            _ => Ok(Value::Array(Vec::new(self.alloc))),
        }
    }

    /// These version sets, in turn.
    fn each_set(&self, sets: &[VersionSetId]) -> Made
        ensures { IfOk result (λ value. view value ≡
            sets_data (I.universe self.now.interner.now) (I.texts self.now.interner.now) sets.now) }
    {
        let mut values = Vec::new(self.alloc);
        for set in sets {
            push(&mut values, self.set(*set)?)?;
        }
        Ok(Value::Array(values))
    }

    /// A version set: its package's name, and what is behind that.
    pub(crate) fn set(&self, set: VersionSetId) -> Made
        ensures { IfOk result (λ value. view value ≡
            set_data (I.universe self.now.interner.now) (I.texts self.now.interner.now) set) }
    {
        let mut text = String::new(self.texts);
        write_set(self.interner, set, &mut text)?;
        Ok(parted(self.alloc, "versions", text.as_str())?)
    }

    /// The condition of a need; null if there is none.
    pub(crate) fn need_condition(&self, condition: Option<ConditionId>) -> Made
        ensures { IfOk result (λ value. view value ≡
            if_data (I.universe self.now.interner.now) (I.texts self.now.interner.now) condition) }
    {
        match condition {
            Some(condition) => self.condition(condition, DEPTH),
            None => Ok(Value::Null),
        }
    }

    /// A condition, spelled out to this depth: a version set, or what it joins; null if it isn't known.
    #[tactic(auto, using(crate::proofs::ConditionLemmas::too_deep))]
    fn condition(&self, condition: ConditionId, depth: usize) -> Made
        ensures { IfOk result (λ value. view value ≡
            condition_data (I.universe self.now.interner.now) (I.texts self.now.interner.now) depth condition) }
    {
        if depth == 0 {
            return Ok(Value::try_from_str(self.alloc, "..")?);
        }
        if !self.interner.knows_condition(condition) {
            return Ok(Value::Null);
        }
        match self.interner.resolve_condition(condition) {
            Condition::Requirement(set) => self.set(set),
            Condition::Binary(operator, left, right) => {
                let left = self.condition(left, depth - 1)?;
                let right = self.condition(right, depth - 1)?;
                Ok(joined(self.alloc, operator, left, right)?)
            }
        }
    }

    /// A string; an empty one if it isn't known.
    pub(crate) fn string(&self, string: StringId) -> Made
        ensures { IfOk result (λ value. view value ≡
            string_data (I.universe self.now.interner.now) (I.texts self.now.interner.now) string) }
    {
        let mut text = String::new(self.texts);
        if self.interner.knows_string(string) {
            self.interner.display_string(string, &mut text)?;
        }
        Ok(Value::try_from_str(self.alloc, text.as_str())?)
    }
}

/// Two conditions that are joined.
fn joined(
    alloc: Global,
    operator: LogicalOperator,
    left: Value,
    right: Value,
) -> Result<Value, AllocError>
    ensures { IfOk result (λ value. view value ≡ joined operator (view left) (view right)) }
{
    match operator {
        LogicalOperator::And => json!(in alloc; {"and": [left, right]}),
        LogicalOperator::Or => json!(in alloc; {"or": [left, right]}),
    }
}

/// A text in two parts: the name before its first blank, and what is behind that, which has this key.
fn parted(alloc: Global, key: &str, text: &str) -> Result<Value, AllocError>
    ensures { IfOk result (λ value. view value ≡ parted key.now text.now) }
{
    json!(in alloc; {"name": before_blank(text), (key): behind_blank(text)})
}

/// What is before the first blank.
fn before_blank(text: &str) -> &str
    ensures { result.now ≡ before_first (λ byte. byte == 32) text.now }
{
    match text.split_once(' ') {
        Some((before, _)) => before,
        None => text,
    }
}

/// What is behind the first blank.
fn behind_blank(text: &str) -> &str
    ensures { result.now ≡ after_first (λ byte. byte == 32) text.now }
{
    match text.split_once(' ') {
        Some((_, behind)) => behind,
        None => "",
    }
}
