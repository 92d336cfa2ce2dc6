//! Requires clauses with their counters.
ghost use Rattle.std.specs.Prelude.{◌≡◌, ◌<◌, [], ◌∷◌, ◌++◌, List, Bool, length};
ghost use Rattle.std.specs.Prelude.{IfOk, IfErr, OnOk, OnErr, IfSome, IsSome};
ghost use Rattle.std.specs.Map.{lookup};
ghost use Rattle.typed_ids.specs.declared.error.StoreError.TheVariants.{OutOfMemory};
ghost use Rattle.providers.specs.Requirement.{same_requirement};
ghost use Rattle.decisions.specs.Literals.{Lit};
ghost use Rattle.clauses.specs.declared.disjunction.Disjunction.{Disjunction};
ghost use Rattle.falsified_clauses.specs.declared.demand.Demand.{Demand};
ghost use Rattle.falsified_clauses.specs.Clauses.{PlacedDemand, Lists, Counted, counted, counted_under};
ghost use Rattle.falsified_clauses.specs.Clauses.{with_clause, with_false, with_undecided};
ghost use Rattle.falsified_clauses.specs.GroupKeys.{IsKnown, keys_of, number_in, KeepsNumbers, AddsOnly};
ghost use Rattle.falsified_clauses.specs.GroupKeys.{condition_number, HasConditionGroup, IsConditionKey};
ghost use Rattle.std.specs.List.{Contains};
ghost use Rattle.falsified_clauses.specs.Falsified.{IsFirstFalsified};
ghost use Rattle.falsified_clauses.specs.Counts.{Counts, KeepsCounts, CanAdd, IsReady};

use crate::clause_groups::ClauseGroups;
use crate::demand::Demand;
use crate::group_index::GroupIndex;
use crate::group_key::GroupKey;
use crate::key_group::add_key_group;
use crate::key_log::KeyLog;
use clause_counters::ClauseCounters;
use clauses::Disjunction;
use decisions::{DecisionMap, Literal};
use id_storage::Arena;
use providers::RequirementMap;
use std::alloc::Allocator;
use std::marker::Model;
use typed_ids::{DisjunctionId, StoreError, VariableId};

/// Requires clauses, counted as literals become false and undecided. They are numbered in the order in which they are
/// added.
#[derive(Drop)]
pub struct FalsifiedClauses<A: Allocator + Copy> {
    /// What each group is of, by the group's number.
    keys: KeyLog,
    /// The number of each key's group.
    index: GroupIndex<A>,
    counters: ClauseCounters<A>,
}

/// The keys of the groups, and what their counters keep.
impl<A: Allocator + Copy> Model for FalsifiedClauses<A> {
    ghost use Rattle.std.specs.Prelude.{◌≡◌, length};
    ghost use Rattle.falsified_clauses.specs.Counts.{KeyedCounters};
    ghost use Rattle.falsified_clauses.specs.GroupIndex.{number_of, FindsKeys};

    ghost Value = { KeyedCounters };

    ghost view = { λ f. record { keys = f.keys.items; counters = f.counters } };

    ghost invariant = { λ f. (length f.counters.groups ≡ length f.keys.items)
        × FindsKeys (number_of f.index) f.keys.items };
}

impl<A: Allocator + Copy> FalsifiedClauses<A> {
    /// No clause. Takes no memory.
    pub fn new(alloc: A) -> Self
        ensures { (lists : Lists A) (disjunctions : List (Disjunction A)) (is_false : Lit → Bool)
            → Counts result (counted lists disjunctions [] is_false) }
    {
        FalsifiedClauses {
            keys: KeyLog::new(),
            index: GroupIndex::new(alloc),
            counters: ClauseCounters::new(alloc),
        }
    }

    /// The groups of a clause, and room for it: then [`FalsifiedClauses::add`] may add it. The groups that it lacks are
    /// made, and no others. The values have to make false what the counters were told is false. Whatever the result,
    /// the clauses are the same. Once all 2^32 - 1 numbers of groups are given out, a new group is out of memory.
    pub fn prepare(
        &mut self,
        clause: Demand,
        lists: &RequirementMap<Vec<Vec<VariableId, A>, A>, A>,
        disjunctions: &Arena<DisjunctionId, Disjunction<A>, A>,
        values: &DecisionMap<A>,
    ) -> Result<ClauseGroups, StoreError>
        requires requirement { IsSome (lookup (same_requirement clause.requirement) lists.now) }
        requires condition { IfSome clause.condition (λ d. d < length disjunctions.now) }
        ensures same { KeepsCounts (counted_under lists.now disjunctions.now values.now) self.old self.new }
        ensures ready { IfOk result (λ groups. (clauses : List PlacedDemand)
            → Counts self.old (counted_under lists.now disjunctions.now values.now clauses)
            → IsReady self.new clause groups) }
        ensures keys { AddsOnly (Contains (keys_of clause)) self.old.keys self.new.keys }
        ensures memory { IfErr result (λ e. e ≡ OutOfMemory) }
    {
        let parent = self.group(GroupKey::Parent(clause.parent), lists, disjunctions, values)?;
        let condition = self.condition_group(clause.condition, lists, disjunctions, values)?;
        let rows = self.group(
            GroupKey::Rows(clause.requirement),
            lists,
            disjunctions,
            values,
        )?;
        self.counters.make_room()?;
        Ok(ClauseGroups {
            parent,
            condition,
            rows,
        })
    }

    /// Adds the clause of which these are the groups, and whose parent has this first clause. Takes no memory.
    pub fn add(&mut self, groups: ClauseGroups, first_of_parent: u32)
        requires { CanAdd self.old groups }
        ensures { (s : Counted A) (clause : Demand) → IsReady self.old clause groups
            → Counts self.old s → Counts self.new (with_clause clause first_of_parent s) }
    {
        match groups.condition {
            None => {
                self.counters
                    .add_clause(&[groups.parent, groups.rows], first_of_parent);
            }
            Some(condition) => {
                self.counters
                    .add_clause(&[groups.parent, condition, groups.rows], first_of_parent);
            }
        }
    }

    /// A literal becomes false. Takes no memory.
    pub fn make_false(&mut self, literal: Literal)
        ensures { (s : Counted A) → Counts self.old s → Counts self.new (with_false literal s) }
    {
        self.counters.make_false(literal);
    }

    /// A literal becomes undecided. Takes no memory.
    pub fn make_undecided(&mut self, literal: Literal)
        ensures { (s : Counted A) → Counts self.old s → Counts self.new (with_undecided literal s) }
    {
        self.counters.make_undecided(literal);
    }

    /// The number of the falsified clause that comes first, `None` if no clause is falsified. Takes no memory.
    pub fn first(&mut self) -> Option<u32>
        ensures same { (s : Counted A) → Counts self.old s → Counts self.new s }
        ensures first { (s : Counted A) → Counts self.old s → IsFirstFalsified s result }
    {
        self.counters.first()
    }

    /// The number of the group of a condition, if there is one.
    fn condition_group(
        &mut self,
        condition: Option<DisjunctionId>,
        lists: &RequirementMap<Vec<Vec<VariableId, A>, A>, A>,
        disjunctions: &Arena<DisjunctionId, Disjunction<A>, A>,
        values: &DecisionMap<A>,
    ) -> Result<Option<u32>, StoreError>
        requires { IfSome condition (λ d. d < length disjunctions.now) }
        ensures same { KeepsCounts (counted_under lists.now disjunctions.now values.now) self.old self.new }
        ensures number { IfOk result (λ number. number ≡ condition_number self.new.keys condition) }
        ensures there { OnOk result (HasConditionGroup self.new.keys condition) }
        ensures others { KeepsNumbers self.old.keys self.new.keys }
        ensures keys { AddsOnly (IsConditionKey condition) self.old.keys self.new.keys }
        ensures memory { IfErr result (λ e. e ≡ OutOfMemory) }
    {
        match condition {
            None => Ok(None),
            Some(disjunction) => {
                let key = GroupKey::Condition(disjunction);
                let group = self.group(key, lists, disjunctions, values)?;
                Ok(Some(group))
            }
        }
    }

    /// The number of a key's group, which is made if there is none.
    fn group(
        &mut self,
        key: GroupKey,
        lists: &RequirementMap<Vec<Vec<VariableId, A>, A>, A>,
        disjunctions: &Arena<DisjunctionId, Disjunction<A>, A>,
        values: &DecisionMap<A>,
    ) -> Result<u32, StoreError>
        requires known { IsKnown lists.now disjunctions.now key }
        ensures same { KeepsCounts (counted_under lists.now disjunctions.now values.now) self.old self.new }
        ensures number { IfOk result (λ group. group ≡ number_in self.new.keys key) }
        ensures there { OnOk result (number_in self.new.keys key < length self.new.keys) }
        ensures others { KeepsNumbers self.old.keys self.new.keys }
        ensures keys { AddsOnly (λ other. other ≡ key) self.old.keys self.new.keys }
        ensures memory { IfErr result (λ e. e ≡ OutOfMemory) }
    {
        if let Some(group) = self.index.number(key) {
            return Ok(group);
        }
        self.add_group(&key, lists, disjunctions, values)
    }

    /// Makes the group of a key that has none, and answers its number.
    fn add_group(
        &mut self,
        key: &GroupKey,
        lists: &RequirementMap<Vec<Vec<VariableId, A>, A>, A>,
        disjunctions: &Arena<DisjunctionId, Disjunction<A>, A>,
        values: &DecisionMap<A>,
    ) -> Result<u32, StoreError>
        requires known { IsKnown lists.now disjunctions.now key.now }
        requires new { number_in self.old.keys key.now ≡ length self.old.keys }
        ensures same { KeepsCounts (counted_under lists.now disjunctions.now values.now) self.old self.new }
        ensures keys { OnOk result (self.new.keys ≡ self.old.keys ++ key.now ∷ []) }
        ensures number { IfOk result (λ group. group ≡ length self.old.keys) }
        ensures refused { OnErr result (self.new.keys ≡ self.old.keys) }
        ensures memory { IfErr result (λ e. e ≡ OutOfMemory) }
    {
        self.index.make_room(*key)?;
        let group = add_key_group(&mut self.counters, *key, lists, disjunctions, values)?;
        self.index.put(*key, group);
        self.keys = self.keys.and(key);
        Ok(group)
    }
}
