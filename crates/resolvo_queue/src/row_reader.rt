//! The one way to the rows of requirements, and which requirements have a variable in a row.
//!
//! A [`RowReader`] hands no row out: it answers a requirement's frontier, and puts the requirement to the variables of
//! its rows. What a decision knows of rows it knows by these two calls: the first puts the requirement to a log, and
//! the second is made once for each.
ghost use Rattle.std.specs.Prelude.{◌≡◌, ◌↔◌, ◌-◌, [], ◌∷◌, ◌++◌, true, if◌then◌else◌, flat_map, length};
ghost use Rattle.std.specs.Prelude.{slice_get, Some, IsTrue, IsSome, IfSome, OnOk, OnErr, IfErr};
ghost use Rattle.resolvo_queue.specs.Types.{lookup, OutOfMemory, same_requirement, values_in};
ghost use Rattle.providers.specs.declared.requirement.Requirement.{Requirement as ARequirement};
ghost use Rattle.resolvo_queue.specs.Occurrences.{GrowsWith, HasAll, is_listed, listing};
ghost use Rattle.resolvo_queue.specs.References.{IsWalkable};
ghost use Rattle.resolvo_queue.specs.Rows.{candidates, frontier, loaded_rows};

use crate::lists_by_variable::ListsByVariable;
use crate::offer::Frontier;
use crate::row_state::{RowState, requirement_state};
use crate::walk_log::WalkLog;
use decisions::DecisionMap;
use providers::{Interner, Requirement, RequirementMap};
use std::alloc::Allocator;
use std::marker::Model;
use typed_ids::{StoreError, VariableId};

/// Reads the rows of requirements. A contract sees the lists, and which requirements were walked.
#[derive(Drop)]
pub struct RowReader<'l, A: Allocator + Copy> {
    lists: &'l RequirementMap<Vec<Vec<VariableId, A>, A>, A>,
    log: WalkLog,
}

impl<'l, A: Allocator + Copy> Model for RowReader<'l, A> {
    ghost use Rattle.resolvo_queue.specs.Occurrences.{Reading};

    ghost Value = { Reading A };

    ghost view = { λ r. record { lists = r.lists.now; walked = r.log.walked } };
}

impl<'l, A: Allocator + Copy> RowReader<'l, A> {
    /// A reader of these lists, one list for each version set of a requirement, that has walked nothing. Takes no
    /// memory.
    pub fn new(lists: &'l RequirementMap<Vec<Vec<VariableId, A>, A>, A>) -> Self
        ensures lists { result.lists ≡ lists.now }
        ensures walked { result.walked ≡ [] }
    {
        RowReader {
            lists,
            log: WalkLog::new(),
        }
    }

    /// The frontier of a requirement's rows: reads them up to the first that is true, else all. Takes no memory.
    #[inline(never)]
    pub fn walk<I: Interner>(
        &mut self,
        requirement: Requirement,
        map: &DecisionMap<A>,
        interner: &I,
    ) -> Option<Frontier>
        requires { IsWalkable (I.universe interner.now) self.old.lists requirement }
        ensures frontier { result ≡ frontier (values_in map.now)
            (loaded_rows (I.universe interner.now) self.old.lists requirement) }
        ensures set { IfSome result (λ f. (I.universe interner.now).knows_set f.set ≡ true) }
        ensures lists { self.new.lists ≡ self.old.lists }
        ensures walked { self.new.walked ≡ self.old.walked ++ requirement ∷ [] }
    {
        self.log = self.log.and(&requirement);
        match requirement_state(map, self.lists, requirement, interner) {
            RowState::Undecided(frontier) => Some(frontier),
            RowState::Satisfied | RowState::AllFalse => None,
        }
    }

    /// Puts a requirement to the variables of its rows, and counts it as listed from then on. Refused, it doesn't count
    /// as listed, though some of the variables may have it.
    pub fn list(
        &self,
        requirement: Requirement,
        occurrences: &mut Occurrences<A>,
    ) -> Result<(), StoreError>
        requires { IsSome (lookup (same_requirement requirement) self.now.lists) }
        ensures grows { GrowsWith requirement (candidates self.now.lists requirement) occurrences.old occurrences.new }
        ensures all { OnOk result (HasAll requirement (candidates self.now.lists requirement) occurrences.new) }
        ensures listed { OnOk result ((r : ARequirement) → is_listed occurrences.new r
            ≡ (if same_requirement r requirement then true else is_listed occurrences.old r)) }
        ensures err { OnErr result (occurrences.new.listed ≡ occurrences.old.listed) }
        ensures memory { IfErr result (λ e. e ≡ OutOfMemory) }
    {
        add_lists(occurrences, requirement, &self.lists[requirement])?;
        occurrences.set_listed(requirement)
    }
}

/// Requirements by the variables of their rows, as [`RowReader::list`] read them.
#[derive(Drop)]
pub struct Occurrences<A: Allocator + Copy> {
    /// The requirements all of whose rows were read.
    listed: RequirementMap<(), A>,
    by_variable: ListsByVariable<Requirement, A>,
}

impl<A: Allocator + Copy> Model for Occurrences<A> {
    ghost use Rattle.std.specs.Map.{keys_of};
    ghost use Rattle.resolvo_queue.specs.Occurrences.{Listed};

    ghost Value = { Listed };

    ghost view = { λ o. record { listed = keys_of o.listed; by_variable = o.by_variable } };
}

impl<A: Allocator + Copy> Occurrences<A> {
    /// No requirement is listed. Takes no memory.
    pub fn new(alloc: A) -> Self
        ensures listed { result.listed ≡ [] }
        ensures by_variable { result.by_variable ≡ [] }
    {
        Occurrences {
            listed: RequirementMap::new(alloc),
            by_variable: ListsByVariable::new(alloc),
        }
    }

    /// All listed requirements that have the variable in a row, and none that hasn't. The order is open; a requirement
    /// whose listing was refused may come, and comes again once it is listed.
    pub fn listing(&self, variable: VariableId) -> &[Requirement]
        ensures { result.now ≡ listing self.now variable }
    {
        self.by_variable.at(variable)
    }

    /// Whether a requirement is listed.
    pub(crate) fn is_listed(&self, requirement: Requirement) -> bool
        ensures { result ≡ is_listed self.now requirement }
    {
        self.listed.get(requirement).is_some()
    }

    /// Puts a requirement to those of a variable, unless it is the last of them: a requirement that has a variable in
    /// many rows comes once.
    fn add(&mut self, variable: VariableId, requirement: Requirement) -> Result<(), StoreError>
        ensures listed { self.new.listed ≡ self.old.listed }
        ensures grows { GrowsWith requirement (variable ∷ []) self.old self.new }
        ensures ok { OnOk result (HasAll requirement (variable ∷ []) self.new) }
        ensures memory { IfErr result (λ e. e ≡ OutOfMemory) }
    {
        if is_last(self.by_variable.at(variable), requirement) {
            return Ok(());
        }
        self.by_variable.push(variable, requirement)
    }

    /// Counts a requirement as listed from now on.
    fn set_listed(&mut self, requirement: Requirement) -> Result<(), StoreError>
        ensures same { self.new.by_variable ≡ self.old.by_variable }
        ensures ok { OnOk result ((r : ARequirement) → is_listed self.new r
            ≡ (if same_requirement r requirement then true else is_listed self.old r)) }
        ensures err { OnErr result (self.new.listed ≡ self.old.listed) }
        ensures memory { IfErr result (λ e. e ≡ OutOfMemory) }
    {
        match self.listed.insert(requirement, ()) {
            Ok(_) => Ok(()),
            Err(refused) => Err(refused.error),
        }
    }
}

/// Whether a requirement is the last of some.
fn is_last(requirements: &[Requirement], requirement: Requirement) -> bool
    ensures { let last = slice_get requirements.now (length requirements.now - 1) in
        IsTrue result ↔ (last ≡ Some requirement) }
{
    match requirements.last() {
        Some(last) => *last == requirement,
        None => false,
    }
}

/// Puts a requirement to the variables of its lists.
fn add_lists<A: Allocator + Copy>(
    occurrences: &mut Occurrences<A>,
    requirement: Requirement,
    lists: &[Vec<VariableId, A>],
) -> Result<(), StoreError>
    ensures grows { GrowsWith requirement (flat_map (λ l. l.items) lists.now) occurrences.old occurrences.new }
    ensures all { OnOk result (HasAll requirement (flat_map (λ l. l.items) lists.now) occurrences.new) }
    ensures listed { occurrences.new.listed ≡ occurrences.old.listed }
    ensures memory { IfErr result (λ e. e ≡ OutOfMemory) }
{
    for list in lists {
        add_list(occurrences, requirement, list)?;
    }
    Ok(())
}

/// Puts a requirement to the variables of one list.
fn add_list<A: Allocator + Copy>(
    occurrences: &mut Occurrences<A>,
    requirement: Requirement,
    list: &[VariableId],
) -> Result<(), StoreError>
    ensures grows { GrowsWith requirement list.now occurrences.old occurrences.new }
    ensures all { OnOk result (HasAll requirement list.now occurrences.new) }
    ensures listed { occurrences.new.listed ≡ occurrences.old.listed }
    ensures memory { IfErr result (λ e. e ≡ OutOfMemory) }
{
    for variable in list {
        occurrences.add(*variable, requirement)?;
    }
    Ok(())
}
