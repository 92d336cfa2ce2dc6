//! The commands that bring variables: `Variable`, `Helper` and `Load`.
ghost use Rattle.std.specs.Prelude.{◌≡◌, None, true, false, option_map};
ghost use Rattle.std.specs.Prelude.{length, take, Err, IsTrue, IfSome, IfOk, OnOk, OnErr, IfErr};
ghost use Rattle.providers.specs.Provider.{knows_requirement};
ghost use Rattle.typed_ids.specs.Refusals.{IsGrowthRefusal};
ghost use Rattle.typed_ids.specs.declared.error.StoreError.TheVariants.{IdSpace, OutOfMemory};
ghost use Rattle.variables.specs.Variables.{are_variables_out};
ghost use Rattle.resolvo_store.specs.Helpers.{is_helper_known};
ghost use Rattle.resolvo_store.specs.Outcome.{helper_origin};
ghost use Rattle.resolvo_store.specs.Lists.{items_of, lists_for};

use crate::abstract_store::Abstract;
use crate::helper_origin::{HelperOrigin, alloc_helper};
use crate::loaded_lists::load_lists;
use crate::store::ClauseStore;
use crate::store::known::knows_requirement;
use id_maps::SolverId;
use providers::{DependencyProvider, Interner, Requirement, RequirementMap};
use std::alloc::Allocator;
use typed_ids::{StoreError, VariableId};
use variables::{VariableLists, VariableMap};

impl<D: DependencyProvider + Drop> ClauseStore<D> {
    ghost use Rattle.resolvo_store.specs.Command.{Variable, Helper, Load, Refused, VariableIs};
    ghost use Rattle.resolvo_store.specs.Answers.{replied};
    ghost use Rattle.resolvo_store.specs.Store.{lists_of};
    ghost use Rattle.resolvo_store.specs.Step.{lacks_ids, may_be_refused};
    ghost use Rattle.resolvo_store.specs.Answers.{loaded_as};
    ghost use Rattle.resolvo_store.specs.Loading.{AreListsOf, LoadsAgain, IsUnloaded, LoadsNew, FailsNew, AreCopied};
    ghost use Rattle.resolvo_store.specs.Loading.{with_loaded};

    /// The variable of a solvable, which is made where there is none.
    pub fn variable(&mut self, solvable: D::SolvableId) -> Result<VariableId, StoreError>
        ensures step { ⟦<D as Abstract>⟧.step self.old (Variable solvable) (replied VariableIs result) self.new }
        ensures provider { self.new.provider ≡ self.old.provider }
        ensures queue_state { self.new.queue_state ≡ self.old.queue_state }
    {
        if !self.cache.provider().knows_solvable(solvable) {
            return Err(StoreError::UnknownId);
        }
        self.variables.intern_solvable(solvable)
    }

    /// A new variable that stands for this.
    pub fn helper(&mut self, origin: HelperOrigin<D::NameId>) -> Result<VariableId, StoreError>
        ensures step { ⟦<D as Abstract>⟧.step self.old (Helper origin) (replied VariableIs result) self.new }
        ensures provider { self.new.provider ≡ self.old.provider }
        ensures queue_state { self.new.queue_state ≡ self.old.queue_state }
    {
        if !knows_helper(self.cache.provider(), origin) {
            return Err(StoreError::UnknownId);
        }
        alloc_helper(&mut self.variables, origin)
    }

    /// What a `Load` replies: the requirement is loaded where it isn't yet, and its lists are copied.
    pub(super) fn load_copied(
        &mut self,
        requirement: Requirement,
    ) -> Result<VariableLists<D::Alloc>, StoreError>
        ensures step { ⟦<D as Abstract>⟧.step self.old (Load requirement) (replied loaded_as result) self.new }
        ensures provider { self.new.provider ≡ self.old.provider }
        ensures queue_state { self.new.queue_state ≡ self.old.queue_state }
    {
        if !knows_requirement(self.cache.provider(), requirement) {
            return Err(StoreError::UnknownId);
        }
        let lists = match lists(&self.loaded, requirement) {
            Some(lists) => lists.clone()?,
            None => self.load_new(requirement, true)?,
        };
        Ok(lists)
    }

    /// The candidates' variables of a requirement that is loaded, which is what a `Load` of it answers again: lent, and
    /// not copied. None of one that isn't loaded, or that the provider doesn't know. Takes constant time.
    pub fn lists(&self, requirement: Requirement) -> Option<&[Vec<VariableId, D::Alloc>]>
        ensures lists { IfSome result (λ lists. AreListsOf (⟦<D as Abstract>⟧.store self.now) requirement lists.now) }
        ensures again { IfSome result (λ lists. LoadsAgain (⟦<D as Abstract>⟧.store self.now) requirement lists.now) }
        ensures none { result ≡ None → IsUnloaded (⟦<D as Abstract>⟧.store self.now) requirement }
    {
        if !knows_requirement(self.cache.provider(), requirement) {
            return None;
        }
        match lists(&self.loaded, requirement) {
            Some(lists) => Some(lists.as_slice()),
            None => None,
        }
    }

    /// Loads a requirement that isn't loaded yet, as a `Load` does, and copies no lists: [`ClauseStore::lists`] lends
    /// them then. One that is loaded takes constant time.
    pub fn load(&mut self, requirement: Requirement) -> Result<(), StoreError>
        ensures kept { OnOk result (⟦<D as Abstract>⟧.loads self.old requirement self.new) }
        ensures known { OnOk result (knows_requirement (D.universe self.new.provider) requirement ≡ true) }
        ensures refused { IfErr result (λ e. ⟦<D as Abstract>⟧.step self.old (Load requirement) (Refused e) self.new) }
        ensures provider { self.new.provider ≡ self.old.provider }
        ensures queue_state { self.new.queue_state ≡ self.old.queue_state }
    {
        if !knows_requirement(self.cache.provider(), requirement) {
            return Err(StoreError::UnknownId);
        }
        if lists(&self.loaded, requirement).is_some() {
            return Ok(());
        }
        drop(self.load_new(requirement, false)?);
        Ok(())
    }

    /// Loads a requirement, and answers a copy of its lists, if one is asked for. Where it is refused, the variables
    /// that its candidates got are taken back.
    fn load_new(
        &mut self,
        requirement: Requirement,
        copied: bool,
    ) -> Result<VariableLists<D::Alloc>, StoreError>
        requires known { knows_requirement (D.universe self.old.provider) requirement ≡ true }
        requires new { lists_of (⟦<D as Abstract>⟧.store self.old) requirement ≡ None }
        ensures lists { IfOk result (AreCopied (⟦<D as Abstract>⟧.store self.old) requirement copied) }
        ensures ok { let st = ⟦<D as Abstract>⟧.store in
            OnOk result (LoadsNew (st self.old) requirement (st self.new)) }
        ensures err { let st = ⟦<D as Abstract>⟧.store in
            IfErr result (FailsNew (st self.old) requirement (st self.new)) }
        ensures provider { self.new.provider ≡ self.old.provider }
        ensures queue_state { self.new.queue_state ≡ self.old.queue_state }
    {
        let before = self.variables.count();
        let kept = self.store_candidates(requirement, copied);
        if kept.is_err() {
            self.variables.forget_from(before);
        }
        kept
    }

    /// Gives a requirement's candidates variables, and keeps their lists as the requirement's; answers a copy of them,
    /// if one is asked for. A refusal keeps no lists, and leaves the variables that were there in front.
    fn store_candidates(
        &mut self,
        requirement: Requirement,
        copied: bool,
    ) -> Result<VariableLists<D::Alloc>, StoreError>
        requires known { knows_requirement (D.universe self.old.provider) requirement ≡ true }
        requires new { lists_of (⟦<D as Abstract>⟧.store self.old) requirement ≡ None }
        ensures lists { IfOk result (AreCopied (⟦<D as Abstract>⟧.store self.old) requirement copied) }
        ensures ok { OnOk result (self.new ≡ with_loaded (⟦<D as Abstract>⟧.store self.old) requirement self.old) }
        ensures fit { OnOk result (lacks_ids (⟦<D as Abstract>⟧.store self.old) (Load requirement) ≡ false) }
        ensures err { OnErr result (self.new ≡ record self.old { origins = self.new.origins }) }
        ensures front { take (length self.old.origins) self.new.origins ≡ self.old.origins }
        ensures refused { IfErr result (λ e.
            may_be_refused (⟦<D as Abstract>⟧.store self.old) (Load requirement) e ≡ true) }
    {
        let lists = load_lists(
            &mut self.cache,
            &mut self.variables,
            &self.loaded,
            self.alloc,
            requirement,
        )?;
        let reply = copy_of(&lists, copied)?;
        self.loaded.insert(requirement, lists)?;
        Ok(reply)
    }
}

/// A copy of the lists, if one is asked for, else none.
fn copy_of<A: Allocator + Copy>(
    lists: &VariableLists<A>,
    copied: bool,
) -> Result<VariableLists<A>, StoreError>
    ensures ok { IfOk result (λ copy. IsTrue copied → items_of copy ≡ items_of lists.now) }
    ensures memory { IfErr result (λ e. e ≡ OutOfMemory) }
{
    if copied {
        Ok(lists.clone()?)
    } else {
        Ok(Vec::new(*lists.allocator()))
    }
}

/// Whether the provider knows what a helper variable is to stand for.
fn knows_helper<D: DependencyProvider>(provider: &D, origin: HelperOrigin<D::NameId>) -> bool
    ensures { result ≡ is_helper_known (D.universe provider.now) origin }
{
    match origin {
        HelperOrigin::AtLeastOne(name) => provider.knows_name(name),
        HelperOrigin::ConstrainsViolation(set) => provider.knows_version_set(set),
        HelperOrigin::RequiresGate(requirement) => knows_requirement(provider, requirement),
    }
}

/// The lists of a requirement, if it was loaded.
pub(super) fn lists<A: Allocator + Copy>(
    loaded: &RequirementMap<VariableLists<A>, A>,
    requirement: Requirement,
) -> Option<&VariableLists<A>>
    ensures { option_map (λ lists. items_of lists.now) result ≡ lists_for requirement loaded.now }
{
    loaded.get(requirement)
}
