//! The variables of a store: what each stands for, and the variable of each solvable.
ghost use Rattle.std.specs.Prelude.{◌≡◌, ◌<◌, ◌≤◌, ◌+◌, ◌^◌, [], ◌∷◌, ◌++◌, length, take, slice_get};
ghost use Rattle.std.specs.Prelude.{false, IsSome, IfSome, IsOk, IfOk, OnOk, OnErr, IfErr};
ghost use Rattle.typed_ids.specs.WithRoot.{root_or};
ghost use Rattle.typed_ids.specs.declared.error.StoreError.TheVariants.{OutOfMemory};

use crate::forget::forget_rest;
use crate::stored_origin::{OriginRecord, StoredOrigin};
use crate::variable_origin::VariableOrigin;
use id_maps::{IdMap, Slot, SolverId};
use providers::Requirement;
use std::alloc::Allocator;
use std::marker::Model;
use typed_ids::{DenseIndex, SolvableIdOrRoot, StoreError, VariableId, VersionSetId};

/// The variables. A contract sees the list of their origins: a variable is its place in it.
#[derive(Drop)]
pub struct VariableMap<N: Copy, S: SolverId<A>, A: Allocator + Copy> {
    origins: Vec<StoredOrigin<N, S>, A>,
    /// The variable of each solvable.
    slots: S::Slots,
}

impl<N: Copy, S: SolverId<A>, A: Allocator + Copy> Model for VariableMap<N, S, A> {
    ghost use Rattle.std.specs.Prelude.{List};
    ghost use Rattle.variables.specs.declared.variable_origin.VariableOrigin.{VariableOrigin};
    ghost use Rattle.variables.specs.Variables.{IsVariableMap};

    ghost Value = { List (VariableOrigin N S) };

    ghost view = { λ m. m.origins.items };

    ghost invariant = { λ m. IsVariableMap S.eq (S.Slots.value_at m.slots) m.origins.items };
}

impl<N: Copy, S: SolverId<A>, A: Allocator + Copy> VariableMap<N, S, A> {
    ghost use Rattle.variables.specs.Variables.{variable_of_solvable, interned_variable};
    ghost use Rattle.variables.specs.Variables.{with_variable, lacks_variable, IsRootFirst};
    ghost use Rattle.variables.specs.Variables.{FailsWhereOut};
    ghost use Rattle.variables.specs.Variables.{variable_of_key, interned_key, with_key};
    ghost use Rattle.variables.specs.Variables.{are_variables_out, solvable_of, key_of};

    /// The root's variable alone.
    pub fn new(alloc: A) -> Result<Self, StoreError>
        ensures ok { IfOk result (λ m. m ≡ VariableOrigin.Root ∷ []) }
        ensures err { IfErr result (λ e. e ≡ OutOfMemory) }
    {
        let mut origins = Vec::new(alloc);
        origins.push(StoredOrigin(OriginRecord::Root))?;
        Ok(VariableMap {
            origins,
            slots: <S::Slots as IdMap<S, Slot, A>>::new(alloc),
        })
    }

    /// How many variables there are.
    pub fn count(&self) -> usize
        ensures value { result ≡ length self.now }
        ensures bound { result < 2 ^ 31 }
        ensures root { (1 ≤ result) × IsRootFirst self.now }
    {
        self.origins.len()
    }

    /// What the variable stands for.
    pub fn origin(&self, variable: VariableId) -> VariableOrigin<N, S>
        requires { variable < length self.now }
        ensures origin { slice_get self.now variable ≡ Some result }
        ensures distinct { IfSome (solvable_of result) (λ s. variable_of_solvable S.eq self.now s ≡ Some variable) }
    {
        self.origins[variable.to_index()].origin()
    }

    /// The variable of the solvable, if it has one.
    pub fn lookup_solvable(&self, solvable: S) -> Option<VariableId>
        ensures variable { result ≡ variable_of_solvable S.eq self.now solvable }
        ensures origin { IfSome result (λ v. slice_get self.now v ≡ Some (VariableOrigin.Solvable solvable)) }
        ensures not_large { IfSome result (λ v. S.Slots.is_too_large solvable ≡ false) }
    {
        let index = self.slots.get(solvable).number()?;
        Some(VariableId::from_index(index as usize))
    }

    /// The variable of the solvable. One that has none yet gets the next.
    #[inline(always)]
    pub fn intern_solvable(&mut self, solvable: S) -> Result<VariableId, StoreError>
        ensures variable { IfOk result (λ v. v ≡ interned_variable S.eq self.old solvable) }
        ensures ok { OnOk result (self.new ≡ with_variable S.eq self.old solvable) }
        ensures known { IsSome (variable_of_solvable S.eq self.old solvable) → IsOk result }
        ensures err { OnErr result (self.new ≡ self.old) }
        ensures ids { FailsWhereOut (lacks_variable S.eq S.Slots.is_too_large self.old solvable) result }
        ensures not_large { OnOk result (S.Slots.is_too_large solvable ≡ false) }
    {
        if let Some(variable) = self.lookup_solvable(solvable) {
            return Ok(variable);
        }
        let index = self.origins.len();
        if !VariableId::in_range(index) {
            return Err(StoreError::IdSpace);
        }
        self.slots.make_room(solvable)?;
        self.origins
            .push(StoredOrigin(OriginRecord::Solvable(solvable)))?;
        self.slots.put(solvable, Slot::new(Some(index as u32)));
        Ok(VariableId::from_index(index))
    }

    /// The variable of the root, or that of the solvable as [`VariableMap::intern_solvable`] answers it.
    pub fn intern_solvable_or_root(
        &mut self,
        key: SolvableIdOrRoot<S>,
    ) -> Result<VariableId, StoreError>
        ensures variable { IfOk result (λ v. v ≡ interned_key S.eq self.old key) }
        ensures ok { OnOk result (self.new ≡ with_key S.eq self.old key) }
        ensures known { IsSome (variable_of_key S.eq self.old key) → IsOk result }
        ensures err { OnErr result (self.new ≡ self.old) }
        ensures ids { FailsWhereOut (root_or false (lacks_variable S.eq S.Slots.is_too_large self.old) key) result }
        ensures not_large { OnOk result (root_or false S.Slots.is_too_large key ≡ false) }
    {
        match key {
            SolvableIdOrRoot::Root => Ok(VariableId::root()),
            SolvableIdOrRoot::Solvable(solvable) => self.intern_solvable(solvable),
        }
    }

    /// A new variable that helps to say that at most one of the package's solvables is part of the solution.
    pub fn alloc_forbid_multiple_variable(&mut self, name: N) -> Result<VariableId, StoreError>
        ensures variable { IfOk result (λ v. v ≡ length self.old) }
        ensures ok { OnOk result (self.new ≡ self.old ++ VariableOrigin.ForbidMultiple name ∷ []) }
        ensures err { OnErr result (self.new ≡ self.old) }
        ensures ids { FailsWhereOut (are_variables_out (length self.old)) result }
    {
        self.alloc(StoredOrigin(OriginRecord::ForbidMultiple(name)))
    }

    /// A new variable for that some solvable of the package is part of the solution.
    pub fn alloc_at_least_one_variable(&mut self, name: N) -> Result<VariableId, StoreError>
        ensures variable { IfOk result (λ v. v ≡ length self.old) }
        ensures ok { OnOk result (self.new ≡ self.old ++ VariableOrigin.AtLeastOne name ∷ []) }
        ensures err { OnErr result (self.new ≡ self.old) }
        ensures ids { FailsWhereOut (are_variables_out (length self.old)) result }
    {
        self.alloc(StoredOrigin(OriginRecord::AtLeastOne(name)))
    }

    /// A new variable for that a solvable outside the version set is part of the solution.
    pub fn alloc_constrains_violation_variable(
        &mut self,
        set: VersionSetId,
    ) -> Result<VariableId, StoreError>
        ensures variable { IfOk result (λ v. v ≡ length self.old) }
        ensures ok { OnOk result (self.new ≡ self.old ++ VariableOrigin.ConstrainsViolation set ∷ []) }
        ensures err { OnErr result (self.new ≡ self.old) }
        ensures ids { FailsWhereOut (are_variables_out (length self.old)) result }
    {
        self.alloc(StoredOrigin(OriginRecord::ConstrainsViolation(set)))
    }

    /// A new variable that stands for the requirement's candidates.
    pub fn alloc_requires_gate_variable(
        &mut self,
        requirement: Requirement,
    ) -> Result<VariableId, StoreError>
        ensures variable { IfOk result (λ v. v ≡ length self.old) }
        ensures ok { OnOk result (self.new ≡ self.old ++ VariableOrigin.RequiresGate requirement ∷ []) }
        ensures err { OnErr result (self.new ≡ self.old) }
        ensures ids { FailsWhereOut (are_variables_out (length self.old)) result }
    {
        self.alloc(StoredOrigin::gate(requirement))
    }

    /// Forgets the variables from index `count` on. Takes no memory; linear in what it forgets.
    pub fn forget_from(&mut self, count: usize)
        requires { (1 ≤ count) × (count ≤ length self.old) }
        ensures { self.new ≡ take count self.old }
    {
        forget_rest(&mut self.origins, &mut self.slots, count);
    }

    /// A new variable of this origin, at the end.
    fn alloc(&mut self, origin: StoredOrigin<N, S>) -> Result<VariableId, StoreError>
        requires { key_of origin ≡ None }
        ensures variable { IfOk result (λ v. v ≡ length self.old) }
        ensures ok { OnOk result (self.new ≡ self.old ++ origin ∷ []) }
        ensures err { OnErr result (self.new ≡ self.old) }
        ensures ids { FailsWhereOut (are_variables_out (length self.old)) result }
    {
        let index = self.origins.len();
        if VariableId::in_range(index) {
            self.origins.push(origin)?;
            Ok(VariableId::from_index(index))
        } else {
            Err(StoreError::IdSpace)
        }
    }
}
