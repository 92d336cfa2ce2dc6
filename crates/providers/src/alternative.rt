//! A list of the normal form of which a part is known.
ghost use Rattle.std.specs.Prelude.{◌≡◌, ◌++◌, ◌∷◌, [], option_to_list, IfNone, OnOk, OnErr, IfOk, IfErr};
ghost use Rattle.typed_ids.specs.declared.error.StoreError.TheVariants.{OutOfMemory};

use std::alloc::Allocator;
use std::marker::Model;
use typed_ids::{ConditionId, StoreError, VersionSetId};

/// Lists that begin alike: with these version sets.
#[derive(Drop)]
pub(crate) struct Alternative<A: Allocator + Copy> {
    sets: Vec<VersionSetId, A>,
    /// What the lists go on with, the last of them next.
    pending: Vec<ConditionId, A>,
}

impl<A: Allocator + Copy> Model for Alternative<A> {
    ghost use Rattle.providers.specs.Expansion as spec;

    ghost Value = { spec.Alternative };

    ghost view = { λ a. record { sets = a.sets.items; pending = a.pending.items } };
}

impl<A: Allocator + Copy> Alternative<A> {
    /// The lists of a condition's normal form.
    pub(crate) fn of_condition(alloc: A, condition: ConditionId) -> Result<Self, StoreError>
        ensures ok { IfOk result (λ a. a ≡ record { sets = []; pending = condition ∷ [] }) }
        ensures memory { IfErr result (λ e. e ≡ OutOfMemory) }
    {
        let mut pending = Vec::new(alloc);
        pending.push(condition)?;
        Ok(Alternative {
            sets: Vec::new(alloc),
            pending,
        })
    }

    /// The same lists, with this condition next.
    pub(crate) fn followed_by(&self, alloc: A, condition: &ConditionId) -> Result<Self, StoreError>
        ensures ok { IfOk result (λ a. a ≡ record {
          sets = self.now.sets;
          pending = self.now.pending ++ condition.now ∷ [];
        }) }
        ensures memory { IfErr result (λ e. e ≡ OutOfMemory) }
    {
        let mut sets = Vec::new(alloc);
        sets.extend_from_slice(self.sets.as_slice())?;
        let mut pending = Vec::with_capacity(alloc, self.pending.len().saturating_add(1))?;
        pending.extend_from_slice(self.pending.as_slice())?;
        pending.push(*condition)?;
        Ok(Alternative { sets, pending })
    }

    /// Takes away the next condition, if there is one.
    pub(crate) fn next(&mut self) -> Option<ConditionId>
        ensures sets { self.new.sets ≡ self.old.sets }
        ensures pending { self.old.pending ≡ self.new.pending ++ option_to_list result }
        ensures none { IfNone result (self.old.pending ≡ []) }
    {
        self.pending.pop()
    }

    /// Puts a condition next.
    pub(crate) fn push_condition(&mut self, condition: &ConditionId) -> Result<(), StoreError>
        ensures ok { OnOk result
            (self.new ≡ record { sets = self.old.sets; pending = self.old.pending ++ condition.now ∷ [] }) }
        ensures err { OnErr result (self.new ≡ self.old) }
        ensures memory { IfErr result (λ e. e ≡ OutOfMemory) }
    {
        self.pending.push(*condition)?;
        Ok(())
    }

    /// Puts a version set behind the others.
    pub(crate) fn push_set(&mut self, set: &VersionSetId) -> Result<(), StoreError>
        ensures ok { OnOk result
            (self.new ≡ record { sets = self.old.sets ++ set.now ∷ []; pending = self.old.pending }) }
        ensures err { OnErr result (self.new ≡ self.old) }
        ensures memory { IfErr result (λ e. e ≡ OutOfMemory) }
    {
        self.sets.push(*set)?;
        Ok(())
    }

    /// The version sets.
    pub(crate) fn into_sets(self) -> Vec<VersionSetId, A>
        ensures { result.items ≡ self.sets }
    {
        let Alternative { sets, pending } = self;
        drop(pending);
        sets
    }
}
