//! The picked solvables, and which requirements and constraints they satisfy, and which conditions hold of them.
ghost use Rattle.std.specs.Prelude.{◌≡◌, true, map, IfOk, IfErr};
ghost use Rattle.std.specs.Bool.{Decides};
ghost use Rattle.std.specs.List.{list_any, list_all};
ghost use Rattle.resolvo_ids.specs.Types.StoreError.TheVariants.{OutOfMemory};
ghost use Rattle.resolvo_pool.specs.Conditions.{form_holds};
ghost use Rattle.solutions.specs.Selections.{is_kept};

use crate::queries::{candidates, knows};
use resolvo_ids::{ConditionId, IdSet, SolverId, StoreError, VersionSetId};
use resolvo_pool::{
    ConditionalRequirement, DependencyProvider, Interner, ProviderFunctions, Requirement,
    convert_conditions_to_dnf,
};

/// Some of a provider's solvables: those that are picked, but for one, if one is left out.
#[derive(Drop)]
pub(crate) struct Selection<'p, D: DependencyProvider> {
    pub(crate) alloc: D::Alloc,
    pub(crate) provider: &'p D,
    pub(crate) picked: <D::SolvableId as SolverId<D::Alloc>>::Set,
    pub(crate) left_out: Option<D::SolvableId>,
}

impl<'p, D: DependencyProvider> Selection<'p, D> {
    ghost use Rattle.solutions.specs.Solutions.{has_picked, is_satisfied, is_respected};
    ghost use Rattle.solutions.specs.Solutions.{ConditionHolds, IsSatisfied, IsSatisfiedUnder};
    ghost use Rattle.resolvo_pool.specs.Types.ConditionalRequirement.{ConditionalRequirement};

    /// Whether a requirement is satisfied, under its condition if it has one.
    pub(crate) fn satisfies(&self, conditional: ConditionalRequirement) -> Result<bool, StoreError>
        ensures ok { IfOk result (λ yes. Decides yes
            (IsSatisfied (⟦<D as ProviderFunctions>⟧.functions self.now.provider.now)
            (is_kept D.SolvableId.eq (D.SolvableId.Set.has self.now.picked) self.now.left_out) conditional)) }
        ensures memory { IfErr result (λ e. e ≡ OutOfMemory) }
    {
        match conditional.condition {
            None => self.satisfies_requirement(conditional.requirement),
            Some(condition) => self.satisfies_under(condition, conditional.requirement),
        }
    }

    /// Whether a requirement is satisfied under a condition.
    fn satisfies_under(
        &self,
        condition: ConditionId,
        requirement: Requirement,
    ) -> Result<bool, StoreError>
        ensures ok { IfOk result (λ yes. Decides yes
            (IsSatisfiedUnder (⟦<D as ProviderFunctions>⟧.functions self.now.provider.now)
            (is_kept D.SolvableId.eq (D.SolvableId.Set.has self.now.picked) self.now.left_out)
            (Some condition) requirement)) }
        ensures memory { IfErr result (λ e. e ≡ OutOfMemory) }
    {
        if !self.provider.knows_condition(condition) {
            return Ok(false);
        }
        if !self.condition_holds(condition)? {
            return Ok(true);
        }
        self.satisfies_requirement(requirement)
    }

    /// Whether a candidate of one of the requirement's version sets is picked.
    fn satisfies_requirement(&self, requirement: Requirement) -> Result<bool, StoreError>
        ensures ok { IfOk result (λ yes. yes ≡
            is_satisfied (⟦<D as ProviderFunctions>⟧.functions self.now.provider.now)
            (is_kept D.SolvableId.eq (D.SolvableId.Set.has self.now.picked) self.now.left_out) requirement) }
        ensures memory { IfErr result (λ e. e ≡ OutOfMemory) }
    {
        if !knows(self.provider, requirement) {
            return Ok(false);
        }
        let sets = requirement.version_sets(self.provider);
        self.has_some(sets.as_slice())
    }

    /// Whether a condition holds. It is converted to its normal form, which may be large.
    pub(crate) fn condition_holds(&self, condition: ConditionId) -> Result<bool, StoreError>
        requires { (D.universe self.now.provider.now).knows_condition condition ≡ true }
        ensures ok { IfOk result (λ yes. Decides yes
            (ConditionHolds (⟦<D as ProviderFunctions>⟧.functions self.now.provider.now)
            (is_kept D.SolvableId.eq (D.SolvableId.Set.has self.now.picked) self.now.left_out) condition)) }
        ensures memory { IfErr result (λ e. e ≡ OutOfMemory) }
    {
        let lists = convert_conditions_to_dnf(self.alloc, condition, self.provider)?;
        self.has_all_of_some(&lists)
    }

    /// Whether all version sets of one of the lists have a picked candidate.
    fn has_all_of_some(&self, lists: &[Vec<VersionSetId, D::Alloc>]) -> Result<bool, StoreError>
        ensures ok { IfOk result (λ yes. yes ≡ form_holds
            (has_picked (⟦<D as ProviderFunctions>⟧.functions self.now.provider.now)
            (is_kept D.SolvableId.eq (D.SolvableId.Set.has self.now.picked) self.now.left_out))
            (map (λ l. l.items) lists.now)) }
        ensures memory { IfErr result (λ e. e ≡ OutOfMemory) }
    {
        for list in lists {
            if self.has_all(list)? {
                return Ok(true);
            }
        }
        Ok(false)
    }

    /// Whether all of the version sets have a picked candidate.
    fn has_all(&self, sets: &[VersionSetId]) -> Result<bool, StoreError>
        ensures ok { IfOk result (λ yes. yes ≡ list_all
            (has_picked (⟦<D as ProviderFunctions>⟧.functions self.now.provider.now)
            (is_kept D.SolvableId.eq (D.SolvableId.Set.has self.now.picked) self.now.left_out)) sets.now) }
        ensures memory { IfErr result (λ e. e ≡ OutOfMemory) }
    {
        for set in sets {
            if !self.has_picked(*set)? {
                return Ok(false);
            }
        }
        Ok(true)
    }

    /// Whether one of the version sets has a picked candidate.
    fn has_some(&self, sets: &[VersionSetId]) -> Result<bool, StoreError>
        ensures ok { IfOk result (λ yes. yes ≡ list_any
            (has_picked (⟦<D as ProviderFunctions>⟧.functions self.now.provider.now)
            (is_kept D.SolvableId.eq (D.SolvableId.Set.has self.now.picked) self.now.left_out)) sets.now) }
        ensures memory { IfErr result (λ e. e ≡ OutOfMemory) }
    {
        for set in sets {
            if self.has_picked(*set)? {
                return Ok(true);
            }
        }
        Ok(false)
    }

    /// Whether a candidate that the version set holds is picked.
    fn has_picked(&self, set: VersionSetId) -> Result<bool, StoreError>
        ensures ok { IfOk result (λ yes. yes ≡
            has_picked (⟦<D as ProviderFunctions>⟧.functions self.now.provider.now)
            (is_kept D.SolvableId.eq (D.SolvableId.Set.has self.now.picked) self.now.left_out) set) }
        ensures memory { IfErr result (λ e. e ≡ OutOfMemory) }
    {
        if !self.provider.knows_version_set(set) {
            return Ok(false);
        }
        let candidates = candidates(self.alloc, self.provider, set, false)?;
        Ok(self.picks_one(&candidates))
    }

    /// Whether no candidate is picked that the version set doesn't hold.
    pub(crate) fn respects(&self, set: VersionSetId) -> Result<bool, StoreError>
        ensures ok { IfOk result (λ yes. yes ≡
            is_respected (⟦<D as ProviderFunctions>⟧.functions self.now.provider.now)
            (is_kept D.SolvableId.eq (D.SolvableId.Set.has self.now.picked) self.now.left_out) set) }
        ensures memory { IfErr result (λ e. e ≡ OutOfMemory) }
    {
        if !self.provider.knows_version_set(set) {
            return Ok(false);
        }
        let others = candidates(self.alloc, self.provider, set, true)?;
        Ok(!self.picks_one(&others))
    }

    /// Whether one of the solvables is picked.
    fn picks_one(&self, solvables: &[D::SolvableId]) -> bool
        ensures { result ≡ list_any
            (is_kept D.SolvableId.eq (D.SolvableId.Set.has self.now.picked) self.now.left_out) solvables.now }
    {
        solvables.iter().any(|solvable| self.picks(*solvable))
    }

    /// Whether a solvable is picked, and isn't left out.
    pub(crate) fn picks(&self, solvable: D::SolvableId) -> bool
        ensures { result ≡
            is_kept D.SolvableId.eq (D.SolvableId.Set.has self.now.picked) self.now.left_out solvable }
    {
        match self.left_out {
            None => self.picked.contains(solvable),
            Some(left_out) => solvable != left_out && self.picked.contains(solvable),
        }
    }
}
