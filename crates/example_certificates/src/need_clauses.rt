//! The clauses of needs.
ghost use Rattle.std.specs.Prelude.{◌≡◌};
ghost use Rattle.resolvo_pool.specs.Provider.{knows_requirement};

use crate::clausifier::{Clause, Clauses, Clausifier};
use crate::queries::candidates;
use picking::PackageLiteral;
use resolvo_ids::{ConditionId, StoreError, VersionSetId};
use resolvo_pool::{
    ConditionalRequirement, DependencyProvider, Interner, Requirement, convert_conditions_to_dnf,
};

impl<D: DependencyProvider> Clausifier<'_, D> {
    /// Adds that a need is satisfied, if its parent is picked.
    pub(crate) fn push_need(
        &self,
        clauses: &mut Clauses<D::SolvableId, D::Alloc>,
        parent: Option<D::SolvableId>,
        need: ConditionalRequirement,
    ) -> Result<(), StoreError> {
        match need.condition {
            None => self.push_need_under(clauses, parent, &[], need.requirement),
            Some(condition) => {
                let lists = self.lists_of(condition)?;
                self.push_need_under_any(clauses, parent, &lists, need.requirement)
            }
        }
    }

    /// The normal form of a condition.
    fn lists_of(
        &self,
        condition: ConditionId,
    ) -> Result<Vec<Vec<VersionSetId, D::Alloc>, D::Alloc>, StoreError> {
        if !self.provider.knows_condition(condition) {
            return Err(StoreError::UnknownId);
        }
        convert_conditions_to_dnf(self.alloc, condition, self.provider)
    }

    /// Adds that, if the parent is picked, and each version set of one of the lists has a picked candidate, the
    /// requirement is satisfied.
    fn push_need_under_any(
        &self,
        clauses: &mut Clauses<D::SolvableId, D::Alloc>,
        parent: Option<D::SolvableId>,
        lists: &[Vec<VersionSetId, D::Alloc>],
        requirement: Requirement,
    ) -> Result<(), StoreError> {
        for list in lists {
            self.push_need_under(clauses, parent, list, requirement)?;
        }
        Ok(())
    }

    /// Adds that, if the parent is picked, and each of the version sets has a picked candidate, the requirement is
    /// satisfied.
    fn push_need_under(
        &self,
        clauses: &mut Clauses<D::SolvableId, D::Alloc>,
        parent: Option<D::SolvableId>,
        sets: &[VersionSetId],
        requirement: Requirement,
    ) -> Result<(), StoreError> {
        let mut clause = self.unless_picked(parent)?;
        self.push_unheld(&mut clause, sets)?;
        self.push_satisfied(&mut clause, requirement)?;
        Ok(clauses.push(clause)?)
    }

    /// That the parent isn't picked; nothing without one.
    fn unless_picked(
        &self,
        parent: Option<D::SolvableId>,
    ) -> Result<Clause<D::SolvableId, D::Alloc>, StoreError> {
        match parent {
            None => Ok(Vec::new(self.alloc)),
            Some(solvable) => self.one(PackageLiteral::Picked(solvable, false)),
        }
    }

    /// Adds to a clause that one of the version sets has no picked candidate.
    fn push_unheld(
        &self,
        clause: &mut Clause<D::SolvableId, D::Alloc>,
        sets: &[VersionSetId],
    ) -> Result<(), StoreError> {
        for set in sets {
            clause.push(PackageLiteral::Held(*set, false))?;
        }
        Ok(())
    }

    /// Adds to a clause that a requirement is satisfied.
    fn push_satisfied(
        &self,
        clause: &mut Clause<D::SolvableId, D::Alloc>,
        requirement: Requirement,
    ) -> Result<(), StoreError> {
        if !self.knows(requirement) {
            return Err(StoreError::UnknownId);
        }
        let sets = requirement.version_sets(self.provider);
        self.push_any_held(clause, sets.as_slice())
    }

    /// Whether the provider knows the requirement's version set, or its union.
    fn knows(&self, requirement: Requirement) -> bool
        ensures { result ≡ knows_requirement (D.universe self.now.provider.now) requirement }
    {
        match requirement {
            Requirement::Single(set) => self.provider.knows_version_set(set),
            Requirement::Union(union) => self.provider.knows_union(union),
        }
    }

    /// Adds to a clause that one of the version sets has a picked candidate.
    fn push_any_held(
        &self,
        clause: &mut Clause<D::SolvableId, D::Alloc>,
        sets: &[VersionSetId],
    ) -> Result<(), StoreError> {
        for set in sets {
            self.push_held(clause, *set)?;
        }
        Ok(())
    }

    /// Adds to a clause that a version set has a picked candidate.
    fn push_held(
        &self,
        clause: &mut Clause<D::SolvableId, D::Alloc>,
        set: VersionSetId,
    ) -> Result<(), StoreError> {
        let held = candidates(self.alloc, self.provider, set, false)?;
        self.push_picked(clause, &held)
    }

    /// Adds to a clause that one of the solvables is picked.
    fn push_picked(
        &self,
        clause: &mut Clause<D::SolvableId, D::Alloc>,
        solvables: &[D::SolvableId],
    ) -> Result<(), StoreError> {
        for solvable in solvables {
            clause.push(PackageLiteral::Picked(*solvable, true))?;
        }
        Ok(())
    }
}
