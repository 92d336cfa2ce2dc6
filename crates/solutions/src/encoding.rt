//! Requirements and constraints as clauses.
ghost use Rattle.std.specs.Prelude.{◌≡◌, ◌∷◌, Bool, true, false, not, All, List, [], IfOk, OnOk, map, ⊤};
ghost use Rattle.std.specs.List.{list_any, list_all};
ghost use Rattle.resolvo_ids.specs.Types.VersionSetId.{VersionSetId};
ghost use Rattle.resolvo_pool.specs.Conditions.{Denotes, Formula, form_holds, formula_holds};
ghost use Rattle.resolvo_pool.specs.Provider.{filtered, knows_requirement};
ghost use Rattle.solutions.specs.Clauses.{has_true};
ghost use Rattle.solutions.specs.Solutions.{IsSatisfied, has_picked, is_among, is_satisfied};
ghost use Rattle.solutions.specs.Truth.{AreSatisfiedUnless, AreStillSatisfied, HasTrueOr, IsSatisfiedUnless};
ghost use Rattle.solutions.specs.Truth.{NonePickedUnless, truth};
ghost use Rattle.solutions.specs.declared.literal.Fact.TheVariants.{Held, Picked};

use crate::atoms::Atoms;
use crate::clauses::Theory;
use crate::literal::{Atom, Literal};
use crate::queries::{candidates, knows};
use resolvo_ids::{ConditionId, StoreError, VersionSetId};
use resolvo_pool::{
    ConditionalRequirement, DependencyProvider, Interner, ProviderFunctions, Requirement,
    convert_conditions_to_dnf,
};

/// Writes clauses.
#[derive(Drop)]
pub(crate) struct Encoder<'p, D: DependencyProvider> {
    pub(crate) alloc: D::Alloc,
    pub(crate) provider: &'p D,
}

impl<'p, D: DependencyProvider> Encoder<'p, D> {
    /// That a solvable is picked.
    pub(crate) fn picked(
        &self,
        atoms: &mut Atoms<D::NameId, D::SolvableId, D::Alloc>,
        solvable: D::SolvableId,
    ) -> Result<Atom<D::NameId, D::SolvableId>, StoreError>
        ensures fact { IfOk result (λ atom. atom.fact ≡ Picked solvable) }
        ensures known { OnOk result ((D.universe self.now.provider.now).knows_solvable solvable ≡ true) }
    {
        if !self.provider.knows_solvable(solvable) {
            return Err(StoreError::UnknownId);
        }
        atoms.picked(solvable)
    }

    /// Says that, unless one of the literals is true, a requirement is satisfied.
    pub(crate) fn require(
        &self,
        theory: &mut Theory<D::NameId, D::SolvableId, D::Alloc>,
        unless: &[Literal<D::NameId, D::SolvableId>],
        conditional: ConditionalRequirement,
    ) -> Result<(), StoreError>
        ensures { OnOk result (AreStillSatisfied (⟦<D as ProviderFunctions>⟧.functions self.now.provider.now)
            (λ picked. AreSatisfiedUnless (⟦<D as ProviderFunctions>⟧.functions self.now.provider.now)
            unless.now picked (conditional ∷ []))
            theory.old.clauses.items theory.new.clauses.items) }
    {
        match conditional.condition {
            None => self.require_under(theory, unless, &[], conditional.requirement),
            Some(condition) => {
                let lists = self.lists_of(condition)?;
                self.require_under_any(theory, unless, &lists, conditional.requirement)
            }
        }
    }

    /// The normal form of a condition.
    fn lists_of(
        &self,
        condition: ConditionId,
    ) -> Result<Vec<Vec<VersionSetId, D::Alloc>, D::Alloc>, StoreError>
        ensures { IfOk result (λ lists. (holds : VersionSetId → Bool) →
            form_holds holds (map (λ l. l.items) lists.items) ≡ true →
            (formula : Formula) × Denotes (D.universe self.now.provider.now) condition formula ×
            (formula_holds holds formula ≡ true)) }
    {
        if !self.provider.knows_condition(condition) {
            return Err(StoreError::UnknownId);
        }
        convert_conditions_to_dnf(self.alloc, condition, self.provider)
    }

    /// Says that, unless one of the literals is true, a requirement is satisfied if each version set of one of the
    /// lists has a picked candidate.
    fn require_under_any(
        &self,
        theory: &mut Theory<D::NameId, D::SolvableId, D::Alloc>,
        unless: &[Literal<D::NameId, D::SolvableId>],
        lists: &[Vec<VersionSetId, D::Alloc>],
        requirement: Requirement,
    ) -> Result<(), StoreError>
        ensures { OnOk result (AreStillSatisfied (⟦<D as ProviderFunctions>⟧.functions self.now.provider.now)
            (λ picked. IsSatisfiedUnless (⟦<D as ProviderFunctions>⟧.functions self.now.provider.now)
            unless.now picked (map (λ l. l.items) lists.now) requirement)
            theory.old.clauses.items theory.new.clauses.items) }
    {
        for list in lists {
            self.require_under(theory, unless, list, requirement)?;
        }
        Ok(())
    }

    /// Says that, unless one of the literals is true, a requirement is satisfied if each of the version sets has a
    /// picked candidate.
    fn require_under(
        &self,
        theory: &mut Theory<D::NameId, D::SolvableId, D::Alloc>,
        unless: &[Literal<D::NameId, D::SolvableId>],
        held: &[VersionSetId],
        requirement: Requirement,
    ) -> Result<(), StoreError>
        ensures { OnOk result (AreStillSatisfied (⟦<D as ProviderFunctions>⟧.functions self.now.provider.now)
            (λ picked. IsSatisfiedUnless (⟦<D as ProviderFunctions>⟧.functions self.now.provider.now)
            unless.now picked (held.now ∷ []) requirement)
            theory.old.clauses.items theory.new.clauses.items) }
    {
        let mut clause = Vec::new(self.alloc);
        clause.extend_from_slice(unless)?;
        self.push_unheld(theory, &mut clause, held)?;
        self.push_satisfied(&mut theory.atoms, &mut clause, requirement)?;
        theory.add(clause)
    }

    /// Adds to a clause that one of the version sets has no picked candidate.
    fn push_unheld(
        &self,
        theory: &mut Theory<D::NameId, D::SolvableId, D::Alloc>,
        clause: &mut Vec<Literal<D::NameId, D::SolvableId>, D::Alloc>,
        held: &[VersionSetId],
    ) -> Result<(), StoreError>
        ensures clause { OnOk result (HasTrueOr (⟦<D as ProviderFunctions>⟧.functions self.now.provider.now)
            (λ picked. not (list_all (has_picked (⟦<D as ProviderFunctions>⟧.functions self.now.provider.now)
            (is_among (⟦<D as ProviderFunctions>⟧.functions self.now.provider.now) picked)) held.now))
            clause.old.items clause.new.items) }
        ensures theory { OnOk result (AreStillSatisfied (⟦<D as ProviderFunctions>⟧.functions self.now.provider.now)
            (λ picked. ⊤) theory.old.clauses.items theory.new.clauses.items) }
    {
        for set in held {
            let atom = self.held(theory, *set)?;
            clause.push(Literal::new(atom, false))?;
        }
        Ok(())
    }

    /// Adds to a clause that a requirement is satisfied.
    fn push_satisfied(
        &self,
        atoms: &mut Atoms<D::NameId, D::SolvableId, D::Alloc>,
        clause: &mut Vec<Literal<D::NameId, D::SolvableId>, D::Alloc>,
        requirement: Requirement,
    ) -> Result<(), StoreError>
        ensures { OnOk result (HasTrueOr (⟦<D as ProviderFunctions>⟧.functions self.now.provider.now)
            (λ picked. is_satisfied (⟦<D as ProviderFunctions>⟧.functions self.now.provider.now)
            (is_among (⟦<D as ProviderFunctions>⟧.functions self.now.provider.now) picked) requirement)
            clause.old.items clause.new.items) }
    {
        if !knows(self.provider, requirement) {
            return Err(StoreError::UnknownId);
        }
        let sets = requirement.version_sets(self.provider);
        self.push_any_held(atoms, clause, sets.as_slice())
    }

    /// Adds to a clause that one of the version sets has a picked candidate.
    fn push_any_held(
        &self,
        atoms: &mut Atoms<D::NameId, D::SolvableId, D::Alloc>,
        clause: &mut Vec<Literal<D::NameId, D::SolvableId>, D::Alloc>,
        sets: &[VersionSetId],
    ) -> Result<(), StoreError>
        ensures { OnOk result (HasTrueOr (⟦<D as ProviderFunctions>⟧.functions self.now.provider.now)
            (λ picked. list_any (has_picked (⟦<D as ProviderFunctions>⟧.functions self.now.provider.now)
            (is_among (⟦<D as ProviderFunctions>⟧.functions self.now.provider.now) picked)) sets.now)
            clause.old.items clause.new.items) }
    {
        for set in sets {
            self.push_held(atoms, clause, *set)?;
        }
        Ok(())
    }

    /// Adds to a clause that a version set has a picked candidate.
    fn push_held(
        &self,
        atoms: &mut Atoms<D::NameId, D::SolvableId, D::Alloc>,
        clause: &mut Vec<Literal<D::NameId, D::SolvableId>, D::Alloc>,
        set: VersionSetId,
    ) -> Result<(), StoreError>
        ensures { OnOk result (HasTrueOr (⟦<D as ProviderFunctions>⟧.functions self.now.provider.now)
            (λ picked. has_picked (⟦<D as ProviderFunctions>⟧.functions self.now.provider.now)
            (is_among (⟦<D as ProviderFunctions>⟧.functions self.now.provider.now) picked) set)
            clause.old.items clause.new.items) }
    {
        let held = self.candidates(set, false)?;
        self.push_picked(atoms, clause, &held)
    }

    /// Adds to a clause that one of the solvables is picked.
    fn push_picked(
        &self,
        atoms: &mut Atoms<D::NameId, D::SolvableId, D::Alloc>,
        clause: &mut Vec<Literal<D::NameId, D::SolvableId>, D::Alloc>,
        solvables: &[D::SolvableId],
    ) -> Result<(), StoreError>
        ensures { OnOk result (HasTrueOr (⟦<D as ProviderFunctions>⟧.functions self.now.provider.now)
            (λ picked. list_any (is_among (⟦<D as ProviderFunctions>⟧.functions self.now.provider.now) picked)
            solvables.now)
            clause.old.items clause.new.items) }
    {
        for solvable in solvables {
            let atom = self.picked(atoms, *solvable)?;
            clause.push(Literal::new(atom, true))?;
        }
        Ok(())
    }

    /// That a version set has a picked candidate. When that is seen for the first time, says that it is so if a
    /// candidate is picked.
    fn held(
        &self,
        theory: &mut Theory<D::NameId, D::SolvableId, D::Alloc>,
        set: VersionSetId,
    ) -> Result<Atom<D::NameId, D::SolvableId>, StoreError>
        ensures fact { IfOk result (λ atom. atom.fact ≡ Held set) }
        ensures theory { OnOk result (AreStillSatisfied (⟦<D as ProviderFunctions>⟧.functions self.now.provider.now)
            (λ picked. ⊤) theory.old.clauses.items theory.new.clauses.items) }
    {
        if let Some(atom) = theory.atoms.find_held(set) {
            return Ok(atom);
        }
        let atom = theory.atoms.held(set)?;
        self.forbid_candidates(theory, Literal::new(atom, true), set, false)?;
        Ok(atom)
    }

    /// Says that, unless the literal is true, none of the solvables is picked.
    fn forbid_all(
        &self,
        theory: &mut Theory<D::NameId, D::SolvableId, D::Alloc>,
        unless: Literal<D::NameId, D::SolvableId>,
        solvables: &[D::SolvableId],
    ) -> Result<(), StoreError>
        ensures { OnOk result (AreStillSatisfied (⟦<D as ProviderFunctions>⟧.functions self.now.provider.now)
            (λ picked. NonePickedUnless (⟦<D as ProviderFunctions>⟧.functions self.now.provider.now)
            (unless ∷ []) picked solvables.now)
            theory.old.clauses.items theory.new.clauses.items) }
    {
        for solvable in solvables {
            let atom = self.picked(&mut theory.atoms, *solvable)?;
            theory.add_binary(self.alloc, unless, Literal::new(atom, false))?;
        }
        Ok(())
    }

    /// Says that, unless the literal is true, none is picked of a version set's candidates, or, if `inverse`, of those
    /// that it doesn't hold.
    pub(crate) fn forbid_candidates(
        &self,
        theory: &mut Theory<D::NameId, D::SolvableId, D::Alloc>,
        unless: Literal<D::NameId, D::SolvableId>,
        set: VersionSetId,
        inverse: bool,
    ) -> Result<(), StoreError>
        ensures known { OnOk result ((D.universe self.now.provider.now).knows_set set ≡ true) }
        ensures theory { OnOk result (AreStillSatisfied (⟦<D as ProviderFunctions>⟧.functions self.now.provider.now)
            (λ picked. NonePickedUnless (⟦<D as ProviderFunctions>⟧.functions self.now.provider.now)
            (unless ∷ []) picked (filtered ((D.answers self.now.provider.now).matches set) inverse
            ((D.answers self.now.provider.now).candidates ((D.universe self.now.provider.now).set_name set))))
            theory.old.clauses.items theory.new.clauses.items) }
    {
        let found = self.candidates(set, inverse)?;
        self.forbid_all(theory, unless, &found)
    }

    /// The candidates of its package that a version set holds, or, if `inverse`, those that it doesn't.
    fn candidates(
        &self,
        set: VersionSetId,
        inverse: bool,
    ) -> Result<Vec<D::SolvableId, D::Alloc>, StoreError>
        ensures known { OnOk result ((D.universe self.now.provider.now).knows_set set ≡ true) }
        ensures found { IfOk result (λ found. found.items ≡ filtered ((D.answers self.now.provider.now).matches set)
            inverse ((D.answers self.now.provider.now).candidates
            ((D.universe self.now.provider.now).set_name set))) }
    {
        if !self.provider.knows_version_set(set) {
            return Err(StoreError::UnknownId);
        }
        candidates(self.alloc, self.provider, set, inverse)
    }
}
