//! Reasons as clauses.
ghost use Rattle.std.specs.Prelude.{◌≡◌, ◌||◌, ◌&&◌, true, false, All, [], IfOk, OnOk};
ghost use Rattle.solutions.specs.Reasons.{IfPicked, IsMet, IsOneVersion, IsOnlyOne};
ghost use Rattle.solutions.specs.Solutions.{IsSatisfied, is_allowed, is_among, is_respected};
ghost use Rattle.solutions.specs.Truth.{AreStillSatisfied, truth};

use crate::allowed::is_allowed;
use crate::clauses::Theory;
use crate::encoding::Encoder;
use crate::literal::{Atom, Fact, Literal};
use crate::reason::Reason;
use resolvo_ids::{IdSet, SolverId, StoreError, VersionSetId};
use resolvo_pool::{ConditionalRequirement, DependencyProvider, Interner, ProviderFunctions};

/// Clauses that each choice of solvables satisfies that meets all of these reasons.
pub(crate) fn encoded<D: DependencyProvider>(
    encoder: &Encoder<D>,
    reasons: &[Reason<D::NameId, D::SolvableId>],
) -> Result<Theory<D::NameId, D::SolvableId, D::Alloc>, StoreError>
    ensures { IfOk result (λ theory. AreStillSatisfied (⟦<D as ProviderFunctions>⟧.functions encoder.now.provider.now)
        (λ picked. All (IsMet (⟦<D as ProviderFunctions>⟧.functions encoder.now.provider.now) picked) reasons.now)
        [] theory.clauses.items) }
{
    let mut theory = Theory::new(encoder.alloc)?;
    encoder.say_all(&mut theory, reasons)?;
    Ok(theory)
}

impl<'p, D: DependencyProvider> Encoder<'p, D> {
    /// Says what each of the reasons demands.
    fn say_all(
        &self,
        theory: &mut Theory<D::NameId, D::SolvableId, D::Alloc>,
        reasons: &[Reason<D::NameId, D::SolvableId>],
    ) -> Result<(), StoreError>
        ensures { OnOk result (AreStillSatisfied (⟦<D as ProviderFunctions>⟧.functions self.now.provider.now)
            (λ picked. All (IsMet (⟦<D as ProviderFunctions>⟧.functions self.now.provider.now) picked) reasons.now)
            theory.old.clauses.items theory.new.clauses.items) }
    {
        for reason in reasons {
            self.say(theory, *reason)?;
        }
        Ok(())
    }

    /// Says what a reason demands.
    fn say(
        &self,
        theory: &mut Theory<D::NameId, D::SolvableId, D::Alloc>,
        reason: Reason<D::NameId, D::SolvableId>,
    ) -> Result<(), StoreError>
        ensures { OnOk result (AreStillSatisfied (⟦<D as ProviderFunctions>⟧.functions self.now.provider.now)
            (λ picked. IsMet (⟦<D as ProviderFunctions>⟧.functions self.now.provider.now) picked reason)
            theory.old.clauses.items theory.new.clauses.items) }
    {
        match reason {
            Reason::Needs(parent, conditional) => self.need(theory, parent, conditional),
            Reason::Lacks(parent, conditional) => self.need(theory, parent, conditional),
            Reason::Limits(solvable, set) => self.limit(theory, solvable, set),
            Reason::Unknown(solvable, _) => self.forbid(theory, solvable),
            Reason::Excluded(solvable, _) => self.forbid(theory, solvable),
            Reason::Locked(solvable) => self.lock(theory, solvable),
            Reason::OneVersion(name) => self.take_one(theory, name),
        }
    }

    /// Says that a requirement is satisfied, if the parent is picked, or if there is no parent.
    fn need(
        &self,
        theory: &mut Theory<D::NameId, D::SolvableId, D::Alloc>,
        parent: Option<D::SolvableId>,
        conditional: ConditionalRequirement,
    ) -> Result<(), StoreError>
        ensures { OnOk result (AreStillSatisfied (⟦<D as ProviderFunctions>⟧.functions self.now.provider.now)
            (λ picked. IfPicked (⟦<D as ProviderFunctions>⟧.functions self.now.provider.now) picked parent
            (IsSatisfied (⟦<D as ProviderFunctions>⟧.functions self.now.provider.now)
            (is_among (⟦<D as ProviderFunctions>⟧.functions self.now.provider.now) picked) conditional))
            theory.old.clauses.items theory.new.clauses.items) }
    {
        let mut unless = Vec::new(self.alloc);
        match parent {
            None => self.require(theory, &unless, conditional),
            Some(solvable) => {
                let atom = self.picked(&mut theory.atoms, solvable)?;
                unless.push(Literal::new(atom, false))?;
                self.require(theory, &unless, conditional)
            }
        }
    }

    /// Says that a constraint is respected, if the solvable is picked.
    fn limit(
        &self,
        theory: &mut Theory<D::NameId, D::SolvableId, D::Alloc>,
        solvable: D::SolvableId,
        set: VersionSetId,
    ) -> Result<(), StoreError>
        ensures { OnOk result (AreStillSatisfied (⟦<D as ProviderFunctions>⟧.functions self.now.provider.now)
            (λ picked. is_among (⟦<D as ProviderFunctions>⟧.functions self.now.provider.now) picked solvable ≡ true →
            is_respected (⟦<D as ProviderFunctions>⟧.functions self.now.provider.now)
            (is_among (⟦<D as ProviderFunctions>⟧.functions self.now.provider.now) picked) set ≡ true)
            theory.old.clauses.items theory.new.clauses.items) }
    {
        let atom = self.picked(&mut theory.atoms, solvable)?;
        self.forbid_candidates(theory, Literal::new(atom, false), set, true)
    }

    /// Says that a solvable isn't picked.
    fn forbid(
        &self,
        theory: &mut Theory<D::NameId, D::SolvableId, D::Alloc>,
        solvable: D::SolvableId,
    ) -> Result<(), StoreError>
        ensures { OnOk result (AreStillSatisfied (⟦<D as ProviderFunctions>⟧.functions self.now.provider.now)
            (λ picked. is_among (⟦<D as ProviderFunctions>⟧.functions self.now.provider.now) picked solvable ≡ false)
            theory.old.clauses.items theory.new.clauses.items) }
    {
        let atom = self.picked(&mut theory.atoms, solvable)?;
        theory.add_unit(self.alloc, Literal::new(atom, false))
    }

    /// Says that no other candidate of a solvable's package is picked.
    fn lock(
        &self,
        theory: &mut Theory<D::NameId, D::SolvableId, D::Alloc>,
        solvable: D::SolvableId,
    ) -> Result<(), StoreError>
        ensures { OnOk result (AreStillSatisfied (⟦<D as ProviderFunctions>⟧.functions self.now.provider.now)
            (λ picked. IsOnlyOne (⟦<D as ProviderFunctions>⟧.functions self.now.provider.now) picked solvable)
            theory.old.clauses.items theory.new.clauses.items) }
    {
        if !self.provider.knows_solvable(solvable) {
            return Err(StoreError::UnknownId);
        }
        let versions = self.versions(self.provider.solvable_name(solvable))?;
        for version in &versions {
            self.forbid_other(theory, solvable, *version)?;
        }
        Ok(())
    }

    /// Says that a solvable isn't picked, if it is another one of the package of one that is locked.
    fn forbid_other(
        &self,
        theory: &mut Theory<D::NameId, D::SolvableId, D::Alloc>,
        locked: D::SolvableId,
        solvable: D::SolvableId,
    ) -> Result<(), StoreError>
        requires { (D.universe self.now.provider.now).knows_solvable locked ≡ true }
        ensures { OnOk result (AreStillSatisfied (⟦<D as ProviderFunctions>⟧.functions self.now.provider.now)
            (λ picked. IsOnlyOne (⟦<D as ProviderFunctions>⟧.functions self.now.provider.now) picked locked)
            theory.old.clauses.items theory.new.clauses.items) }
    {
        if solvable == locked {
            return Ok(());
        }
        if !self.is_of(solvable, self.provider.solvable_name(locked)) {
            return Ok(());
        }
        self.forbid(theory, solvable)
    }

    /// The candidates of a package.
    fn versions(&self, name: D::NameId) -> Result<Vec<D::SolvableId, D::Alloc>, StoreError>
        ensures { IfOk result (λ found. found.items ≡ (D.answers self.now.provider.now).candidates name) }
    {
        match self.provider.get_candidates(self.alloc, name)? {
            Some(found) => Ok(found.candidates),
            None => Ok(Vec::new(self.alloc)),
        }
    }

    /// Whether a solvable is of the package of this name.
    fn is_of(&self, solvable: D::SolvableId, name: D::NameId) -> bool
        ensures { result ≡ true → (D.universe self.now.provider.now).solvable_name solvable ≡ name }
    {
        self.provider.knows_solvable(solvable) && self.provider.solvable_name(solvable) == name
    }

    /// Whether all of the solvables are of the package of this name.
    fn are_of(&self, solvables: &[D::SolvableId], name: D::NameId) -> bool
        ensures { result ≡ true → All (λ s. (D.universe self.now.provider.now).solvable_name s ≡ name) solvables.now }
    {
        for solvable in solvables {
            if !self.is_of(*solvable, name) {
                return false;
            }
        }
        true
    }

    /// Says that no two candidates of a package are picked, if they are all of this package.
    fn take_one(
        &self,
        theory: &mut Theory<D::NameId, D::SolvableId, D::Alloc>,
        name: D::NameId,
    ) -> Result<(), StoreError>
        ensures { OnOk result (AreStillSatisfied (⟦<D as ProviderFunctions>⟧.functions self.now.provider.now)
            (λ picked. IsOneVersion (⟦<D as ProviderFunctions>⟧.functions self.now.provider.now) picked name)
            theory.old.clauses.items theory.new.clauses.items) }
    {
        let versions = self.versions(name)?;
        if !self.are_of(&versions, name) {
            return Ok(());
        }
        self.climb(theory, name, &versions)
    }

    /// Says that no two of a package's candidates are picked: one after another, that it is not picked if one before
    /// it is.
    fn climb(
        &self,
        theory: &mut Theory<D::NameId, D::SolvableId, D::Alloc>,
        name: D::NameId,
        versions: &[D::SolvableId],
    ) -> Result<(), StoreError>
        requires all { versions.now ≡ (D.answers self.now.provider.now).candidates name }
        requires named { All (λ s. (D.universe self.now.provider.now).solvable_name s ≡ name) versions.now }
        ensures { OnOk result (AreStillSatisfied (⟦<D as ProviderFunctions>⟧.functions self.now.provider.now)
            (λ picked. IsOneVersion (⟦<D as ProviderFunctions>⟧.functions self.now.provider.now) picked name)
            theory.old.clauses.items theory.new.clauses.items) }
    {
        let mut seen = <<D::SolvableId as SolverId<D::Alloc>>::Set as IdSet<
            D::SolvableId,
            D::Alloc,
        >>::new(self.alloc);
        let mut before = theory.atoms.add(Fact::First(name, 0))?;
        for (place, version) in versions.iter().enumerate() {
            let atom = self.picked(&mut theory.atoms, *version)?;
            let next = theory.atoms.add(Fact::First(name, place + 1))?;
            self.say_next(theory, next, before, atom)?;
            let is_new = seen.insert(*version)?;
            self.say_not_both(theory, is_new, before, atom)?;
            before = next;
        }
        Ok(())
    }

    /// Says that the first fact is so if one of the others is.
    fn say_next(
        &self,
        theory: &mut Theory<D::NameId, D::SolvableId, D::Alloc>,
        next: Atom<D::NameId, D::SolvableId>,
        before: Atom<D::NameId, D::SolvableId>,
        version: Atom<D::NameId, D::SolvableId>,
    ) -> Result<(), StoreError>
        ensures { OnOk result (AreStillSatisfied (⟦<D as ProviderFunctions>⟧.functions self.now.provider.now)
            (λ picked. truth (⟦<D as ProviderFunctions>⟧.functions self.now.provider.now) picked next.fact ≡
            (truth (⟦<D as ProviderFunctions>⟧.functions self.now.provider.now) picked before.fact ||
            truth (⟦<D as ProviderFunctions>⟧.functions self.now.provider.now) picked version.fact))
            theory.old.clauses.items theory.new.clauses.items) }
    {
        let so = Literal::new(next, true);
        theory.add_binary(self.alloc, so, Literal::new(before, false))?;
        theory.add_binary(self.alloc, so, Literal::new(version, false))
    }

    /// Says that not both facts are so, unless it is not new.
    fn say_not_both(
        &self,
        theory: &mut Theory<D::NameId, D::SolvableId, D::Alloc>,
        is_new: bool,
        before: Atom<D::NameId, D::SolvableId>,
        version: Atom<D::NameId, D::SolvableId>,
    ) -> Result<(), StoreError>
        ensures { OnOk result (AreStillSatisfied (⟦<D as ProviderFunctions>⟧.functions self.now.provider.now)
            (λ picked. is_new ≡ true →
            (truth (⟦<D as ProviderFunctions>⟧.functions self.now.provider.now) picked before.fact &&
            truth (⟦<D as ProviderFunctions>⟧.functions self.now.provider.now) picked version.fact) ≡ false)
            theory.old.clauses.items theory.new.clauses.items) }
    {
        if !is_new {
            return Ok(());
        }
        theory.add_binary(
            self.alloc,
            Literal::new(before, false),
            Literal::new(version, false),
        )
    }

    /// Says of each solvable that isn't allowed that it isn't picked.
    pub(crate) fn forbid_all_unlisted(
        &self,
        theory: &mut Theory<D::NameId, D::SolvableId, D::Alloc>,
        solvables: &[D::SolvableId],
    ) -> Result<(), StoreError>
        ensures { OnOk result (AreStillSatisfied (⟦<D as ProviderFunctions>⟧.functions self.now.provider.now)
            (λ picked. All (λ s. is_allowed (⟦<D as ProviderFunctions>⟧.functions self.now.provider.now) s ≡ true)
            picked)
            theory.old.clauses.items theory.new.clauses.items) }
    {
        for solvable in solvables {
            self.forbid_unlisted(theory, *solvable)?;
        }
        Ok(())
    }

    /// Says that a solvable isn't picked, if it isn't allowed.
    fn forbid_unlisted(
        &self,
        theory: &mut Theory<D::NameId, D::SolvableId, D::Alloc>,
        solvable: D::SolvableId,
    ) -> Result<(), StoreError>
        ensures { OnOk result (AreStillSatisfied (⟦<D as ProviderFunctions>⟧.functions self.now.provider.now)
            (λ picked. All (λ s. is_allowed (⟦<D as ProviderFunctions>⟧.functions self.now.provider.now) s ≡ true)
            picked)
            theory.old.clauses.items theory.new.clauses.items) }
    {
        if !self.provider.knows_solvable(solvable) {
            return Err(StoreError::UnknownId);
        }
        if is_allowed(self.alloc, self.provider, solvable)? {
            return Ok(());
        }
        self.forbid(theory, solvable)
    }
}
