//! The clauses that follow from reasons, and from what variables stand for.

use crate::numbering::Variables;
use crate::queries::{candidates, is_of, versions};
use picking::{PackageLiteral, Reason};
use resolvo_ids::{StoreError, VersionSetId};
use resolvo_pool::{DependencyProvider, Interner};

/// A clause: at least one of its literals is true.
pub(crate) type Clause<S, A> = Vec<PackageLiteral<S>, A>;

pub(crate) type Clauses<S, A> = Vec<Vec<PackageLiteral<S>, A>, A>;

/// Makes clauses of what a provider says.
#[derive(Drop)]
pub(crate) struct Clausifier<'p, D: DependencyProvider> {
    pub(crate) alloc: D::Alloc,
    pub(crate) provider: &'p D,
}

impl<D: DependencyProvider> Clausifier<'_, D> {
    /// Adds the clauses of a reason. Of "one version of a package" it has those of the versions that have a variable.
    pub(crate) fn push_reason(
        &self,
        variables: &Variables<D::SolvableId, D::Alloc>,
        clauses: &mut Clauses<D::SolvableId, D::Alloc>,
        reason: Reason<D::NameId, D::SolvableId>,
    ) -> Result<(), StoreError> {
        match reason {
            Reason::Needs(parent, need) => self.push_need(clauses, parent, need),
            Reason::Lacks(parent, need) => self.push_need(clauses, parent, need),
            Reason::Limits(solvable, set) => self.push_limit(clauses, solvable, set),
            Reason::Unknown(solvable, _) => self.push_forbidden(clauses, solvable),
            Reason::Excluded(solvable, _) => self.push_forbidden(clauses, solvable),
            Reason::Locked(solvable) => self.push_lock(clauses, solvable),
            Reason::OneVersion(name) => self.push_one_version(variables, clauses, name),
        }
    }

    /// Adds that the solvable isn't picked.
    fn push_forbidden(
        &self,
        clauses: &mut Clauses<D::SolvableId, D::Alloc>,
        solvable: D::SolvableId,
    ) -> Result<(), StoreError> {
        let clause = self.one(PackageLiteral::Picked(solvable, false))?;
        Ok(clauses.push(clause)?)
    }

    /// Adds that, if the solvable is picked, no candidate is that the version set doesn't hold.
    fn push_limit(
        &self,
        clauses: &mut Clauses<D::SolvableId, D::Alloc>,
        solvable: D::SolvableId,
        set: VersionSetId,
    ) -> Result<(), StoreError> {
        let outside = candidates(self.alloc, self.provider, set, true)?;
        self.push_unpicked(clauses, PackageLiteral::Picked(solvable, false), &outside)
    }

    /// Adds that the version set holds something that is picked, if one of its candidates is.
    pub(crate) fn push_definition(
        &self,
        clauses: &mut Clauses<D::SolvableId, D::Alloc>,
        set: VersionSetId,
    ) -> Result<(), StoreError> {
        let held = candidates(self.alloc, self.provider, set, false)?;
        self.push_unpicked(clauses, PackageLiteral::Held(set, true), &held)
    }

    /// Adds that, unless the literal is true, none of the solvables is picked.
    fn push_unpicked(
        &self,
        clauses: &mut Clauses<D::SolvableId, D::Alloc>,
        unless: PackageLiteral<D::SolvableId>,
        solvables: &[D::SolvableId],
    ) -> Result<(), StoreError> {
        for solvable in solvables {
            let clause = self.two(unless, PackageLiteral::Picked(*solvable, false))?;
            clauses.push(clause)?;
        }
        Ok(())
    }

    /// Adds that no other version of the solvable's package is picked.
    fn push_lock(
        &self,
        clauses: &mut Clauses<D::SolvableId, D::Alloc>,
        locked: D::SolvableId,
    ) -> Result<(), StoreError> {
        if !self.provider.knows_solvable(locked) {
            return Err(StoreError::UnknownId);
        }
        let name = self.provider.solvable_name(locked);
        let all = versions(self.alloc, self.provider, name)?;
        for version in &all {
            if *version != locked && is_of(self.provider, *version, name) {
                self.push_forbidden(clauses, *version)?;
            }
        }
        Ok(())
    }

    /// Adds that no two versions of a package are picked that have a variable.
    fn push_one_version(
        &self,
        variables: &Variables<D::SolvableId, D::Alloc>,
        clauses: &mut Clauses<D::SolvableId, D::Alloc>,
        name: D::NameId,
    ) -> Result<(), StoreError> {
        let mut earlier = Vec::new(self.alloc);
        let all = versions(self.alloc, self.provider, name)?;
        for version in &all {
            if variables.has(PackageLiteral::Picked(*version, true)) {
                self.push_pairs(clauses, name, &earlier, *version)?;
                earlier.push(*version)?;
            }
        }
        Ok(())
    }

    /// Adds, for each of some versions of a package, that it isn't picked beside another one.
    fn push_pairs(
        &self,
        clauses: &mut Clauses<D::SolvableId, D::Alloc>,
        name: D::NameId,
        earlier: &[D::SolvableId],
        version: D::SolvableId,
    ) -> Result<(), StoreError> {
        for other in earlier {
            self.push_pair(clauses, name, *other, version)?;
        }
        Ok(())
    }

    /// Adds that not both solvables are picked, if they are different ones of a package.
    fn push_pair(
        &self,
        clauses: &mut Clauses<D::SolvableId, D::Alloc>,
        name: D::NameId,
        one: D::SolvableId,
        other: D::SolvableId,
    ) -> Result<(), StoreError> {
        if one == other || !is_of(self.provider, one, name) || !is_of(self.provider, other, name) {
            return Ok(());
        }
        let clause = self.two(
            PackageLiteral::Picked(one, false),
            PackageLiteral::Picked(other, false),
        )?;
        Ok(clauses.push(clause)?)
    }

    /// The clause of this literal.
    pub(crate) fn one(
        &self,
        literal: PackageLiteral<D::SolvableId>,
    ) -> Result<Clause<D::SolvableId, D::Alloc>, StoreError> {
        let mut clause = Vec::new(self.alloc);
        clause.push(literal)?;
        Ok(clause)
    }

    /// The clause of these two literals.
    fn two(
        &self,
        one: PackageLiteral<D::SolvableId>,
        other: PackageLiteral<D::SolvableId>,
    ) -> Result<Clause<D::SolvableId, D::Alloc>, StoreError> {
        let mut clause = Vec::new(self.alloc);
        clause.push(one)?;
        clause.push(other)?;
        Ok(clause)
    }
}
