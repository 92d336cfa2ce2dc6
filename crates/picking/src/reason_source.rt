//! The packages of a provider, as if only some reasons were so.
use crate::explaining::dependent;
use crate::package_source::{PackageSource, ProvidedPackages};
use crate::search::Result;
use resolvo_ids::{ConditionId, IdSet, SolverId, VersionSetId};
use resolvo_pool::{
    Candidates, ConditionalRequirement, Dependencies, DependencyProvider, Interner,
    KnownDependencies,
};
use solutions::Reason;
use std::alloc::Allocator;

/// Packages of which nothing is so but what these reasons say. The dependencies of solvables are not queried.
#[derive(Drop)]
pub(crate) struct ReasonPackages<'r, D: DependencyProvider> {
    provided: ProvidedPackages<D>,
    reasons: &'r [Reason<D::NameId, D::SolvableId>],
    /// The packages of which at most one version may be picked.
    single: <D::NameId as SolverId<D::Alloc>>::Set,
    /// Those of the reasons for which a package rules out solvables.
    bans: Vec<Reason<D::NameId, D::SolvableId>, D::Alloc>,
    alloc: D::Alloc,
}

impl<'r, D: DependencyProvider + Copy> ReasonPackages<'r, D> {
    pub(crate) fn new(
        alloc: D::Alloc,
        provider: D,
        reasons: &'r [Reason<D::NameId, D::SolvableId>],
    ) -> Result<Self> {
        let mut single = <<D::NameId as SolverId<D::Alloc>>::Set as IdSet<
            D::NameId,
            D::Alloc,
        >>::new(alloc);
        let mut bans = Vec::new(alloc);
        for reason in reasons {
            match reason {
                Reason::OneVersion(name) => {
                    single.insert(*name)?;
                }
                Reason::Excluded(_, _) | Reason::Locked(_) => bans.push(*reason)?,
                _ => {}
            }
        }
        Ok(ReasonPackages {
            provided: ProvidedPackages::new(alloc, provider),
            reasons,
            single,
            bans,
            alloc,
        })
    }
}

impl<'r, D: DependencyProvider + Copy> PackageSource<D::NameId, D::SolvableId, D::Alloc>
    for ReasonPackages<'r, D> {
    fn name(&self, solvable: D::SolvableId) -> Option<D::NameId> {
        self.provided.name(solvable)
    }

    fn package(&mut self, name: D::NameId) -> Result<&Candidates<D::SolvableId, D::Alloc>> {
        self.provided.package(name)
    }

    fn is_one_version(&self, name: D::NameId) -> bool {
        self.single.contains(name)
    }

    fn bans(
        &mut self,
        name: D::NameId,
        solvable: D::SolvableId,
    ) -> Result<Vec<Reason<D::NameId, D::SolvableId>, D::Alloc>> {
        let mut bans = Vec::new(self.alloc);
        for reason in &self.bans {
            let rules_out = match reason {
                Reason::Excluded(excluded, _) => *excluded == solvable,
                Reason::Locked(locked) => {
                    *locked != solvable && self.provided.name(*locked) == Some(name)
                }
                _ => false,
            };
            if rules_out {
                bans.push(*reason)?;
            }
        }
        Ok(bans)
    }

    fn outside(&mut self, set: VersionSetId) -> Result<&[D::SolvableId]> {
        self.provided.outside(set)
    }

    fn needs(&self, solvable: D::SolvableId) -> Result<Dependencies<D::Alloc>> {
        let mut needs = KnownDependencies::new(self.alloc);
        for reason in self.reasons {
            if dependent(reason) == Some(solvable) {
                match reason {
                    Reason::Needs(_, conditional) | Reason::Lacks(_, conditional) => {
                        needs.requirements.push(*conditional)?;
                    }
                    Reason::Limits(_, set) => needs.constrains.push(*set)?,
                    Reason::Unknown(_, string) => return Ok(Dependencies::Unknown(*string)),
                    _ => {}
                }
            }
        }
        Ok(Dependencies::Known(needs))
    }

    fn lists(&self, condition: ConditionId) -> Result<Vec<Vec<VersionSetId, D::Alloc>, D::Alloc>> {
        self.provided.lists(condition)
    }

    fn check_cancelled(&self) -> Result<()> {
        self.provided.check_cancelled()
    }

    fn score(&self, name: D::NameId) -> u64 {
        self.provided.score(name)
    }

    fn raise(&mut self, name: D::NameId) -> Result<()> {
        self.provided.raise(name)
    }

    fn age(&mut self) {
        self.provided.age();
    }
}

/// What the reasons say is requested.
pub(crate) fn requested_by<N: Copy, S: Copy, A: Allocator>(
    alloc: A,
    reasons: &[Reason<N, S>],
) -> Result<Vec<ConditionalRequirement, A>> {
    let mut requested = Vec::new(alloc);
    for reason in reasons {
        match reason {
            Reason::Needs(None, conditional) | Reason::Lacks(None, conditional) => {
                requested.push(*conditional)?;
            }
            _ => {}
        }
    }
    Ok(requested)
}
