//! What is wished of new packages: of each dependency the first alternative, and what they recommend.
//!
//! Which packages will be new isn't known before the search. So it is guessed: what is requested, and of each
//! dependency and recommendation that nothing installed meets the first alternative (`guess`). What the guess missed is
//! added when there is a solution (`add`), and the search begins again. A wish is "this package isn't there, or the
//! first of these is, or the second": so it does no harm where a guessed package isn't picked. Since "isn't there" is
//! the best, the wishes that bring a package in come before its own.
ghost use Rattle.std.specs.Prelude.{OnOk};
ghost use Rattle.apt_solver.specs.Search.{StaysWhole};

use crate::wishes::{Wishes, installed_of, is_installed, picked};
use debian_provider::Archive;
use debian_scenario::Package;
use resolvo_ids::{IndexedSet, SolvableId, StoreError};
use solutions::{Alternative, Wish};
use std::alloc::Global;

/// The wishes for what is recommended.
#[derive(Drop)]
pub(crate) struct Recommending {
    /// The packages whose recommendations are among the wishes.
    asked: IndexedSet<SolvableId>,
}

impl Recommending {
    /// No wishes so far.
    pub(crate) fn new(alloc: Global) -> Self {
        Recommending {
            asked: IndexedSet::new(alloc),
        }
    }

    /// Adds the wishes of the packages that are likely to be new.
    pub(crate) fn guess(
        &mut self,
        archive: &mut Archive<'_, '_>,
        wishes: &mut Wishes,
    ) -> Result<(), StoreError>
        ensures { OnOk result (StaysWhole archive.old archive.new) }
    {
        let mut likely = archive.requested()?;
        for place in 0..archive.packages().len() {
            let Some(solvable) = likely.get(place).copied() else {
                break;
            };
            self.follow(archive, solvable, &mut likely, wishes)?;
        }
        Ok(())
    }

    /// Adds the wishes of a package that is likely to be new, and the packages that are likely with it.
    #[tactic(auto, using(crate::proofs::Stays::stays_itself))]
    fn follow(
        &mut self,
        archive: &mut Archive<'_, '_>,
        solvable: SolvableId,
        likely: &mut Vec<SolvableId>,
        wishes: &mut Wishes,
    ) -> Result<(), StoreError>
        ensures { OnOk result (StaysWhole archive.old archive.new) }
    {
        let Some(package) = archive.package(solvable).copied() else {
            return Ok(());
        };
        if self.asked.contains(solvable) || is_installed(archive, solvable) {
            return Ok(());
        }
        self.asked.insert(solvable)?;
        let relations = &package.relations;
        for field in [relations.pre_depends, relations.depends] {
            for list in &archive.meeting(&package, field)? {
                if add_likely(archive, list, likely)? && list.len() > 1 {
                    add_wish(solvable, list, wishes)?;
                }
            }
        }
        add_recommended(archive, solvable, &package, likely, wishes)
    }

    /// Adds the wishes of the packages of these solvables that weren't asked so far. Answers whether there was one.
    pub(crate) fn add(
        &mut self,
        archive: &mut Archive<'_, '_>,
        solvables: &[SolvableId],
        wishes: &mut Wishes,
    ) -> Result<bool, StoreError>
        ensures { OnOk result (StaysWhole archive.old archive.new) }
    {
        let before = wishes.len();
        for solvable in solvables {
            self.add_one(archive, *solvable, solvables, wishes)?;
        }
        Ok(wishes.len() > before)
    }

    /// Adds the wishes of the package of a solvable, unless it was asked.
    #[tactic(auto, using(crate::proofs::Stays::stays_itself))]
    fn add_one(
        &mut self,
        archive: &mut Archive<'_, '_>,
        solvable: SolvableId,
        there: &[SolvableId],
        wishes: &mut Wishes,
    ) -> Result<(), StoreError>
        ensures { OnOk result (StaysWhole archive.old archive.new) }
    {
        if self.asked.contains(solvable) {
            return Ok(());
        }
        self.asked.insert(solvable)?;
        let Some(package) = archive.package(solvable).copied() else {
            return Ok(());
        };
        add_of(archive, solvable, &package, there, wishes)
    }
}

/// Adds the first of these solvables to those that are likely, unless one of them is likely or installed. Answers
/// whether it was added.
fn add_likely(
    archive: &Archive<'_, '_>,
    solvables: &[SolvableId],
    likely: &mut Vec<SolvableId>,
) -> Result<bool, StoreError> {
    let [first, ..] = solvables else {
        return Ok(false);
    };
    for solvable in solvables {
        if is_installed(archive, *solvable) || likely.contains(solvable) {
            return Ok(false);
        }
    }
    likely.push(*first)?;
    Ok(true)
}

/// Adds what a package that is likely to be new recommends, and its wishes.
fn add_recommended<'t>(
    archive: &mut Archive<'_, 't>,
    solvable: SolvableId,
    package: &Package<'t>,
    likely: &mut Vec<SolvableId>,
    wishes: &mut Wishes,
) -> Result<(), StoreError>
    ensures { OnOk result (StaysWhole archive.old archive.new) }
{
    for list in &archive.meeting(package, package.relations.recommends)? {
        let _ = add_likely(archive, list, likely)?;
    }
    add_of(archive, solvable, package, likely.as_slice(), wishes)
}

/// Adds the wishes of a package, if they count: those of a new one; and with `Autoremove` those of others, as far as
/// what they recommend is installed. What is there anyway comes first.
#[tactic(auto, using(crate::proofs::Stays::stays_itself))]
fn add_of<'t>(
    archive: &mut Archive<'_, 't>,
    solvable: SolvableId,
    package: &Package<'t>,
    there: &[SolvableId],
    wishes: &mut Wishes,
) -> Result<(), StoreError>
    ensures { OnOk result (StaysWhole archive.old archive.new) }
{
    let is_new = !is_installed_beside(archive, package);
    let autoremove = archive.request().actions.autoremove;
    if !is_new && !autoremove {
        return Ok(());
    }
    for list in &archive.meeting(package, package.relations.recommends)? {
        let installed = installed_of(archive, list)?;
        if installed.is_empty() {
            if is_new && !list.is_empty() {
                add_wish(solvable, &there_first(list, there)?, wishes)?;
            }
        } else if autoremove {
            add_wish(solvable, &installed, wishes)?;
        }
    }
    Ok(())
}

/// These solvables, those first that are there anyway.
fn there_first(
    solvables: &Vec<SolvableId>,
    there: &[SolvableId],
) -> Result<Vec<SolvableId>, StoreError> {
    let mut sorted = Vec::new(*solvables.allocator());
    for is_there in [true, false] {
        for solvable in solvables {
            if there.contains(solvable) == is_there {
                sorted.push(*solvable)?;
            }
        }
    }
    Ok(sorted)
}

/// Adds that a solvable isn't picked, or the first of these is.
fn add_wish(
    solvable: SolvableId,
    recommended: &Vec<SolvableId>,
    wishes: &mut Wishes,
) -> Result<(), StoreError> {
    let mut alternatives = Vec::new(*recommended.allocator());
    alternatives.push(Alternative {
        solvable,
        is_picked: false,
    })?;
    for other in recommended {
        alternatives.push(picked(*other))?;
    }
    wishes.push(Wish { alternatives })?;
    Ok(())
}

/// Whether a version of a package's name is installed.
fn is_installed_beside<'t>(archive: &Archive<'_, 't>, package: &Package<'t>) -> bool {
    archive
        .versions_beside(package)
        .iter()
        .any(|solvable| is_installed(archive, *solvable))
}
