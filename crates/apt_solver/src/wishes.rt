//! What is wished of what is installed and requested.
//!
//! A name that is installed has a **favored** version: the installed one, or the candidate if the name is asked for or
//! all are upgraded. What new packages bring with them is in `recommending`.
use debian_provider::Archive;
use resolvo_ids::{SolvableId, StoreError};
use solutions::{Alternative, Wish};
use std::alloc::Global;

pub(crate) type Wishes = Vec<Wish<SolvableId, Global>>;

/// That each installed package keeps a version, the favored one if it can be, those that were installed by hand before
/// the automatic ones. With `Autoremove` an automatic package isn't kept for its own sake.
pub(crate) fn kept(alloc: Global, archive: &Archive<'_, '_>) -> Result<Wishes, StoreError> {
    let mut wishes = Vec::new(alloc);
    add_installed(alloc, archive, false, &mut wishes)?;
    if !archive.request().actions.autoremove {
        add_installed(alloc, archive, true, &mut wishes)?;
    }
    Ok(wishes)
}

/// That the automatic packages that are installed are kept, or the others.
fn add_installed(
    alloc: Global,
    archive: &Archive<'_, '_>,
    is_automatic: bool,
    wishes: &mut Wishes,
) -> Result<(), StoreError> {
    for package in archive.packages() {
        if package.state.is_installed && package.state.is_automatic == is_automatic {
            let versions = archive.versions_beside(package);
            if !versions.is_empty() {
                wishes.push(favoring(alloc, archive, versions)?)?;
            }
        }
    }
    Ok(())
}

/// Adds, for each name that is installed and has several versions, that it has the favored one.
pub(crate) fn add_favored(
    alloc: Global,
    archive: &Archive<'_, '_>,
    wishes: &mut Wishes,
) -> Result<(), StoreError> {
    for package in archive.packages() {
        if package.state.is_installed {
            let versions = archive.versions_beside(package);
            if versions.len() > 1 {
                wishes.push(favoring(alloc, archive, versions)?)?;
            }
        }
    }
    Ok(())
}

/// Adds, for each name that is asked for and has several versions, that it has the favored one.
pub(crate) fn add_asked(
    alloc: Global,
    archive: &Archive<'_, '_>,
    wishes: &mut Wishes,
) -> Result<(), StoreError> {
    for solvable in &archive.requested()? {
        if let Some(package) = archive.package(*solvable) {
            let versions = archive.versions_beside(package);
            if versions.len() > 1 {
                wishes.push(favoring(alloc, archive, versions)?)?;
            }
        }
    }
    Ok(())
}

/// That one of these versions is picked, the favored one before the others.
fn favoring(
    alloc: Global,
    archive: &Archive<'_, '_>,
    versions: &[SolvableId],
) -> Result<Wish<SolvableId, Global>, StoreError> {
    let favored = archive.favored(versions);
    let mut alternatives = Vec::new(alloc);
    if let Some(solvable) = favored {
        alternatives.push(picked(solvable))?;
    }
    for solvable in versions {
        if favored != Some(*solvable) {
            alternatives.push(picked(*solvable))?;
        }
    }
    Ok(Wish { alternatives })
}

/// That a solvable is picked.
pub(crate) fn picked(solvable: SolvableId) -> Alternative<SolvableId> {
    Alternative {
        solvable,
        is_picked: true,
    }
}

/// Those of these solvables that are installed.
pub(crate) fn installed_of(
    archive: &Archive<'_, '_>,
    solvables: &Vec<SolvableId>,
) -> Result<Vec<SolvableId>, StoreError> {
    let mut found = Vec::new(*solvables.allocator());
    for solvable in solvables {
        if is_installed(archive, *solvable) {
            found.push(*solvable)?;
        }
    }
    Ok(found)
}

/// Whether a solvable is installed.
pub(crate) fn is_installed(archive: &Archive<'_, '_>, solvable: SolvableId) -> bool {
    match archive.package(solvable) {
        Some(package) => package.state.is_installed,
        None => false,
    }
}
