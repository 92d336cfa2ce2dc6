//! Queries to a provider about packages and version sets.

use resolvo_ids::{StoreError, VersionSetId};
use resolvo_pool::{DependencyProvider, Interner};

/// The candidates of a package.
pub(crate) fn versions<D: DependencyProvider>(
    alloc: D::Alloc,
    provider: &D,
    name: D::NameId,
) -> Result<Vec<D::SolvableId, D::Alloc>, StoreError> {
    match provider.get_candidates(alloc, name)? {
        Some(found) => Ok(found.candidates),
        None => Ok(Vec::new(alloc)),
    }
}

/// The candidates of its package that a version set holds, or, if `inverse`, those that it doesn't.
pub(crate) fn candidates<D: DependencyProvider>(
    alloc: D::Alloc,
    provider: &D,
    set: VersionSetId,
    inverse: bool,
) -> Result<Vec<D::SolvableId, D::Alloc>, StoreError> {
    if !provider.knows_version_set(set) {
        return Err(StoreError::UnknownId);
    }
    match provider.get_candidates(alloc, provider.version_set_name(set))? {
        Some(all) => provider.filter_candidates(alloc, &all.candidates, set, inverse),
        None => Ok(Vec::new(alloc)),
    }
}

/// Whether a solvable is of the package of this name.
pub(crate) fn is_of<I: Interner>(interner: &I, solvable: I::SolvableId, name: I::NameId) -> bool {
    interner.knows_solvable(solvable) && interner.solvable_name(solvable) == name
}
