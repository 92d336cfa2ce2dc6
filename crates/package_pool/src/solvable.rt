//! What can be picked.
use typed_ids::NameId;

/// A package in one version: a candidate for each requirement on its package's name.
#[derive(Drop)]
pub struct Solvable<V> {
    /// The package.
    pub name: NameId,
    /// What tells it from the package's other solvables, as its version.
    pub payload: V,
}
