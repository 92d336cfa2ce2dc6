//! Which versions of a package will do.
use std::fmt::Display;
use std::hash::Hash;

/// A set of versions of a package. Equal sets are the same one to a pool.
pub trait VersionSet: Eq + Hash {
    /// What a set holds, as versions.
    type V: Display;
}
