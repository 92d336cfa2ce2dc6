//! How far a script was read.
use script_packages::Packages;

/// How far a script was read. `C` is the store that obeys its commands.
#[derive(Drop)]
pub(crate) enum Stage<C> {
    /// The next line is one of the catalogue, which has listed these packages so far.
    Catalogue(Packages),
    /// The next line is a command to this store.
    Commands(C),
}
