//! The literals of what a search learns.
use resolvo_ids::VersionSetId;

/// A literal, in the provider's ids. A clause that a search learnt is a list of these, of which one is true in each
/// solution.
#[derive(Clone, Copy, Debug)]
pub enum PackageLiteral<S> {
    /// The solvable is picked, or if this is false, it isn't.
    Picked(S, bool),
    /// A candidate that the version set holds is picked, or if this is false, none is.
    Held(VersionSetId, bool),
}
