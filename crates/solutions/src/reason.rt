//! Why there is no solution.
use resolvo_ids::{SameValue, StringId, VersionSetId};
use resolvo_pool::ConditionalRequirement;

/// One of the reasons for which together there is no solution, in the provider's ids: `N` are its names, `S` its
/// solvables.
#[derive(Clone, Copy)]
#[derive_where(Debug, PartialEq, Eq; N, S)]
pub enum Reason<N, S> {
    /// The solvable needs this; without a solvable, it is requested.
    Needs(Option<S>, ConditionalRequirement),
    /// The same, and there is no candidate.
    Lacks(Option<S>, ConditionalRequirement),
    /// The solvable forbids each candidate that the version set doesn't hold.
    Limits(S, VersionSetId),
    /// What the solvable needs isn't known, for the reason that the string says.
    Unknown(S, StringId),
    /// The solvable's package excludes it, for the reason that the string says.
    Excluded(S, StringId),
    /// The solvable's package is locked to it.
    Locked(S),
    /// At most one version of the package is picked.
    OneVersion(N),
}

impl<N: SameValue, S: SameValue> SameValue for Reason<N, S> {
    ghost use Rattle.std.proofs.Common.{rules};

    ghost same = { λ a b h. Prim.search rules };
}
