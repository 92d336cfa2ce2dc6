//! Lines: what is said of several versions of a package together.
ghost use Rattle.std.specs.Prelude.{◌≡◌};
ghost use Rattle.reports.specs.Lines.{solvable_of, said_of};

use solutions::Reason;
use std::alloc::Allocator;

/// Reasons that say the same of versions of one package, told together.
#[derive(Drop)]
pub struct Line<N, S, A: Allocator> {
    /// The first reason.
    pub reason: Reason<N, S>,
    /// The versions that the line names. The first reason's comes first. Empty if the line names none.
    pub versions: Vec<S, A>,
}

/// The solvable of which a reason speaks.
pub(crate) fn solvable_of<N: Copy, S: Copy>(reason: Reason<N, S>) -> Option<S>
    ensures { result ≡ solvable_of reason }
{
    match reason {
        Reason::Needs(solvable, _) | Reason::Lacks(solvable, _) => solvable,
        Reason::Limits(solvable, _) | Reason::Unknown(solvable, _) => Some(solvable),
        Reason::Excluded(solvable, _) | Reason::Locked(solvable) => Some(solvable),
        Reason::OneVersion(_) => None,
    }
}

/// The same, said of another solvable.
pub(crate) fn said_of<N: Copy, S: Copy>(reason: Reason<N, S>, solvable: S) -> Reason<N, S>
    ensures { result ≡ said_of reason solvable }
{
    match reason {
        Reason::Needs(Some(_), need) => Reason::Needs(Some(solvable), need),
        Reason::Lacks(Some(_), need) => Reason::Lacks(Some(solvable), need),
        Reason::Limits(_, set) => Reason::Limits(solvable, set),
        Reason::Unknown(_, string) => Reason::Unknown(solvable, string),
        Reason::Excluded(_, string) => Reason::Excluded(solvable, string),
        Reason::Locked(_) => Reason::Locked(solvable),
        Reason::Needs(None, _) | Reason::Lacks(None, _) | Reason::OneVersion(_) => reason,
    }
}
