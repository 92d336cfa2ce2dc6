//! What a variable stands for.
ghost use Rattle.std.specs.Prelude.{◌≡◌};

use providers::Requirement;
use typed_ids::{SameClone, SolvableIdOrRoot, VersionSetId};

/// What a variable stands for.
#[derive(Clone, Copy, Debug)]
pub enum VariableOrigin<N, S> {
    /// The root of the decisions.
    Root,
    /// A solvable is part of the solution.
    Solvable(S),
    /// Helps to say that at most one of a package's solvables is part of the solution.
    ForbidMultiple(N),
    /// Some solvable of the package is part of the solution.
    AtLeastOne(N),
    /// A solvable outside the version set is part of the solution.
    ConstrainsViolation(VersionSetId),
    /// Stands for a requirement's candidates, wherever they are required.
    RequiresGate(Requirement),
}

impl<N: Copy, S: Copy> VariableOrigin<N, S> {
    ghost use Rattle.variables.specs.Variables.{solvable_of, key_of};

    /// The solvable, if it stands for one.
    pub fn as_solvable(&self) -> Option<S>
        ensures { result ≡ solvable_of self.now }
    {
        match self {
            VariableOrigin::Solvable(solvable) => Some(*solvable),
            VariableOrigin::Root => None,
            VariableOrigin::ForbidMultiple(_) => None,
            VariableOrigin::AtLeastOne(_) => None,
            VariableOrigin::ConstrainsViolation(_) => None,
            VariableOrigin::RequiresGate(_) => None,
        }
    }

    /// The root or the solvable, if it stands for one of these.
    pub fn as_solvable_or_root(&self) -> Option<SolvableIdOrRoot<S>>
        ensures { result ≡ key_of self.now }
    {
        match self {
            VariableOrigin::Root => Some(SolvableIdOrRoot::Root),
            VariableOrigin::Solvable(solvable) => Some(SolvableIdOrRoot::Solvable(*solvable)),
            VariableOrigin::ForbidMultiple(_) => None,
            VariableOrigin::AtLeastOne(_) => None,
            VariableOrigin::ConstrainsViolation(_) => None,
            VariableOrigin::RequiresGate(_) => None,
        }
    }
}

impl<N: SameClone, S: SameClone> SameClone for VariableOrigin<N, S> {
    ghost use Rattle.std.proofs.Common.{rules};

    ghost clone_is_same = { λ a b h. Prim.search rules };
}
