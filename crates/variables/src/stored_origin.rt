//! How what a variable stands for is kept.
ghost use Rattle.std.specs.Prelude.{◌≡◌};
ghost use Rattle.variables.specs.declared.variable_origin.VariableOrigin.TheVariants.{RequiresGate};

use crate::variable_origin::VariableOrigin;
use providers::Requirement;
use std::marker::Model;
use typed_ids::{SameClone, VersionSetId, VersionSetUnionId};

/// What a variable stands for, in 8 bytes where names and solvables are ids of 32 bits: a contract sees the origin.
#[derive(Clone, Copy)]
pub(crate) struct StoredOrigin<N, S>(pub(crate) OriginRecord<N, S>);

/// What a variable stands for: one id at most, since the kind of a requirement is told by the kind of the origin.
#[derive(Clone, Copy)]
pub(crate) enum OriginRecord<N, S> {
    Root,
    Solvable(S),
    ForbidMultiple(N),
    AtLeastOne(N),
    ConstrainsViolation(VersionSetId),
    /// Stands for the candidates of a version set.
    SetGate(VersionSetId),
    /// Stands for those of a union.
    UnionGate(VersionSetUnionId),
}

impl<N, S> Model for StoredOrigin<N, S> {
    ghost use Rattle.std.proofs.Common.{ap};
    ghost use Rattle.variables.specs.declared.variable_origin.VariableOrigin.{VariableOrigin};
    ghost use Rattle.variables.specs.OriginRecord.{recorded_origin, record_for, record_comes_back};

    ghost Value = { VariableOrigin N S };

    ghost view = { λ a. recorded_origin a.0 };

    ghost inverse = { λ origin. record { 0 = record_for origin } };

    ghost inverse_ok = { λ a h. ap (λ r. record { 0 = r }) (record_comes_back a.0) };
}

impl<N: Copy, S: Copy> StoredOrigin<N, S> {
    /// Stands for a requirement's candidates.
    pub(crate) fn gate(requirement: Requirement) -> StoredOrigin<N, S>
        ensures { result ≡ RequiresGate requirement }
    {
        match requirement {
            Requirement::Single(set) => StoredOrigin(OriginRecord::SetGate(set)),
            Requirement::Union(union) => StoredOrigin(OriginRecord::UnionGate(union)),
        }
    }

    /// What the variable stands for.
    #[inline(always)]
    pub(crate) fn origin(&self) -> VariableOrigin<N, S>
        ensures { result ≡ self.now }
    {
        match &self.0 {
            OriginRecord::Root => VariableOrigin::Root,
            OriginRecord::Solvable(solvable) => VariableOrigin::Solvable(*solvable),
            OriginRecord::ForbidMultiple(name) => VariableOrigin::ForbidMultiple(*name),
            OriginRecord::AtLeastOne(name) => VariableOrigin::AtLeastOne(*name),
            OriginRecord::ConstrainsViolation(set) => VariableOrigin::ConstrainsViolation(*set),
            OriginRecord::SetGate(set) => VariableOrigin::RequiresGate(Requirement::Single(*set)),
            OriginRecord::UnionGate(union) => {
                VariableOrigin::RequiresGate(Requirement::Union(*union))
            }
        }
    }
}

impl<N: SameClone, S: SameClone> SameClone for StoredOrigin<N, S> {
    ghost use Rattle.std.proofs.Common.{rules};

    ghost clone_is_same = { λ a b h. Prim.search rules };
}
