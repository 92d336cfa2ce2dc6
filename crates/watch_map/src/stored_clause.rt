//! How a clause is kept.
ghost use Rattle.std.specs.Prelude.{◌≡◌};
ghost use Rattle.clauses.specs.declared.clause.Clause.TheVariants.{Requires};
ghost use Rattle.watch_map.specs.ClauseRecord.{recorded_clause};

use clauses::Clause;
use decisions::Literal;
use providers::Requirement;
use std::marker::Model;
use typed_ids::{
    DisjunctionId, LearntClauseId, SameClone, StringId, VariableId, VersionSetId, VersionSetUnionId,
};

/// A clause, in 16 bytes where names are ids of 32 bits: a contract sees the clause.
#[derive(Clone, Copy)]
pub(crate) struct StoredClause<N> {
    kept: ClauseRecord<N>,
}

/// A clause's kind, and what is said of it: three ids at most, since what a clause requires, and whether there is a
/// disjunction, is told by the kind.
#[derive(Clone, Copy)]
pub(crate) enum ClauseRecord<N> {
    InstallRoot,
    /// Requires a version set.
    RequiresSet(VariableId, VersionSetId),
    /// Requires a version set, or the disjunction.
    RequiresSetOr(VariableId, DisjunctionId, VersionSetId),
    /// Requires a union.
    RequiresUnion(VariableId, VersionSetUnionId),
    /// Requires a union, or the disjunction.
    RequiresUnionOr(VariableId, DisjunctionId, VersionSetUnionId),
    ForbidMultipleInstances(VariableId, Literal, N),
    Constrains(VariableId, VariableId, VersionSetId),
    ConstrainsExcluded(VariableId, VariableId, VersionSetId),
    ConstrainsParent(VariableId, VariableId, VersionSetId),
    Lock(VariableId, VariableId),
    Learnt(LearntClauseId),
    Excluded(VariableId, StringId),
    AnyOf(VariableId, VariableId),
}

impl<N> Model for StoredClause<N> {
    ghost use Rattle.std.proofs.Common.{ap};
    ghost use Rattle.clauses.specs.declared.clause.Clause.{Clause};
    ghost use Rattle.watch_map.specs.ClauseRecord.{recorded_clause, record_for, record_comes_back};

    ghost Value = { Clause N };

    ghost view = { λ a. recorded_clause a.kept };

    ghost inverse = { λ clause. record { kept = record_for clause } };

    ghost inverse_ok = { λ a h. ap (λ r. record { kept = r }) (record_comes_back a.kept) };
}

impl<N: Copy> StoredClause<N> {
    /// This clause.
    pub(crate) fn new(clause: Clause<N>) -> StoredClause<N>
        ensures { result ≡ clause }
    {
        let kept = match clause {
            Clause::InstallRoot => ClauseRecord::InstallRoot,
            Clause::Requires(parent, disjunction, requirement) => {
                requiring(parent, disjunction, requirement)
            }
            Clause::ForbidMultipleInstances(candidate, literal, name) => {
                ClauseRecord::ForbidMultipleInstances(candidate, literal, name)
            }
            Clause::Constrains(parent, forbidden, set) => {
                ClauseRecord::Constrains(parent, forbidden, set)
            }
            Clause::ConstrainsExcluded(candidate, aux, set) => {
                ClauseRecord::ConstrainsExcluded(candidate, aux, set)
            }
            Clause::ConstrainsParent(parent, aux, set) => {
                ClauseRecord::ConstrainsParent(parent, aux, set)
            }
            Clause::Lock(locked, other) => ClauseRecord::Lock(locked, other),
            Clause::Learnt(id) => ClauseRecord::Learnt(id),
            Clause::Excluded(candidate, reason) => ClauseRecord::Excluded(candidate, reason),
            Clause::AnyOf(selected, other) => ClauseRecord::AnyOf(selected, other),
        };
        StoredClause { kept }
    }

    /// The clause.
    #[inline(always)]
    pub(crate) fn clause(&self) -> Clause<N>
        ensures { result ≡ self.now }
    {
        match &self.kept {
            ClauseRecord::InstallRoot => Clause::InstallRoot,
            ClauseRecord::RequiresSet(parent, set) => {
                Clause::Requires(*parent, None, Requirement::Single(*set))
            }
            ClauseRecord::RequiresSetOr(parent, disjunction, set) => {
                Clause::Requires(*parent, Some(*disjunction), Requirement::Single(*set))
            }
            ClauseRecord::RequiresUnion(parent, union) => {
                Clause::Requires(*parent, None, Requirement::Union(*union))
            }
            ClauseRecord::RequiresUnionOr(parent, disjunction, union) => {
                Clause::Requires(*parent, Some(*disjunction), Requirement::Union(*union))
            }
            ClauseRecord::ForbidMultipleInstances(candidate, literal, name) => {
                Clause::ForbidMultipleInstances(*candidate, *literal, *name)
            }
            ClauseRecord::Constrains(parent, forbidden, set) => {
                Clause::Constrains(*parent, *forbidden, *set)
            }
            ClauseRecord::ConstrainsExcluded(candidate, aux, set) => {
                Clause::ConstrainsExcluded(*candidate, *aux, *set)
            }
            ClauseRecord::ConstrainsParent(parent, aux, set) => {
                Clause::ConstrainsParent(*parent, *aux, *set)
            }
            ClauseRecord::Lock(locked, other) => Clause::Lock(*locked, *other),
            ClauseRecord::Learnt(id) => Clause::Learnt(*id),
            ClauseRecord::Excluded(candidate, reason) => Clause::Excluded(*candidate, *reason),
            ClauseRecord::AnyOf(selected, other) => Clause::AnyOf(*selected, *other),
        }
    }
}

/// The record of a clause that requires this, where no literal of the disjunction is true.
fn requiring<N>(
    parent: VariableId,
    disjunction: Option<DisjunctionId>,
    requirement: Requirement,
) -> ClauseRecord<N>
    ensures { recorded_clause result ≡ Requires parent disjunction requirement }
{
    match (disjunction, requirement) {
        (None, Requirement::Single(set)) => ClauseRecord::RequiresSet(parent, set),
        (None, Requirement::Union(union)) => ClauseRecord::RequiresUnion(parent, union),
        (Some(id), Requirement::Single(set)) => ClauseRecord::RequiresSetOr(parent, id, set),
        (Some(id), Requirement::Union(union)) => ClauseRecord::RequiresUnionOr(parent, id, union),
    }
}

impl<N: SameClone> SameClone for StoredClause<N> {
    ghost use Rattle.std.proofs.Common.{rules};

    ghost clone_is_same = { λ a b h. Prim.search rules };
}
