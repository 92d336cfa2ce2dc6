//! Where a cache keeps a list of candidates.
use std::marker::Model;
use typed_ids::{SameClone, SameValue};

/// Where a cache keeps a list of candidates: `SolverCache::list` shows it. It stays there.
#[derive(Clone, Copy, Debug, PartialEq, Eq)]
pub struct ListId {
    pub(crate) kind: ListKind,
    pub(crate) place: usize,
}

/// Which of a cache's lists.
#[derive(Clone, Copy, Debug, PartialEq, Eq)]
pub(crate) enum ListKind {
    /// The candidates that a version set holds.
    Matching,
    /// Those that it doesn't hold.
    NonMatching,
    /// The candidates of a requirement, best first.
    Sorted,
}

impl Model for ListId {
    ghost use Rattle.std.specs.Prelude.{ℕ};
    ghost use Rattle.solver_cache.specs.declared.list_id.ListKind.{ListKind};

    ghost Value = { ListKind × ℕ };

    ghost view = { λ id. (id.kind, id.place) };

    ghost inverse = { λ v. record { kind = v.0; place = v.1 } };
}

impl SameValue for ListId {
    ghost use Rattle.std.proofs.Common.{rules};

    ghost same = { λ a b h. Prim.search rules };
}

impl SameClone for ListId {
    ghost use Rattle.std.proofs.Common.{rules};

    ghost clone_is_same = { λ a b h. Prim.search rules };
}

impl SameValue for ListKind {
    ghost use Rattle.std.proofs.Common.{rules};

    ghost same = { λ a b h. Prim.search rules };
}

impl SameClone for ListKind {
    ghost use Rattle.std.proofs.Common.{rules};

    ghost clone_is_same = { λ a b h. Prim.search rules };
}
