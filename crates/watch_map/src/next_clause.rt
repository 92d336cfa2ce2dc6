//! What comes next in a list of clauses.
ghost use Rattle.std.specs.Prelude.{◌≡◌};

use std::fmt;
use std::marker::Model;
use typed_ids::{ClauseId, DenseIndex, SameClone};

/// The next clause of a list, or none, in four bytes: 0 is none, else it is the clause's index and one.
#[derive(Clone, Copy)]
pub(crate) struct NextClause(u32);

impl Model for NextClause {
    ghost use Rattle.std.specs.Prelude.{ℕ, ◌<◌, ◌^◌, Option};
    ghost use Rattle.std.proofs.Common.{ap};
    ghost use Rattle.watch_map.specs.NextCode.{next_of_code, code_of_next, code_comes_back};

    ghost Value = { Option ℕ };

    ghost view = { λ a. next_of_code a.0 };

    ghost invariant = { λ a. a.0 < 2 ^ 32 };

    ghost inverse = { λ next. record { 0 = code_of_next next } };

    ghost inverse_ok = { λ a h. ap (λ (n : ℕ). record { 0 = n }) (code_comes_back a.0) };
}

impl NextClause {
    /// This clause, or none.
    pub(crate) fn new(clause_id: Option<ClauseId>) -> NextClause
        ensures { result ≡ clause_id }
    {
        match clause_id {
            Some(clause_id) => NextClause(clause_id.to_index() as u32 + 1),
            None => NextClause(0),
        }
    }

    /// The clause, if there is one.
    pub(crate) fn clause_id(self) -> Option<ClauseId>
        ensures { result ≡ self }
    {
        if self.0 == 0 {
            return None;
        }
        Some(ClauseId::from_index((self.0 - 1) as usize))
    }
}

/// Writes as the clause, if there is one, does.
impl fmt::Debug for NextClause {
    fn fmt<W: fmt::Write>(&self, f: &mut fmt::Formatter<W>) -> fmt::Result {
        self.clause_id().fmt(f)
    }
}

impl SameClone for NextClause {
    ghost use Rattle.std.proofs.Common.{rules};

    ghost clone_is_same = { λ a b h. Prim.search rules };
}
