//! The groups of a clause that is to be added.
use std::marker::Model;

/// The numbers of the groups of a clause that is to be added.
#[derive(Drop)]
pub struct ClauseGroups {
    /// The group of the parent's negation.
    pub(crate) parent: u32,
    /// The group of the condition's literals, if the clause has a condition.
    pub(crate) condition: Option<u32>,
    /// The group of the requirement's rows.
    pub(crate) rows: u32,
}

/// The numbers, in the order of the fields.
impl Model for ClauseGroups {
    ghost use Rattle.std.specs.Prelude.{ℕ, List};
    ghost use Rattle.falsified_clauses.specs.GroupKeys.{numbers};

    ghost Value = { List ℕ };

    ghost view = { λ g. numbers g.parent g.condition g.rows };
}
