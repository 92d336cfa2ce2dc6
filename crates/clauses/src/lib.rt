//! Clauses: what packages ask of each other, as literals of which one has to be true.
//!
//! `clause` has the ten kinds, and `disjunction` the literals that negate a part of a condition. `literal_walk`
//! walks over a clause's literals in place; `specs/Stored` has what clauses refer to by ids.
//! `clause_text` has the clauses' texts (`specs/ClauseTexts`). `specs/Clauses` says for each kind which literals a
//! clause has, which two a new one watches, and when it counts as a conflict.
#![tactic(auto)]

mod clause;
mod clause_text;
mod disjunction;
mod literal_walk;

pub use clause::Clause;
pub use disjunction::Disjunction;
pub use literal_walk::{LiteralWalk, negative, positive};
