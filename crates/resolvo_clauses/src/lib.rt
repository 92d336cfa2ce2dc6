//! Variables, literals, clauses, their watch lists and the trail of decisions: the facade of five crates.
//!
//! | crate | what it has |
//! |---|---|
//! | `decisions` | literals, decisions, and the trail of decisions |
//! | `variables` | what each variable stands for, the variables of solvables; a variable's literals and text |
//! | `clauses` | the kinds of clauses, and their literals |
//! | `at_most_once` | clauses by which at most one of several variables is true |
//! | `watch_map` | the two literals that a clause watches, the clauses that watch a literal, and a walk over them |
//!
//! A contract names a definition of theirs as `Rattle.resolvo_clauses.specs.TOPIC`, and a type with its variants as
//! `Rattle.resolvo_clauses.specs.Types.NAME`.
#![tactic(auto)]

pub use at_most_once::AtMostOnceTracker;
pub use clauses::{Clause, Disjunction};
pub use decisions::{AddFault, Decision, DecisionMap, DecisionTracker, Literal};
pub use variables::{VariableInfo, VariableMap, VariableOrigin};
pub use watch_map::{WatchMap, WatchMapCursor, WatchedLiterals};
