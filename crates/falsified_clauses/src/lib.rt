//! Requires clauses, and which of them is falsified and comes first.
//!
//! A requires clause says: if its parent is true, one of the rows of its requirement is, unless a literal of its
//! condition's disjunction is true. It is falsified when its parent is true, and each literal of the disjunction and
//! each row is false: then no decision can meet it.
//!
//! Nothing is looked for. The literals of a clause lie in two or three groups, and `clause_counters` counts them as
//! they become false and undecided:
//!
//! ```text
//!  group of         literals                             shared by the clauses
//!
//!  a parent         its negation                         of one parent
//!  a condition      those of its disjunction             under one condition
//!  a requirement    its rows: candidates, list by list   of one requirement
//! ```
//!
//! `group_key` says what a group is of, `group_index` finds its number by that, and `key_group` makes one in the
//! counters. `demand` has what a clause says, `clause_groups` the groups of a clause that is to be added, and
//! `falsified_clauses` is all of it. `key_log` is for proofs: the keys in the order of their groups' numbers.
//!
//! A clause is added in two steps: `prepare` takes all memory and may refuse, `add` can't.
//!
//! What is kept `Counts` clauses, each with the first clause of its parent, over lists of rows, disjunctions and a
//! function that tells the false literals (`specs/Clauses`, `specs/Counts`). Each contract says what its call does to
//! that. When a clause is falsified is said in `specs/Falsified`, by the clause's own parts.
#![tactic(auto)]

mod clause_groups;
mod demand;
mod falsified_clauses;
mod group_index;
mod group_key;
mod key_group;
mod key_log;

pub use clause_groups::ClauseGroups;
pub use demand::Demand;
pub use falsified_clauses::FalsifiedClauses;
