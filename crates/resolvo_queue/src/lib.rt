//! The queue of requires clauses, and the decision that it picks.
//!
//! A requires clause says: if its parent is installed, and its condition is met, then so is one of the candidates of
//! its requirement. The queue goes through the clauses whose parent is true, parent by parent in the order in which the
//! parents came, and tells the first clause that nothing can meet any more; where there is none, it tells the candidate
//! to try next.
//!
//! `decide_queue` has the queue, and `row_reader` the one way to the rows of requirements. `tracked_clauses` keeps the
//! clauses, in the order of the scan by their `position`, and what may be eligible of them; `registering`, `heating`,
//! `sync`, `due` and `deciding` are what is done with it. `clauses_by_name` finds clauses by the names of their
//! packages, and `noted_conditions` has the conditions that may be met since the last decision.
//! `falsification` goes through all clauses for a falsified one. `questions`, `inspection`, `row_state` and `condition`
//! look at one clause.
#![tactic(auto)]

mod clause_index;
mod clauses_by_name;
mod condition;
mod decide_queue;
mod deciding;
mod due;
mod falsification;
mod group;
mod heating;
mod inspection;
mod lists_by_variable;
mod names;
mod noted_conditions;
mod offer;
mod position_set;
mod questions;
mod queue_decision;
mod queued_clauses;
mod registering;
mod requirements;
mod requires_clause;
mod routing;
mod row_reader;
mod row_state;
mod sync;
mod tracked_clause;
mod tracked_clauses;
mod waking;
mod walk_log;

pub use decide_queue::DecideQueue;
pub use offer::{Frontier, Offer};
pub use queue_decision::QueueDecision;
pub use requires_clause::RequiresClause;
pub use row_reader::{Occurrences, RowReader};
