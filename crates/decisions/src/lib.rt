//! Literals, decisions, and the trail of decisions.
//!
//! `literal` has a variable or its negation (`specs/Literals`), `decision` a value of a variable and the clause that
//! gave it. `decision_map` answers what is decided of one variable (`specs/Decisions`), and `decision_tracker` keeps
//! the decisions in order and takes them back (`specs/Trail`).
#![tactic(auto)]

mod decision;
mod decision_map;
mod decision_tracker;
mod literal;

pub use decision::Decision;
pub use decision_map::DecisionMap;
pub use decision_tracker::{AddFault, DecisionTracker};
pub use literal::Literal;
