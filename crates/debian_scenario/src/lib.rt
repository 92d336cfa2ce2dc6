//! Scenarios of EDSP, by which apt asks another program for a solution.
//!
//! A scenario is a text of stanzas: a request, then one for each version of each package. [`read`] reads it once. What
//! a relation says is read when it is needed, by `debian_text`. `specs/` says what a scenario means.
#![tactic(auto)]

mod fault;
mod key;
mod package;
mod request;
mod scenario;
mod stanza;

pub use fault::{ReadError, ScenarioFault, StanzaFault};
pub use key::Key;
pub use package::{Identity, MultiArch, Package, Relations, State};
pub use request::{Actions, Request};
pub use scenario::{Scenario, read};
