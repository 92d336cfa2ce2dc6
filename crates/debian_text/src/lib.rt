//! Texts about Debian packages: stanzas of fields, and relations between packages.
//!
//! A field is `Name: value`, and goes on in lines that begin with a blank or a tab. An empty line ends a stanza. The
//! fields `Depends`, `Conflicts`, `Provides` and the like have relations, as `git (>= 1:2.0)`. `specs/` says what texts
//! mean. Which fields there are isn't known here.
#![tactic(auto)]

mod cuts;
mod field;
mod relation;

pub use cuts::{trimmed, version, word};
pub use field::{named_value, next_field};
pub use relation::{Bound, Operator, Relation};
