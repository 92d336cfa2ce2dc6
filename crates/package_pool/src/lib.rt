//! The pool, where an ecosystem keeps its strings, names, solvables, version sets, unions and conditions, each by its
//! id. A provider over a pool answers what `providers` asks.
#![tactic(auto)]

mod interned;
mod name_text;
mod pool;
mod solvable;
mod unions;
mod version_set;

pub use name_text::NameText;
pub use pool::Pool;
pub use solvable::Solvable;
pub use version_set::VersionSet;
