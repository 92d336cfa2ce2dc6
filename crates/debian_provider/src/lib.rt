//! A scenario of apt as a provider: packages, what they need, and which of them can't be together.
//!
//! A **name** is a package's name and an architecture (`debian_directory::Name`); of each name one version may be
//! picked. Its **solvables** are the stanzas of the scenario that may be picked. A relation, as `git (>= 1:2.0)`, means
//! packages of that name and packages that provide it. What it demands of one name is a **version set** (`set`): a
//! dependency is a union of such sets, a conflict a constraint for each name that has a version which it means.
//! [`Archive::new`] brings in what can be reached from what is installed and requested, and nothing else (`reached`,
//! `reaching`, `needs`), since a scenario has all packages that there are.
#![tactic(auto)]

mod archive;
mod interning;
mod meeting;
mod needs;
mod provider;
mod reached;
mod reaching;
mod request;
mod set;
mod text;

pub use archive::Archive;
pub use set::Set;
