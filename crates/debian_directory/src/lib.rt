//! Answers to a request of apt, as a check.
//!
//! A [`Directory`] finds the packages that a relation may mean: those of its name, and those that provide it.
//! [`Rules`] says which packages may be picked, and which have to stay. [`is_answer`] checks that packages may be there
//! together, may each be picked, and are what is asked for: as `debian_installable` does, by a directory. [`keeps_all`]
//! checks that they keep what is to be kept.
#![tactic(auto)]

mod answer;
mod directory;
mod name;
mod rules;
mod together;
mod words;

pub use answer::{is_answer, keeps_all};
pub use directory::Directory;
pub use name::Name;
pub use rules::Rules;
pub use together::Together;
pub use words::names_of;
