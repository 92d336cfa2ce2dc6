//! A report for people, as a tree: why there is no solution, from the request to the root causes.
//!
//! [`write_tree`] writes the lines of the report ([`reports::Line`]). Each stands once, below one that leads to it
//! ([`reports::leads_to`]). A line to which others lead too has a number, and they refer to it.
//!
//! The contracts (`specs/Forests`, `TreeTexts`, `Trees`) say that each line stands once, that it stands below a line
//! that leads to it, that a root is led to only by lines of its own tree, and which rows refer to which.
#![tactic(auto)]

mod edges;
mod growing;
mod lines;
mod numbering;
mod row;
mod tree_text;

pub use lines::write_tree;
