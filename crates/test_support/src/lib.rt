//! What tests stand on: how they compare what they have seen (`checks`), an allocator that refuses one request
//! (`refusing`), and a provider of plain lists.
//!
//! The provider is [`Lists`], in `lists`: its packages, version sets and unions are in plain lists, by ids of any kind
//! that are told by numbers (`numbered`). It counts what it is asked, and can hint, lock, stop, and list candidates
//! twice (`manner`). What it answers is said in `specs/Listed`.
#![tactic(auto)]

mod checks;
mod listed;
mod lists;
mod manner;
mod numbered;
mod refusing;

pub use checks::{is_same, sees};
pub use listed::{Listed, Package, VersionRange};
pub use lists::Lists;
pub use manner::{Counting, Counts, Hint, Listing, Manner, Stops};
pub use numbered::{Distinct, Numbered};
pub use refusing::Refusing;
