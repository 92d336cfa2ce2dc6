//! An example: the provider of a small ecosystem, whose index is a text with one line a version.
//!
//!     # a comment
//!     request needs a 1..9
//!     a 1 needs b 1..3
//!     a 2 needs b 2..4 if c 1..2 needs d 1..9 | e 1..9
//!     b 2 favored limits c 1..2
//!     b 3 excluded does not build
//!
//! docs/INDEX.md has the format, and `index_text` reads the lines. [`read`] makes a [`SmallIndex`] of the lines of one
//! index: each version is a solvable, in the order of the lines. `index` is the part to read: it has the two traits of
//! a provider, and is proved to answer what `specs/Index` says of its value. That its value is what the lines say is
//! the contract of [`read`] (`specs/Listed`, `specs/Meaning`): each name, range, need, condition and mark is that of
//! its line, and the first line that is no line of an index is named by its number.
#![tactic(auto)]

mod fault;
mod index;
mod interning;
mod notes;
mod packages;
mod range;
mod reading;
mod states;

pub use fault::IndexFault;
pub use index::SmallIndex;
pub use range::VersionRange;
pub use reading::read;
