//! What the text of an index says: requests, and versions of packages with what each needs.
//!
//!     # a comment
//!     request needs a 1..9
//!     a 1 needs b 1..3
//!     a 2 needs b 2..4 if c 1..2 and d 1..9 needs d 1..9 | e 1..9
//!     b 2 favored limits c 1..2
//!     b 3 excluded the build fails
//!
//! docs/INDEX.md has the format. A text may have several indexes, each of which begins with a `request` line. [`split`]
//! finds the lines of each, and a [`Reader`] reads them one by one. [`diagnose`] says why a line is unreadable.
//! Versions are numbers or SemVer versions ([`VersionFormat`]). Ids are given by `example_index`, not here.
//!
//! `specs/` has the whole format: each function's contract says that it accepts that format exactly.
#![tactic(auto)]

mod diagnosis;
mod earlier;
mod entry;
mod expected;
mod format;
mod indexes;
mod line;
mod overlong;
mod place;
mod raw;
mod reader;
mod semver_versions;
mod set;
mod stop;
mod version;
mod word_length;
mod words;

pub use diagnosis::{Diagnosis, diagnose};
pub use entry::{Entry, Need};
pub use expected::Expected;
pub use format::VersionFormat;
pub use indexes::split;
pub use line::Line;
pub use reader::Reader;
pub use semver_versions::SemverVersions;
pub use set::{Set, Sets};
pub use version::{State, Version};
