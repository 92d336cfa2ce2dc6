//! What to leave out of a request that has no solution, so that there is one: as few requirements as possible.
//!
//! [`smallest_correction`] searches by [`picking::pick`] without sets of requirements, smaller ones first. Where there
//! is no solution, the reasons name requirements of the request that can't all stay: a conflict. So a set that helps
//! leaves out one of them. `specs/Corrections` says this in the words of the provider alone, `correcting` has the
//! search, and `marks` the sets.
//!
//! [`write_proposals`] needs no search: it writes the requirements of a request that reasons name (`proposals`). At
//! least one of them has to be left out, and that may not be enough. `specs/Proposals` says what it promises.
#![tactic(auto)]

mod correcting;
mod marks;
mod proposals;
mod without;

pub use correcting::{Correction, smallest_correction};
pub use proposals::{named_in, write_proposals};
