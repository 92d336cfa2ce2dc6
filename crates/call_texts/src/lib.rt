//! Texts that calls from C hand out: how they are written to a buffer of the caller's, and which versions one names.
#![tactic(auto)]

mod buffers;
mod versions;

pub use buffers::write;
pub use versions::{Version, versions_in};
