//! The order of the versions of Debian packages, as `dpkg --compare-versions` has it.
//!
//! A version is `[EPOCH:]UPSTREAM[-REVISION]`, as `1:2.39.5-0+deb12u2`. [`compare`] orders two of them by their epochs,
//! then by their upstream versions, then by their revisions (Debian Policy, 5.6.12). `specs/Order` is that order.
#![tactic(auto)]

mod number;
mod part;
mod version;

pub use version::compare;
