//! At most one of several variables, said by clauses with two literals each.
//!
//! To forbid each pair of n variables would take n * (n - 1) / 2 clauses. Here each variable has a number, in the order
//! in which they came, and helper variables stand for the bits of a number: where a variable is true, the helpers spell
//! its number. Two variables have different numbers, which the helpers can't both spell; so at most one is true. n
//! variables need k helpers, the least number with n <= 2^k, and n * k clauses.
//!
//! Of four variables and two helpers, `h0` for bit 0 and `h1` for bit 1:
//!
//! ```text
//! number   h0            h1
//!
//!      0   !x0 or !h0    !x0 or !h1
//!      1   !x1 or  h0    !x1 or !h1
//!      2   !x2 or !h0    !x2 or  h1
//!      3   !x3 or  h0    !x3 or  h1
//! ```
//!
//! Variables come one by one. One that fills the numbers which the helpers can spell comes with a helper more, and then
//! each earlier variable gets a clause with that helper; no clause that was made is ever changed.
//!
//! The definitions are in `specs/AtMostOne`: what an addition appends, and, by `SaysAtMostOne`, what all clauses say
//! together and how many they are.
//!
//! `tracker` is one tracker, and `name_trackers` has one for each name of a package. The words of the latter's
//! contracts are in `specs/NameTrackers`: what is tracked is a function from names to trackers.
#![tactic(auto)]

mod name_trackers;
mod tracker;

pub use name_trackers::NameTrackers;
pub use tracker::AtMostOnceTracker;
