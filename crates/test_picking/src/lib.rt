//! Tests of what a search asks of its provider, of what stops it, and of what it grants of wishes.
//!
//! A provider that is watched notes whose dependencies are queried, and counts the questions whether to stop
//! (`watched`). A search over an index tells what it noted (`seen`). `queries` tests that a search queries no more than
//! it has to, `stopping` that a provider, or a number of steps, ends it, and `wishes` which wishes are granted. The
//! indexes are in `indexes`.
#![tactic(auto)]

#[cfg(test)]
mod indexes;
#[cfg(test)]
mod queries;
#[cfg(test)]
mod seen;
#[cfg(test)]
mod stopping;
#[cfg(test)]
mod watched;
#[cfg(test)]
mod wishes;
