//! A resolver's search over the clause store, for any provider. What it picks is a solution: that is proved.
//!
//! [`pick`] searches for a solution of a request: versions of packages that satisfy the request and the requirements of
//! each of them, and respect their constraints, at most one of a package. `solutions/specs/Solutions` says so in the
//! words of the provider alone.
//!
//! Nothing is promised of the search itself (`search`; `progress` has its store with the `trail`; `encoding` and
//! `adding` for the clauses, `learning` and `notes` for conflicts, `deciding` and `pace` for decisions after many of
//! them, `wishing` for wishes, `reaching` for what a request reaches, `explaining` for why there is no solution, a list
//! of [`Reason`]s, `minimising` and `reason_source` to leave out those that are spare). The search is generic in its
//! store (`search_store`) and in the source of packages (`package_source`), since a proof over a type parameter is much
//! shorter than one over the store's own type. What it answers is checked at the end by the crate `solutions`, which
//! reads the provider and no store. Its `is_solution` checks what is picked. Its `are_so` checks that the reasons are
//! true, its `are_enough`, by a replay of the learnt clauses, that no choice meets them all, and its
//! `is_no_reason_spare` that none is spare. `borrowed` makes a provider that a store can own of one that is borrowed.
#![tactic(auto)]

mod adding;
mod borrowed;
mod deciding;
mod encoding;
mod explaining;
mod finding;
mod learning;
mod minimising;
mod notes;
mod pace;
mod package_source;
mod progress;
mod reaching;
mod reason_source;
mod search;
mod search_store;
mod trail;
mod wishing;

pub use finding::{Answer, Choice, Refutation, pick, pick_by_wishes, why_not};
pub use solutions::{PackageLiteral, Reason};
