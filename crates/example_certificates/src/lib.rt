//! Certificates of "no solution", for checkers that share no code with the search.
//!
//! A certificate is a text, in the format of docs/CERTIFICATES.md: clauses, each behind the reason that it follows
//! from, and then the learnt clauses, in the order in which they follow by unit propagation. [`append_certificate`]
//! writes one if a search by `picking` finds no solution of what the index of some lines requests; [`certificate`] does
//! so for any provider.
//!
//! It is proved that there is no solution if there is a certificate, and which text it is (`specs/Certificates`). That
//! the clauses follow from the reasons is tested, by `reference-model/certified`.
//!
//! `clausifier` and `need_clauses` have the clauses of reasons, `part` a reason with them, `numbering` the numbers of
//! their variables, `stated` all of that together, and `writing` the text.
#![tactic(auto)]

mod certifying;
mod clausifier;
mod index_certificate;
mod need_clauses;
mod numbering;
mod part;
mod queries;
mod stated;
mod writing;

pub use certifying::certificate;
pub use index_certificate::append_certificate;
pub use part::Part;
