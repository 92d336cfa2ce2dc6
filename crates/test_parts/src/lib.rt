//! Tests of what no contract can say of the library's crates: that memory which is there is found, what a refusal of it
//! comes to, and texts and hashes.
//!
//! What a call answers is proved, and so is what a refusal leaves. So each call that takes memory is made, whichever
//! request of it is refused, and so are calls that take none (`each_request`): of arenas, maps and sets by ids
//! (`storage`, `by_ids`), maps by requirements (`requirements`), the pool (`pool`), the trail, values and variables
//! (`decided`), the literals of clauses (`clause_literals`), watch lists (`watches`), trackers, counters (`counted`).
//! Conversions of conditions are made so too, also of such as are nested deep (`conditions`).
//!
//! The texts are those of requirements, of keys, of solvables together, and of ids where a failed test shows them
//! (`texts`, `ids`), and those of errors (`error_texts`). `hashes` has hashes, `one_refusal` what the allocator that
//! refuses a request does.
//!
//! The program `test_store` refuses each request of all that a store makes, and shows the texts of variables and
//! clauses.
#![tactic(auto)]

#[cfg(test)]
mod conditions;
#[cfg(test)]
mod each_request;
#[cfg(test)]
mod error_texts;
#[cfg(test)]
mod hashes;
#[cfg(test)]
mod ids;
#[cfg(test)]
mod one_refusal;
#[cfg(test)]
mod texts;
