//! Callers that know nothing but contracts, and are proved from these alone. None is run.
//!
//! Of the storage of ids (`any_set`, `arena_callers`, `few_names`, `mapping_callers`), generic in the ids; of a pool
//! (`interning`, generic in what it keeps: `kinds`, `each_kind`), of maps by requirements (`map_callers`) and of
//! conditions (`met`).
//!
//! Others conclude laws: of the trail's floor, from the definitions of its calls, which are the contracts of
//! `DecisionTracker` (`trail_laws`); of what a clause that requires says, from the contract of `Clause::literals`, and
//! of what a new clause watches (`clause_laws`); of a provider's candidate lists (`candidate_laws`); of watch lists,
//! with a walk over one that stands however they are kept (`watch_laws`, `walks`); and of variables that are tracked
//! together with all their clauses (`tracked`). `computed` is what the definitions compute.
#![tactic(auto)]

mod any_set;
mod arena_callers;
mod candidate_laws;
mod clause_laws;
mod computed;
mod each_kind;
mod few_names;
mod interning;
mod kinds;
mod map_callers;
mod mapping_callers;
mod met;
mod tracked;
mod trail_laws;
mod walks;
mod watch_laws;

pub use any_set::{SetAnswers, set_answers};
pub use arena_callers::{added, count, pairs, replace, total};
pub use candidate_laws::candidates_divide;
pub use clause_laws::{first_watches_are_two, literals_of_required};
pub use computed::{examples, versions_are_named};
pub use each_kind::{Conditions, Names, Solvables, Strings, Unions, VersionSets};
pub use few_names::{names_are_few, sparse_names_are_few};
pub use interning::{Twice, interned_twice};
pub use kinds::{Kind, Seen};
pub use map_callers::{clear_requirement, count_requirement};
pub use mapping_callers::{clear, count_up, exchange, find_at_least};
pub use met::condition_holds;
pub use tracked::{TrackedVariables, one_of_two};
pub use trail_laws::floor_is_least;
pub use walks::{Rewatch, walk};
pub use watch_laws::{cursors_are_walks, records_may_grow, room_may_be_left};
