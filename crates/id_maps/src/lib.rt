//! Total maps and sets that are kept by ids.
//!
//! What is generic in an id asks only for [`SolverId`], which chooses its maps ([`IdMap`]) and its set ([`IdSet`])
//! itself: vectors and words of bits for dense ids, tables for sparse ones.
//!
//! `id_map` and `id_set` have the traits, and `solver_id` the choice. `dense_map` is the map of dense ids and
//! `indexed_set` their set; `sparse_map` is the map of sparse ids, and their set is in `id_set`. `slot` is the value of
//! maps to optional indexes. `with_root_set` adds the root to a set of solvables. `scores` has a score for each name,
//! in the map that the name's id chooses, with the largest of them: how active a package was in a search.
//!
//! The words of the contracts are those of `typed_ids`, `has_bit` in `specs/IndexedSet`, and `specs/Scores`, where
//! scores are a function from names to numbers; `specs/FewIds` proves how many dense ids there can be.
#![tactic(auto)]

mod dense_map;
mod id_map;
mod id_set;
mod indexed_set;
mod scores;
mod slot;
mod solver_id;
mod sparse_map;
mod with_root_set;

pub use id_map::IdMap;
pub use id_set::IdSet;
pub use indexed_set::IndexedSet;
pub use scores::Scores;
pub use slot::Slot;
pub use solver_id::SolverId;
pub use with_root_set::WithRootSet;
