//! Typed ids, and the refusals.
//!
//! Everything above speaks by these ids. A dense id stands for an index ([`DenseIndex`]), so that what is kept by it
//! lies in vectors: total maps and sets in `id_maps`, lists of values and finite maps in `id_storage`.
//!
//! Each id has a file of its own. Those of names and solvables are a provider's to choose, and are dense (`dense_id`)
//! or sparse (`sparse_id`); `dense_index` and `same_id` have the traits. Four more traits are laws of a type's derives:
//! `same_value` of `==`, `same_clone` of `clone`, `ordered_by_parts` of the order, `default_value` of the default. The
//! refusals are in `error`, and `insert_error` hands back what was refused. `specs/Refusals` and `specs/TotalMaps` have
//! the words by which contracts of all crates speak of them and of total maps. `memory_size` tells that a type fits in
//! memory.
#![tactic(auto)]

mod candidates_id;
mod clause_id;
mod condition_id;
mod default_value;
mod dense_id;
mod dense_index;
mod dependencies_id;
mod disjunction_id;
mod error;
mod insert_error;
mod learnt_clause_id;
mod memory_size;
mod ordered_by_parts;
mod same_clone;
mod same_id;
mod same_value;
mod solvable_id_or_root;
mod sparse_id;
mod string_id;
mod variable_id;
mod version_set_id;
mod version_set_union_id;

pub use candidates_id::CandidatesId;
pub use clause_id::ClauseId;
pub use condition_id::ConditionId;
pub use default_value::DefaultValue;
pub use dense_id::{DenseId, NameId, NameTag, SolvableId, SolvableTag};
pub use dense_index::{DENSE_LIMIT, DenseIndex};
pub use dependencies_id::DependenciesId;
pub use disjunction_id::DisjunctionId;
pub use error::StoreError;
pub use insert_error::InsertError;
pub use learnt_clause_id::LearntClauseId;
pub use memory_size::{fits_in_memory, type_fits};
pub use ordered_by_parts::OrderedByParts;
pub use same_clone::SameClone;
pub use same_id::SameId;
pub use same_value::SameValue;
pub use solvable_id_or_root::SolvableIdOrRoot;
pub use sparse_id::SparseId;
pub use string_id::StringId;
pub use variable_id::VariableId;
pub use version_set_id::VersionSetId;
pub use version_set_union_id::VersionSetUnionId;
