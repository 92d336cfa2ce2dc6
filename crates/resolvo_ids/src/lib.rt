//! Typed ids, and what is kept by them: the facade of three crates.
//!
//! | crate | what it has |
//! |---|---|
//! | `typed_ids` | the ids, their traits, and the refusals |
//! | `id_maps` | total maps and sets that an id chooses |
//! | `id_storage` | lists of values, finite maps, and maps of whose values only copies are handed out |
//!
//! A contract names a definition of theirs as `Rattle.resolvo_ids.specs.TOPIC`, and a type with its variants, or a
//! trait with its ghost members, as `Rattle.resolvo_ids.specs.Types.NAME`.
#![tactic(auto)]

pub use id_maps::{IdMap, IdSet, IndexedSet, Slot, SolverId, WithRootSet};
pub use id_storage::{Arena, ArenaIter, FrozenCopyMap, Mapping, MappingIter};
pub use typed_ids::{
    CandidatesId, ClauseId, ConditionId, DENSE_LIMIT, DefaultValue, DenseId, DenseIndex,
    DependenciesId, DisjunctionId, InsertError, LearntClauseId, NameId, NameTag, OrderedByParts,
    SameClone, SameId, SameValue, SolvableId, SolvableIdOrRoot, SolvableTag, SparseId, StoreError,
    StringId, VariableId, VersionSetId, VersionSetUnionId,
};
