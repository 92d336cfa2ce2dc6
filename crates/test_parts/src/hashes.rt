//! Hashes of keys, by the hasher that tables are kept with: values that differ in a field or in the variant hash apart.
use providers::{Condition, ConditionalRequirement, LogicalOperator, Requirement};
use script_packages::VersionRange;
use std::fmt::Debug;
use std::hash::{FoldHasher, Hash, Hasher};
use std::test::Fail;
use test_support::is_same;
use typed_ids::{
    CandidatesId, ClauseId, ConditionId, DenseIndex, DependenciesId, DisjunctionId, NameId,
    NameTag, SolvableId, SolvableIdOrRoot, SparseId, StringId, VariableId, VersionSetId,
    VersionSetUnionId,
};

/// A name whose number may be any.
type Name = SparseId<NameTag>;

/// An id of each kind.
type Ids = (
    (StringId, VersionSetId, VersionSetUnionId, CandidatesId),
    (DependenciesId, VariableId, ClauseId, ConditionId),
    (DisjunctionId, NameId, Name),
);

/// The first id of each kind, but that of a place has this index.
fn ids(place: usize, index: u16) -> Ids {
    let at = |other: usize| if other == place { index } else { 0 };
    (
        (
            StringId(u32::from(at(0))),
            VersionSetId(u32::from(at(1))),
            VersionSetUnionId(u32::from(at(2))),
            CandidatesId::from_index(usize::from(at(3))),
        ),
        (
            DependenciesId::from_index(usize::from(at(4))),
            VariableId::from_index(usize::from(at(5))),
            ClauseId::from_index(usize::from(at(6))),
            ConditionId::from_index(usize::from(at(7))),
        ),
        (
            DisjunctionId::from_index(usize::from(at(8))),
            NameId::from_raw(u32::from(at(9))),
            Name::from_raw(u32::from(at(10))),
        ),
    )
}

/// One id in turn is the next one, or has another byte.
#[test]
fn ids_hash_by_their_numbers() -> Result<(), Fail> {
    hash_apart(ids(0, 0), ids(0, 0))?;
    for place in 0..11usize {
        hash_apart(ids(0, 0), ids(place, 1))?;
        hash_apart(ids(0, 0), ids(place, 256))?;
    }
    Ok(())
}

#[test]
fn keys_hash_by_all_their_parts() -> Result<(), Fail> {
    let (first, second) = (ConditionId::new(0), ConditionId::new(5));
    all_hash_apart(&[
        Condition::Binary(LogicalOperator::And, first, second),
        Condition::Binary(LogicalOperator::Or, first, second),
        Condition::Binary(LogicalOperator::And, second, second),
        Condition::Binary(LogicalOperator::And, first, first),
        Condition::Requirement(VersionSetId(0)),
        Condition::Requirement(VersionSetId(1)),
    ])?;
    // A requirement hashes by its index alone.
    let (set, union) = (
        Requirement::Single(VersionSetId(0)),
        Requirement::Union(VersionSetUnionId(1)),
    );
    all_hash_apart(&[
        ConditionalRequirement::from(set),
        ConditionalRequirement::from(union),
        set.with_condition(first),
        set.with_condition(second),
        union.with_condition(second),
    ])?;
    all_hash_apart(&[
        VersionRange { low: 1, high: 2 },
        VersionRange { low: 0, high: 2 },
        VersionRange { low: 1, high: 3 },
    ])?;
    all_hash_apart(&[
        SolvableIdOrRoot::Root,
        SolvableIdOrRoot::Solvable(SolvableId::from_raw(0)),
        SolvableIdOrRoot::Solvable(SolvableId::from_raw(1)),
    ])
}

/// Each two of these keys hash apart, unless they are the same.
fn all_hash_apart<K: Hash + Copy + Debug>(keys: &[K]) -> Result<(), Fail> {
    for key in keys {
        for other in keys {
            hash_apart(*key, *other)?;
        }
    }
    Ok(())
}

/// The hashes of two keys are the same just if the keys are.
fn hash_apart<K: Hash + Copy + Debug>(key: K, other: K) -> Result<(), Fail> {
    let is_alike = hash_of(key) == hash_of(other);
    is_same((key, other, is_alike), (key, other, key == other))
}

fn hash_of<K: Hash + Copy>(key: K) -> u64 {
    let mut hasher = FoldHasher::default();
    key.hash(&mut hasher);
    hasher.finish()
}
