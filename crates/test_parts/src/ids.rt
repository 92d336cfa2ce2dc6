//! Ids: their texts, where their ranges end, and that an arena gets as far.
use id_storage::Arena;
use std::alloc::Allocator;
use std::test::Fail;
use test_support::{is_same, sees};
use typed_ids::{
    CandidatesId, ClauseId, ConditionId, DenseId, DenseIndex, DependenciesId, DisjunctionId,
    InsertError, LearntClauseId, NameId, NameTag, SolvableId, SolvableIdOrRoot, SolvableTag,
    SparseId, StoreError, StringId, VariableId, VersionSetId, VersionSetUnionId,
};

/// A name whose number may be any.
type Name = SparseId<NameTag>;

/// Some ids show their indexes, and others these plus one.
const SHOWN: &str =
    "(StringId(1), VersionSetId(2), VersionSetUnionId(3), CandidatesId(4), LearntClauseId(5)) \
                     (DependenciesId(7), VariableId(8), ClauseId(9), ConditionId(10), DisjunctionId(11))";

#[test]
fn ids_show_their_numbers(rt: HostRuntime) -> Result<(), Fail> {
    let by_indexes = (
        StringId(1),
        VersionSetId(2),
        VersionSetUnionId(3),
        CandidatesId::from_index(4),
        LearntClauseId::from_index(5),
    );
    let by_numbers = (
        DependenciesId::from_index(6),
        VariableId::from_index(7),
        ClauseId::from_index(8),
        ConditionId::from_index(9),
        DisjunctionId::from_index(10),
    );
    let shown = format!(in rt.alloc(); "{by_indexes:?} {by_numbers:?}")?;
    let is_shown = is_same(shown.as_str(), SHOWN);
    drop(shown);
    is_shown
}

/// Ids of names and of solvables are written as their numbers are.
#[test]
fn ids_of_packages_show_plain_numbers(rt: HostRuntime) -> Result<(), Fail> {
    let (dense, sparse) = (NameId::from_raw(70), Name::from_raw(71));
    let keys = [
        SolvableIdOrRoot::Root,
        SolvableIdOrRoot::Solvable(SolvableId::from_raw(4)),
    ];
    let shown = format!(in rt.alloc(); "{dense:?}|{dense:4?}|{sparse:?}|{keys:?}")?;
    let is_shown = is_same(shown.as_str(), "70|  70|71|[Root, Solvable(4)]");
    drop(shown);
    is_shown
}

/// Each range ends where a raw number does.
#[test]
fn ids_end_where_their_numbers_do(rt: HostRuntime) -> Result<(), Fail> {
    // The last number of each, and the next one.
    let are_in_range = [
        [
            VariableId::in_range(2147483646),
            VariableId::in_range(2147483647),
        ],
        [
            DenseId::<SolvableTag, u16>::in_range(65535),
            DenseId::<SolvableTag, u16>::in_range(65536),
        ],
        [
            StringId::in_range(4294967295),
            StringId::in_range(4294967296),
        ],
        [
            ClauseId::in_range(4294967294),
            ClauseId::in_range(4294967295),
        ],
        [
            DisjunctionId::in_range(4294967294),
            DisjunctionId::in_range(4294967295),
        ],
    ];
    is_same(are_in_range, [[true, false]; 5])?;
    let refusal = InsertError {
        error: StoreError::IdSpace,
        value: 5,
    };
    sees(all_ids(rt.alloc()), (Err(refusal), 65536))
}

/// Adds a value for each id of 16 bits, and one more: what the last one is answered, and the number of values.
fn all_ids<A: Allocator>(alloc: A) -> Result<(Result<u16, InsertError<u8>>, usize), StoreError> {
    let mut arena: Arena<u16, u8, A> = Arena::new(alloc);
    let mut is_refused = false;
    for _ in 0..65536u32 {
        is_refused = is_refused || arena.alloc(4).is_err();
    }
    let seen = (arena.alloc(5), arena.len());
    drop(arena);
    if is_refused {
        Err(StoreError::OutOfMemory)
    } else {
        Ok(seen)
    }
}
