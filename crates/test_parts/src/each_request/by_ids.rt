//! The maps and sets that dense and sparse ids choose for themselves, and answers that are kept by them.
ghost use Rattle.std.specs.Prelude.{◌≡◌, ◌/◌};

use crate::each_request::takes_none;
use id_maps::{IdMap, IdSet, SolverId, WithRootSet};
use id_storage::StoredAnswers;
use std::alloc::Allocator;
use test_support::Refusing;
use typed_ids::{CandidatesId, NameId, NameTag, SolvableIdOrRoot, SparseId, StoreError};

/// What is kept by ids.
#[derive(Clone, Copy)]
pub(super) enum Kept {
    /// A map to scores.
    Scores,
    /// A set that may have the root.
    Set,
    /// Answers to questions.
    Answers,
}

pub(super) fn call_dense<B: Allocator>(heap: &Refusing<B>, kept: Kept) -> Result<(), StoreError> {
    let keys = [NameId::from_raw(3), NameId::from_raw(700)];
    call_by_ids::<NameId, &Refusing<B>, B>(heap, heap, keys, kept)
}

pub(super) fn call_sparse<B: Allocator>(heap: &Refusing<B>, kept: Kept) -> Result<(), StoreError> {
    let keys = [SparseId::from_raw(3), SparseId::from_raw(700)];
    call_by_ids::<SparseId<NameTag>, &Refusing<B>, B>(heap, heap, keys, kept)
}

fn call_by_ids<K: SolverId<A>, A: Allocator + Copy, B: Allocator>(
    heap: &Refusing<B>,
    alloc: A,
    keys: [K; 2],
    kept: Kept,
) -> Result<(), StoreError> {
    match kept {
        Kept::Scores => {
            let mut scores = K::Scores::new(alloc);
            let answer = fill_scores::<K, A, B, K::Scores>(heap, &mut scores, keys);
            drop(scores);
            answer
        }
        Kept::Set => {
            let mut set: WithRootSet<K, A> = WithRootSet::new(alloc);
            let answer = fill_set(heap, &mut set, keys);
            drop(set);
            answer
        }
        Kept::Answers => {
            let mut answers = StoredAnswers::new(alloc);
            let answer = fill_stored(heap, &mut answers, keys);
            drop(answers);
            answer
        }
    }
}

fn fill_scores<K: Copy, A: Allocator + Copy, B: Allocator, M: IdMap<K, u64, A>>(
    heap: &Refusing<B>,
    map: &mut M,
    [first, second]: [K; 2],
) -> Result<(), StoreError> {
    map.set(first, 4)?;
    map.make_room(second)?;
    heap.arm(1);
    map.put(second, 9);
    map.update_all(
        |value: u64| -> u64
            ensures { result ≡ value / 2 }
        { value / 2 },
    );
    let _read = (map.get(first), map.largest());
    takes_none(heap)
}

fn fill_set<S: SolverId<A>, A: Allocator + Copy, B: Allocator>(
    heap: &Refusing<B>,
    set: &mut WithRootSet<S, A>,
    solvables: [S; 2],
) -> Result<(), StoreError> {
    for solvable in solvables {
        set.insert(SolvableIdOrRoot::Solvable(solvable))?;
    }
    heap.arm(1);
    set.insert(SolvableIdOrRoot::Root)?;
    let _has = set.contains(SolvableIdOrRoot::Root);
    takes_none(heap)
}

fn fill_stored<K: SolverId<A>, A: Allocator + Copy, B: Allocator>(
    heap: &Refusing<B>,
    kept: &mut StoredAnswers<CandidatesId, K, u16, A>,
    keys: [K; 2],
) -> Result<(), StoreError> {
    for key in keys {
        if kept.find(key).is_none() {
            kept.insert(key, 30)?;
        }
    }
    heap.arm(1);
    for key in keys {
        if let Some(id) = kept.find(key) {
            let _answer = kept[id];
            let _earlier = kept.replace(key, 40);
        }
    }
    takes_none(heap)
}
