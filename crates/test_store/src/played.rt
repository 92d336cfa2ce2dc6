//! New stores, and what they tell. One function names the kinds of ids, and one owns a store: the proofs of such
//! functions are long.
use crate::few::Counts;
use crate::listed::{listed, manner};
use crate::task::{Task, push_output};
use crate::trial::Trial;
use id_maps::SolverId;
use providers::{DependencyProvider, Interner};
use resolvo_store::ClauseStore;
use std::alloc::{Allocator, Global};
use test_support::{Counting, Distinct, Lists, Numbered, Refusing};
use typed_ids::{NameId, NameTag, SolvableId, SolvableTag, SparseId, StoreError};

/// The memory of stores: it refuses no request, unless it is armed.
pub(crate) type Heap<'h> = &'h Refusing<Global>;

/// Which ids a store has.
#[derive(Clone, Copy)]
pub(crate) enum Ids {
    Dense,
    /// Sparse ids far apart: of 16 bits for names, and of 64 bits for solvables.
    Sparse,
}

/// What a store tells.
#[derive(Drop)]
pub(crate) struct Output {
    pub(crate) text: String,
    /// Whether the request came that was to be refused.
    pub(crate) is_reached: bool,
    /// Which commands were refused.
    pub(crate) refused: Counts,
}

/// The provider of a trial.
pub(crate) fn provider_of<N, S, A: Allocator + Copy>(
    alloc: A,
    trial: &Trial<'_>,
) -> Result<Lists<N, S, A>, StoreError> {
    let listed = listed(alloc, trial.catalogue)?;
    Ok(Lists::new(listed, manner(alloc, trial)?))
}

/// What a new store with such ids tells over the trial's packages.
pub(crate) fn output_of(trial: &Trial<'_>, ids: Ids, task: Task<'_>) -> Result<Output, StoreError> {
    let mut output = Output {
        text: String::new(trial.alloc),
        is_reached: false,
        refused: Counts::none(),
    };
    let ended = match ids {
        Ids::Dense => push_by::<NameId, SolvableId, Heap<'_>>(trial.heap, trial, task, &mut output),
        Ids::Sparse => {
            push_by::<SparseId<NameTag, u16>, SparseId<SolvableTag, u64>, Heap<'_>>(
                trial.heap,
                trial,
                task,
                &mut output,
            )
        }
    };
    ended?;
    Ok(output)
}

fn push_by<N: SolverId<A> + Numbered, S: SolverId<A> + Distinct, A: Allocator + Copy>(
    alloc: A,
    trial: &Trial<'_>,
    task: Task<'_>,
    output: &mut Output,
) -> Result<(), StoreError> {
    let provider: Lists<N, S, A> = provider_of(alloc, trial)?;
    push_over(alloc, provider, trial, task, output)
}

fn push_over<D: DependencyProvider<NameId: Numbered, SolvableId: Numbered> + Counting + Drop>(
    alloc: D::Alloc,
    provider: D,
    trial: &Trial<'_>,
    task: Task<'_>,
    output: &mut Output,
) -> Result<(), StoreError> {
    let mut store = ClauseStore::new(alloc, provider)?;
    let ended = push_output(&mut store, alloc, trial, task, output);
    drop(store);
    ended
}
