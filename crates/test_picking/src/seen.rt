//! A search over a watched provider.
use crate::watched::Watched;
use example_index::IndexFault;
use picking::{Answer, pick};
use resolvo_ids::StoreError;
use resolvo_pool::{ConditionalRequirement, DependencyProvider, Interner};
use std::alloc::{Allocator, Global};

/// When a search is to end.
#[derive(Clone, Copy)]
pub(crate) struct Bounds {
    /// How many steps it may make.
    pub(crate) steps: u64,
    /// From the question of this number on, whether to stop, its provider says so.
    pub(crate) stop_at: u32,
}

/// More than any search here uses up.
pub(crate) const AMPLE: Bounds = Bounds {
    steps: u64::MAX,
    stop_at: u32::MAX,
};

/// How a search ends.
#[derive(Clone, Copy, Debug, PartialEq, Eq)]
pub(crate) enum End {
    /// So many solvables are picked.
    Picked(usize),
    Unsolvable,
    Uncertified,
    StepsUsed,
    NotASolution,
    Refused(StoreError),
}

/// Solvables.
#[derive(Drop)]
pub(crate) struct Solvables<A: Allocator> {
    pub(crate) number: usize,
    /// In turn, each with a semicolon behind it.
    pub(crate) text: String<A>,
}

/// How a search ended, and what its provider was queried for by it and by the check of what it found.
#[derive(Drop)]
pub(crate) struct Seen<A: Allocator> {
    pub(crate) end: End,
    /// Those whose dependencies were queried.
    pub(crate) queried: Solvables<A>,
    /// Those for which they were queried again. The search keeps what it is answered, so this is the check.
    pub(crate) again: Solvables<A>,
    /// How often the provider was queried whether to stop.
    pub(crate) questions: u32,
    /// How many of these questions came before dependencies were queried last.
    pub(crate) questions_before: u32,
}

/// Searches the index of a text for what it requests.
pub(crate) fn search_text(
    alloc: Global,
    text: &str,
    bounds: Bounds,
) -> Result<Seen<Global>, IndexFault> {
    let indexes = index_text::split(alloc, text.as_bytes())?;
    let Some(lines) = indexes.first() else {
        return Err(IndexFault::Unreadable(1));
    };
    let index = example_index::read(alloc, lines)?;
    let seen = search(alloc, &index, index.request(), bounds);
    drop(index);
    Ok(seen?)
}

/// Searches for what is requested.
fn search<D: DependencyProvider>(
    alloc: D::Alloc,
    provider: &D,
    requested: &[ConditionalRequirement],
    bounds: Bounds,
) -> Result<Seen<D::Alloc>, StoreError> {
    let watched = Watched::new(alloc, provider, bounds.stop_at);
    let end = end_of(pick(alloc, &watched, requested, bounds.steps));
    let noted = watched.noted();
    let queried = listed(alloc, provider, &noted.queried)?;
    let again = listed(alloc, provider, &noted.again)?;
    Ok(Seen {
        end,
        queried,
        again,
        questions: noted.questions,
        questions_before: noted.questions_before,
    })
}

/// How a search ended.
fn end_of<N: Drop, S: Drop, A: Allocator>(found: Result<Answer<N, S, A>, StoreError>) -> End {
    match found {
        Ok(Answer::Picked(choice)) => End::Picked(choice.solvables.len()),
        Ok(Answer::Unsolvable(_)) => End::Unsolvable,
        Ok(Answer::Uncertified(_)) => End::Uncertified,
        Ok(Answer::StepsUsed) => End::StepsUsed,
        Ok(Answer::NotASolution) => End::NotASolution,
        Err(refused) => End::Refused(refused),
    }
}

/// The texts of solvables.
fn listed<I: Interner>(
    alloc: I::Alloc,
    interner: &I,
    solvables: &[I::SolvableId],
) -> Result<Solvables<I::Alloc>, StoreError> {
    let mut text = String::new(alloc);
    for solvable in solvables {
        if interner.knows_solvable(*solvable) {
            interner.display_solvable(*solvable, &mut text)?;
        }
        text.push_str("; ")?;
    }
    Ok(Solvables {
        number: solvables.len(),
        text,
    })
}
