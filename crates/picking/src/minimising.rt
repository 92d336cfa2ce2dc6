//! Fewer reasons: those that the others are enough without are left out.
use crate::explaining::NoneShown;
use crate::reason_source::{ReasonPackages, requested_by};
use crate::search::{Result, SearchEnd, Task, search_by};
use resolvo_pool::{DependencyProvider, Interner};
use resolvo_store::ClauseStore;
use solutions::{Reason, Request};
use std::alloc::Allocator;

/// Of more reasons than this, none is left out: for each of them there is a search.
const MOST_REASONS: usize = 200;

/// That there is no solution, and the choices that were found.
#[derive(Drop)]
pub(crate) struct Minimised<N, S, A: Allocator> {
    pub(crate) found: NoneShown<N, S, A>,
    /// For each of the first reasons a choice that meets all others.
    pub(crate) choices: Vec<Vec<S, A>, A>,
}

/// Searches, for each reason in turn, for a choice that meets all others, in the steps that are left. If there is none,
/// the others are enough, and those from which that follows are kept. Nothing is promised of the choices.
pub(crate) fn leave_out_spare<D: DependencyProvider + Copy>(
    alloc: D::Alloc,
    provider: D,
    found: NoneShown<D::NameId, D::SolvableId, D::Alloc>,
) -> Result<Minimised<D::NameId, D::SolvableId, D::Alloc>> {
    let tries = found.shown.reasons.len();
    let mut minimised = Minimised {
        found,
        choices: Vec::new(alloc),
    };
    if tries <= MOST_REASONS {
        for _ in 0..tries {
            if !try_next(alloc, provider, &mut minimised)? {
                break;
            }
        }
    }
    Ok(minimised)
}

/// Tries to leave out the next reason. Answers whether there was one, and its steps were enough.
fn try_next<D: DependencyProvider + Copy>(
    alloc: D::Alloc,
    provider: D,
    minimised: &mut Minimised<D::NameId, D::SolvableId, D::Alloc>,
) -> Result<bool> {
    let place = minimised.choices.len();
    let Some(others) = without(alloc, &minimised.found.shown.reasons, place)? else {
        return Ok(false);
    };
    let replayed = minimised.found.shown.learnt.len() as u64;
    let steps = minimised.found.steps.saturating_sub(replayed);
    match search_among(alloc, provider, &others, steps)? {
        SearchEnd::Picked(found) => {
            minimised.found.steps = found.steps.saturating_add(replayed);
            minimised.choices.push(found.solvables)?;
            Ok(true)
        }
        SearchEnd::Unsolvable(fewer) => shrink(alloc, minimised, fewer, replayed),
        SearchEnd::StepsUsed => Ok(false),
    }
}

/// Keeps fewer reasons, in their old order, if the steps that are left are enough for their check. Answers whether they
/// are.
fn shrink<N: Copy + PartialEq, S: Copy + PartialEq, A: Allocator + Copy>(
    alloc: A,
    minimised: &mut Minimised<N, S, A>,
    fewer: NoneShown<N, S, A>,
    replayed: u64,
) -> Result<bool> {
    let steps = fewer.steps.saturating_add(replayed);
    if fewer.shown.learnt.len() as u64 > steps {
        return Ok(false);
    }
    let mut shown = fewer.shown;
    shown.reasons = kept(alloc, &minimised.found.shown.reasons, &shown.reasons)?;
    minimised.found = NoneShown { shown, steps };
    Ok(true)
}

/// Searches for a choice that meets the reasons.
fn search_among<D: DependencyProvider + Copy>(
    alloc: D::Alloc,
    provider: D,
    reasons: &[Reason<D::NameId, D::SolvableId>],
    steps: u64,
) -> Result<SearchEnd<D::NameId, D::SolvableId, D::Alloc>> {
    let requirements = requested_by(alloc, reasons)?;
    let request = Request {
        requirements: &requirements,
        wishes: &[],
    };
    let task = Task {
        request: &request,
        steps,
        explained_wish: None,
    };
    let store = ClauseStore::new(alloc, provider)?;
    let packages = ReasonPackages::new(alloc, provider, reasons)?;
    search_by(alloc, store, packages, &task)
}

/// All reasons but the one at a place; nothing if there is none.
fn without<X: Copy, A: Allocator>(
    alloc: A,
    reasons: &[X],
    place: usize,
) -> Result<Option<Vec<X, A>>> {
    let (Some(before), Some(after)) = (reasons.get(..place), reasons.get(place.saturating_add(1)..))
    else {
        return Ok(None);
    };
    let mut others = Vec::from_slice(alloc, before)?;
    others.extend_from_slice(after)?;
    Ok(Some(others))
}

/// Those of the reasons that are among these.
fn kept<X: Copy + PartialEq, A: Allocator>(
    alloc: A,
    reasons: &[X],
    among: &[X],
) -> Result<Vec<X, A>> {
    let mut kept = Vec::new(alloc);
    for reason in reasons {
        if among.contains(reason) {
            kept.push(*reason)?;
        }
    }
    Ok(kept)
}
