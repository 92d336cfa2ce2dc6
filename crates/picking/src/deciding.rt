//! How a search decides by scores of packages, once it had many conflicts.
use crate::package_source::PackageSource;
use crate::progress::Progress;
use crate::search::Result;
use crate::search_store::SearchStore;
use resolvo_clauses::VariableOrigin;
use resolvo_ids::{ClauseId, Mapping, VariableId};
use resolvo_pool::Requirement;
use std::alloc::Allocator;

/// What a package's score in the store gains for each of its versions that a conflict's analysis sees.
const GAIN: u64 = 1 << 16;

/// What a variable requires, if it is true.
#[derive(Drop)]
pub(crate) struct Required<A: Allocator> {
    pub(crate) requirement: Requirement,
    /// The requirement's place in what the variable's solvable, or the request, needs.
    pub(crate) place: usize,
    /// The requirement counts only while these are all true.
    pub(crate) gates: Vec<VariableId, A>,
    pub(crate) clause: ClauseId,
}

/// A candidate that may be decided.
#[derive(Clone, Copy)]
pub(crate) struct Offer {
    pub(crate) candidate: VariableId,
    pub(crate) clause: ClauseId,
    score: u64,
}

/// What each variable requires.
#[derive(Drop)]
pub(crate) struct Requirements<A: Allocator> {
    lists: Mapping<VariableId, Vec<Required<A>, A>, A>,
    alloc: A,
}

impl<A: Allocator + Copy> Requirements<A> {
    /// Of no variable.
    pub(crate) fn new(alloc: A) -> Result<Self> {
        let lists = Mapping::new(alloc)?;
        Ok(Requirements { lists, alloc })
    }

    /// Adds what a variable requires.
    pub(crate) fn add(&mut self, parent: VariableId, required: Required<A>) -> Result<()> {
        if let Some(list) = self.lists.get_mut(parent) {
            list.push(required)?;
            return Ok(());
        }
        let mut list = Vec::new(self.alloc);
        list.push(required)?;
        self.lists.insert(parent, list)?;
        Ok(())
    }

    /// What a variable requires.
    pub(crate) fn of(&self, parent: VariableId) -> &[Required<A>] {
        match self.lists.get(parent) {
            Some(list) => list.as_slice(),
            None => &[],
        }
    }
}

/// Of the open requirements' best candidates the one whose package has the highest score; the first one of a tie.
pub(crate) fn best_offer<T: SearchStore, P: PackageSource<T::NameId, T::SolvableId, T::Alloc>>(
    progress: &Progress<T>,
    packages: &P,
    requirements: &Requirements<T::Alloc>,
) -> Option<Offer> {
    let mut best = None;
    for assigned in &progress.trail.assignments {
        if assigned.decision.value {
            for required in requirements.of(assigned.decision.variable) {
                best = better(best, offer_for(&progress.store, packages, required));
            }
        }
    }
    best
}

/// The best candidate of the package that has the highest score, unless a candidate is true. Each list is read up to
/// the first candidate that isn't false: if a later one is true, at-most-one has made the earlier ones false.
fn offer_for<T: SearchStore, P: PackageSource<T::NameId, T::SolvableId, T::Alloc>>(
    store: &T,
    packages: &P,
    required: &Required<T::Alloc>,
) -> Option<Offer> {
    if !are_true(store, &required.gates) {
        return None;
    }
    let mut best = None;
    let Some(lists) = store.lists(required.requirement) else {
        return None;
    };
    for list in lists {
        if let Some(candidate) = first_left(store, list) {
            if store.value(candidate).is_some() {
                return None;
            }
            let offer = Offer {
                candidate,
                clause: required.clause,
                score: score_of(store, packages, candidate),
            };
            best = better(best, Some(offer));
        }
    }
    best
}

fn are_true<T: SearchStore>(store: &T, variables: &[VariableId]) -> bool {
    for variable in variables {
        if store.value(*variable) != Some(true) {
            return false;
        }
    }
    true
}

/// The first variable that isn't false.
fn first_left<T: SearchStore>(store: &T, variables: &[VariableId]) -> Option<VariableId> {
    for variable in variables {
        if store.value(*variable) != Some(false) {
            return Some(*variable);
        }
    }
    None
}

/// The score of a candidate's package.
fn score_of<T: SearchStore, P: PackageSource<T::NameId, T::SolvableId, T::Alloc>>(
    store: &T,
    packages: &P,
    candidate: VariableId,
) -> u64 {
    match package_of(store, packages, candidate) {
        Some(name) => packages.score(name),
        None => 0,
    }
}

/// The package of a candidate.
fn package_of<T: SearchStore, P: PackageSource<T::NameId, T::SolvableId, T::Alloc>>(
    store: &T,
    packages: &P,
    candidate: VariableId,
) -> Option<T::NameId> {
    match store.origin(candidate) {
        Some(VariableOrigin::Solvable(solvable)) => packages.name(solvable),
        _ => None,
    }
}

/// Raises the scores of the packages of these variables, so that what is often in conflict is decided early. Recent
/// conflicts count for more.
pub(crate) fn raise_scores<T: SearchStore, P: PackageSource<T::NameId, T::SolvableId, T::Alloc>>(
    store: &mut T,
    packages: &mut P,
    variables: &[VariableId],
) -> Result<()> {
    for variable in variables {
        if let Some(name) = package_of(store, packages, *variable) {
            store.bump(name, GAIN)?;
            packages.raise(name)?;
        }
    }
    packages.age();
    Ok(())
}

/// The better of two offers, the first one of a tie.
fn better(one: Option<Offer>, other: Option<Offer>) -> Option<Offer> {
    if beats(&other, &one) { other } else { one }
}

/// Whether there is an offer that is better than another one, or than none.
fn beats(offer: &Option<Offer>, other: &Option<Offer>) -> bool {
    match offer {
        Some(offer) => match other {
            Some(other) => offer.score > other.score,
            None => true,
        },
        None => false,
    }
}
