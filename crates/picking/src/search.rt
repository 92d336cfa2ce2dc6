//! A search over the clause store.
//!
//! It encodes what may be picked (`encoding`), and propagates and decides in turn. From a conflict it learns a clause,
//! and backjumps (`learning`). After many conflicts it decides by scores (`deciding`), and restarts now and then
//! (`pace`). Once it has a solution, it searches on for one that is better by the wishes (`wishing`), and takes what is
//! needed of the last one (`reaching`). If there is no solution, or none that is better, it explains why
//! (`explaining`).
use crate::deciding::{best_offer, raise_scores};
use crate::encoding::Encoder;
use crate::explaining::{NoneShown, Shown, why_none, why_none_better, why_not_better};
use crate::notes::Notes;
use crate::pace::Pace;
use crate::package_source::{PackageSource, ProvidedPackages};
use crate::progress::Progress;
use crate::reaching::take;
use crate::search_store::SearchStore;
use crate::trail::Trail;
use crate::wishing::{VariableValue, Wishes};
use resolvo_ids::{ClauseId, StoreError, VariableId};
use resolvo_pool::DependencyProvider;
use resolvo_store::{ClauseStore, Next};
use solutions::{Cause, Reason, Request, Wish};
use std::alloc::Allocator;

pub(crate) type Result<T> = std::result::Result<T, StoreError>;

/// How a search ends.
#[derive(Drop)]
pub(crate) enum SearchEnd<N, S, A: Allocator> {
    /// A solution was found.
    Picked(Found<N, S, A>),
    /// There is no solution.
    Unsolvable(NoneShown<N, S, A>),
    /// The steps were too few.
    StepsUsed,
}

/// A solution.
#[derive(Drop)]
pub(crate) struct Found<N, S, A: Allocator> {
    /// What is picked: one that another one requires comes after that one.
    pub(crate) solvables: Vec<S, A>,
    /// For each solvable what needs it.
    pub(crate) causes: Vec<Cause, A>,
    /// For each solvable what isn't satisfied without it.
    pub(crate) breaks: Vec<Cause, A>,
    /// That no solution is better by the wishes; nothing if the steps were too few to search for one.
    pub(crate) shown: Shown<N, S, A>,
    /// Why none is better by the wish that is explained.
    pub(crate) reasons: Vec<Reason<N, S>, A>,
    /// How many steps are left.
    pub(crate) steps: u64,
}

/// What to search for.
#[derive(Clone, Copy)]
pub(crate) struct Task<'r, S, A: Allocator> {
    pub(crate) request: &'r Request<'r, S, A>,
    /// How many steps may be made.
    pub(crate) steps: u64,
    /// The place of the wish that is explained.
    pub(crate) explained_wish: Option<usize>,
}

/// What comes of a step.
#[derive(Clone, Copy)]
enum Step {
    /// It was made.
    Made,
    /// Nothing is open: a solution is found.
    Solved,
    /// The wishes that are decided first are decided as in the last solution: no solution is better by them.
    AsGood,
}

impl Step {
    /// Whether there is more to decide.
    fn is_open(self) -> bool {
        match self {
            Step::Made => true,
            Step::Solved | Step::AsGood => false,
        }
    }
}

/// A search, which owns its store.
#[derive(Drop)]
struct Search<T: SearchStore, P> {
    progress: Progress<T>,
    encoder: Encoder<T, P>,
    pace: Pace,
    notes: Notes<T::SolvableId, T::Alloc>,
    wishes: Wishes<T::Alloc>,
}

/// Searches for the best solution of a request, within a number of steps.
pub(crate) fn search_for<D: DependencyProvider + Copy>(
    alloc: D::Alloc,
    provider: D,
    task: &Task<'_, D::SolvableId, D::Alloc>,
) -> Result<SearchEnd<D::NameId, D::SolvableId, D::Alloc>> {
    let store = ClauseStore::new(alloc, provider)?;
    search_by(alloc, store, ProvidedPackages::new(alloc, provider), task)
}

/// Searches in a store that is new.
pub(crate) fn search_by<
    T: SearchStore + Drop,
    P: PackageSource<T::NameId, T::SolvableId, T::Alloc> + Drop,
>(
    alloc: T::Alloc,
    store: T,
    packages: P,
    task: &Task<'_, T::SolvableId, T::Alloc>,
) -> Result<SearchEnd<T::NameId, T::SolvableId, T::Alloc>> {
    let mut search = Search::new(alloc, store, packages)?;
    let end = search.find(task);
    drop(search);
    end
}

impl<T: SearchStore + Drop, P: PackageSource<T::NameId, T::SolvableId, T::Alloc> + Drop> Search<
    T,
    P,
> {
    /// A search with nothing encoded.
    fn new(alloc: T::Alloc, store: T, packages: P) -> Result<Self> {
        let trail = Trail::new(alloc)?;
        let notes = Notes::new(alloc)?;
        let encoder = Encoder::new(alloc, packages)?;
        Ok(Search {
            progress: Progress {
                store,
                trail,
                alloc,
            },
            encoder,
            pace: Pace::new(),
            notes,
            wishes: Wishes::new(alloc),
        })
    }

    /// Encodes the request, and runs.
    fn find(
        &mut self,
        task: &Task<'_, T::SolvableId, T::Alloc>,
    ) -> Result<SearchEnd<T::NameId, T::SolvableId, T::Alloc>> {
        self.progress.begin()?;
        let store = &mut self.progress.store;
        self.encoder.request(store, task.request.requirements)?;
        self.add_wishes(task.request.wishes)?;
        self.encoder.introduce_all(&mut self.progress.store)?;
        self.run(task)
    }

    /// Adds wishes, by the variables of their solvables.
    fn add_wishes(&mut self, wishes: &[Wish<T::SolvableId, T::Alloc>]) -> Result<()> {
        for wish in wishes {
            let mut values = Vec::new(self.progress.alloc);
            for alternative in &wish.alternatives {
                let store = &mut self.progress.store;
                values.push(VariableValue {
                    variable: self.encoder.wished(store, alternative.solvable)?,
                    value: alternative.is_picked,
                })?;
            }
            self.wishes.add(values)?;
        }
        Ok(())
    }

    /// A step propagates, and encodes what is newly true; then it learns from a conflict, or decides. The more clauses
    /// were learnt, the more steps a conflict counts for. No assignment comes back that a learnt clause rules out, so a
    /// search ends, but perhaps after very many steps.
    fn run(
        &mut self,
        task: &Task<'_, T::SolvableId, T::Alloc>,
    ) -> Result<SearchEnd<T::NameId, T::SolvableId, T::Alloc>> {
        let steps = task.steps;
        let mut last = None;
        for step in 0..steps {
            let spent = step.saturating_add(self.pace.extra_steps());
            if spent >= steps {
                break;
            }
            let left = steps.saturating_sub(spent);
            if self.progress.trail.level() == 0 {
                return Ok(SearchEnd::Unsolvable(self.none_shown(left)?));
            }
            let step = self.step()?;
            if let Step::Solved = step {
                last = Some(self.found()?);
                self.wishes.note(&self.progress.store)?;
            }
            if !step.is_open() && !self.wishes.activate() {
                return self.end(last, task.explained_wish, left);
            }
            if let Step::Solved = step {
                self.begin_anew();
            }
        }
        match last {
            Some(found) => Ok(SearchEnd::Picked(found)),
            None => Ok(SearchEnd::StepsUsed),
        }
    }

    /// The last solution is the best.
    fn end(
        &mut self,
        last: Option<Found<T::NameId, T::SolvableId, T::Alloc>>,
        explained_wish: Option<usize>,
        steps: u64,
    ) -> Result<SearchEnd<T::NameId, T::SolvableId, T::Alloc>> {
        let Some(found) = last else {
            return Ok(SearchEnd::StepsUsed);
        };
        self.progress.read_trail()?;
        let Found {
            solvables,
            causes,
            breaks,
            ..
        } = found;
        Ok(SearchEnd::Picked(Found {
            solvables,
            causes,
            breaks,
            shown: self.shown()?,
            reasons: self.reasons(explained_wish)?,
            steps,
        }))
    }

    /// That no solution is better.
    fn shown(&self) -> Result<Shown<T::NameId, T::SolvableId, T::Alloc>> {
        let encoded = &self.encoder.encoded;
        why_none_better(&self.progress, encoded, &self.notes, &self.wishes)
    }

    /// Why none is better by the wish at a place.
    fn reasons(
        &self,
        explained_wish: Option<usize>,
    ) -> Result<Vec<Reason<T::NameId, T::SolvableId>, T::Alloc>> {
        let Some(place) = explained_wish else {
            return Ok(Vec::new(self.progress.alloc));
        };
        let values = self.wishes.false_ones(&self.progress.store, place);
        let encoded = &self.encoder.encoded;
        why_not_better(&self.progress, encoded, &self.notes, values)
    }

    /// That there is no solution.
    fn none_shown(&self, steps: u64) -> Result<NoneShown<T::NameId, T::SolvableId, T::Alloc>> {
        why_none(&self.progress, &self.encoder.encoded, &self.notes, steps)
    }

    /// The solution at hand.
    fn found(&self) -> Result<Found<T::NameId, T::SolvableId, T::Alloc>> {
        let taken = take(
            self.progress.alloc,
            &self.progress.store,
            &self.encoder.encoded.requirements,
            &self.encoder.candidates,
            &self.wishes,
        )?;
        let solvables = self.progress.solvables(&taken.variables)?;
        Ok(Found {
            solvables,
            causes: taken.causes,
            breaks: taken.breaks,
            shown: Shown::new(self.progress.alloc),
            reasons: Vec::new(self.progress.alloc),
            steps: 0,
        })
    }

    /// Begins anew, but for what was learnt.
    fn begin_anew(&mut self) {
        self.progress.backjump(1);
        self.wishes.begin_anew();
    }

    /// Makes a step.
    fn step(&mut self) -> Result<Step> {
        self.encoder.encode_true(&mut self.progress)?;
        let level = self.progress.trail.level();
        if self.wishes.are_decided() && self.pace.is_by_store() {
            return self.next(level);
        }
        if let Some(conflict) = self.progress.store.saturate(level)? {
            return self.learn(conflict);
        }
        if self.pace.is_over() {
            self.begin_anew();
            return Ok(Step::Made);
        }
        if !self.wishes.are_decided() {
            return self.decide_wish();
        }
        self.decide_by_score()
    }

    /// Decides a wish. If all that come first are decided, they may be as good as in the last solution.
    fn decide_wish(&mut self) -> Result<Step> {
        if let Some(alternative) = self.wishes.next(&self.progress.store) {
            self.progress.decide_wish(alternative)?;
            return Ok(Step::Made);
        }
        if self.wishes.are_as_noted(&self.progress.store) {
            return Ok(Step::AsGood);
        }
        Ok(Step::Made)
    }

    /// Lets the store decide.
    fn next(&mut self, level: u32) -> Result<Step> {
        match self.progress.store.next(level)? {
            Next::Falsified(conflict) => self.learn(conflict),
            Next::Decided(next) => self.decide(next.candidate, next.clause_id),
            Next::Done => Ok(Step::Solved),
        }
    }

    /// Decides that a variable is true.
    fn decide(&mut self, variable: VariableId, clause: ClauseId) -> Result<Step> {
        self.progress.decide(variable, clause)?;
        Ok(Step::Made)
    }

    /// Decides by scores.
    fn decide_by_score(&mut self) -> Result<Step> {
        let requirements = &self.encoder.encoded.requirements;
        let Some(offer) = best_offer(&self.progress, &self.encoder.packages, requirements) else {
            return Ok(Step::Solved);
        };
        self.decide(offer.candidate, offer.clause)
    }

    /// Learns a clause from a conflict, and raises the scores of the packages that it saw. Refuses to go on if the
    /// provider says so.
    fn learn(&mut self, conflict: ClauseId) -> Result<Step> {
        let variables = self.progress.learn(conflict, &mut self.notes)?;
        self.wishes.begin_anew();
        raise_scores(
            &mut self.progress.store,
            &mut self.encoder.packages,
            &variables,
        )?;
        if self.pace.count() {
            self.progress.store.decay(1, 2)?;
        }
        self.encoder.packages.check_cancelled()?;
        Ok(Step::Made)
    }
}
