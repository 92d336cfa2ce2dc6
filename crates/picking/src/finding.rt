//! The search, and the check of what it found.
ghost use Rattle.std.specs.Prelude.{◌≡◌, true, All, IfOk};
ghost use Rattle.picking.specs.Answers.{FindsNone, GivesEnough, GivesNoneSpare, GivesSo};
ghost use Rattle.picking.specs.Answers.{PicksBest, PicksCaused, PicksGranted, PicksNeeded, PicksNoneSpare};
ghost use Rattle.picking.specs.Answers.{PicksRanked, PicksSolution, PicksWithin};
ghost use Rattle.solutions.specs.Needed.{AreCaused, IsNeeded};
ghost use Rattle.solutions.specs.Newest.{newest};
ghost use Rattle.solutions.specs.Reasons.{AreEnough, AreSo};
ghost use Rattle.solutions.specs.Solutions.{IsSolution};
ghost use Rattle.solutions.specs.Wishes.{NoneSpare, alternatives_of};

use crate::borrowed::Borrowed;
use crate::explaining::{NoneShown, Shown};
use crate::minimising::{Minimised, leave_out_spare};
use crate::search::{Found, SearchEnd, Task, search_for};
use resolvo_ids::StoreError;
use resolvo_pool::{ConditionalRequirement, DependencyProvider, Interner, ProviderFunctions};
use solutions::{
    Cause, PackageLiteral, Reason, Request, are_enough, are_needed, are_so, best_up_to, find_spare,
    is_no_reason_spare, is_solution, newest_wishes, ranks,
};
use std::alloc::Allocator;

/// The outcome of a search.
#[derive(Debug, Drop)]
pub enum Answer<N, S, A: Allocator> {
    /// A solution.
    Picked(Choice<S, A>),
    /// There is no solution: the reasons are true, and no choice of versions meets them all.
    Unsolvable(Refutation<N, S, A>),
    /// The search says that there is no solution, but the check doesn't certify that. A right search of a provider
    /// that lists each solvable under its own package never answers this.
    Uncertified(Refutation<N, S, A>),
    /// The steps ended before there was a solution, or before the check could show that there is none.
    StepsUsed,
    /// What the search picked is no solution, or has a solvable that isn't needed or can be left out. A right search of
    /// such a provider never answers this.
    NotASolution,
}

/// A solution, and how good it is.
#[derive(Debug, Drop)]
pub struct Choice<S, A: Allocator> {
    /// What is picked.
    pub solvables: Vec<S, A>,
    /// For each of them, in the same order, why it is picked. One that another one requires comes after that one.
    pub causes: Vec<Cause, A>,
    /// For each wish, how many of its alternatives come before the first true one.
    pub ranks: Vec<usize, A>,
    /// By this many of the first wishes, no solution is better.
    pub best_up_to: usize,
}

/// That there is no solution, and why.
#[derive(Debug, Drop)]
pub struct Refutation<N, S, A: Allocator> {
    /// The reasons. In `Unsolvable` they are true, and no choice of versions meets them all.
    pub reasons: Vec<Reason<N, S>, A>,
    /// The learnt clauses, in order. Their replay over the reasons shows that no choice meets them all (`are_enough`).
    pub learnt: Vec<Vec<PackageLiteral<S>, A>, A>,
    /// Whether it is shown that none of the reasons is spare.
    pub none_spare: bool,
}

/// Searches for the solution of the request that has the newest versions of what is requested, in the order of the
/// request ([`newest_wishes`]), in at most `steps` steps.
pub fn pick<D: DependencyProvider>(
    alloc: D::Alloc,
    provider: &D,
    requested: &[ConditionalRequirement],
    steps: u64,
) -> Result<Answer<D::NameId, D::SolvableId, D::Alloc>, StoreError>
    ensures solution { IfOk result (PicksSolution (⟦<D as ProviderFunctions>⟧.functions provider.now) requested.now) }
    ensures ranks { IfOk result (PicksRanked (⟦<D as ProviderFunctions>⟧.functions provider.now)
        (newest (⟦<D as ProviderFunctions>⟧.functions provider.now) requested.now)) }
    ensures best { IfOk result (PicksBest (⟦<D as ProviderFunctions>⟧.functions provider.now) requested.now
        (newest (⟦<D as ProviderFunctions>⟧.functions provider.now) requested.now)) }
    ensures within { IfOk result (PicksWithin (⟦<D as ProviderFunctions>⟧.functions provider.now) requested.now
        (newest (⟦<D as ProviderFunctions>⟧.functions provider.now) requested.now)) }
    ensures granted { IfOk result (PicksGranted (⟦<D as ProviderFunctions>⟧.functions provider.now) requested.now
        (newest (⟦<D as ProviderFunctions>⟧.functions provider.now) requested.now)) }
    ensures caused { IfOk result (PicksCaused (⟦<D as ProviderFunctions>⟧.functions provider.now) requested.now
        (newest (⟦<D as ProviderFunctions>⟧.functions provider.now) requested.now)) }
    ensures needed { IfOk result (PicksNeeded (⟦<D as ProviderFunctions>⟧.functions provider.now) requested.now
        (newest (⟦<D as ProviderFunctions>⟧.functions provider.now) requested.now)) }
    ensures none_spare { IfOk result (PicksNoneSpare (⟦<D as ProviderFunctions>⟧.functions provider.now) requested.now
        (newest (⟦<D as ProviderFunctions>⟧.functions provider.now) requested.now)) }
    ensures none { IfOk result (FindsNone (⟦<D as ProviderFunctions>⟧.functions provider.now) requested.now) }
    ensures reasons_so { IfOk result (GivesSo (⟦<D as ProviderFunctions>⟧.functions provider.now) requested.now) }
    ensures reasons_enough { IfOk result (GivesEnough (⟦<D as ProviderFunctions>⟧.functions provider.now)) }
    ensures no_reason_spare { IfOk result (GivesNoneSpare (⟦<D as ProviderFunctions>⟧.functions provider.now)) }
{
    let wishes = newest_wishes(alloc, provider, requested)?;
    let request = Request {
        requirements: requested,
        wishes: &wishes,
    };
    pick_by_wishes(alloc, provider, &request, steps)
}

/// Searches for the solution of the request that is the best by its wishes, in at most `steps` steps. What is picked is
/// a solution also if the steps end before it is the best: `best_up_to` says how far it is shown to be.
pub fn pick_by_wishes<D: DependencyProvider>(
    alloc: D::Alloc,
    provider: &D,
    request: &Request<D::SolvableId, D::Alloc>,
    steps: u64,
) -> Result<Answer<D::NameId, D::SolvableId, D::Alloc>, StoreError>
    ensures solution { IfOk result (PicksSolution (⟦<D as ProviderFunctions>⟧.functions provider.now)
        request.now.requirements.now) }
    ensures ranks { IfOk result (PicksRanked (⟦<D as ProviderFunctions>⟧.functions provider.now)
        (alternatives_of request.now.wishes.now)) }
    ensures best { IfOk result (PicksBest (⟦<D as ProviderFunctions>⟧.functions provider.now)
        request.now.requirements.now (alternatives_of request.now.wishes.now)) }
    ensures within { IfOk result (PicksWithin (⟦<D as ProviderFunctions>⟧.functions provider.now)
        request.now.requirements.now (alternatives_of request.now.wishes.now)) }
    ensures granted { IfOk result (PicksGranted (⟦<D as ProviderFunctions>⟧.functions provider.now)
        request.now.requirements.now (alternatives_of request.now.wishes.now)) }
    ensures caused { IfOk result (PicksCaused (⟦<D as ProviderFunctions>⟧.functions provider.now)
        request.now.requirements.now (alternatives_of request.now.wishes.now)) }
    ensures needed { IfOk result (PicksNeeded (⟦<D as ProviderFunctions>⟧.functions provider.now)
        request.now.requirements.now (alternatives_of request.now.wishes.now)) }
    ensures none_spare { IfOk result (PicksNoneSpare (⟦<D as ProviderFunctions>⟧.functions provider.now)
        request.now.requirements.now (alternatives_of request.now.wishes.now)) }
    ensures none { IfOk result (FindsNone (⟦<D as ProviderFunctions>⟧.functions provider.now)
        request.now.requirements.now) }
    ensures reasons_so { IfOk result (GivesSo (⟦<D as ProviderFunctions>⟧.functions provider.now)
        request.now.requirements.now) }
    ensures reasons_enough { IfOk result (GivesEnough (⟦<D as ProviderFunctions>⟧.functions provider.now)) }
    ensures no_reason_spare { IfOk result (GivesNoneSpare (⟦<D as ProviderFunctions>⟧.functions provider.now)) }
{
    let task = Task {
        request,
        steps,
        explained_wish: None,
    };
    match search_for(alloc, Borrowed::new(provider), &task)? {
        SearchEnd::Picked(found) => checked(alloc, provider, request, found),
        SearchEnd::Unsolvable(found) => refuted(alloc, provider, request, found),
        SearchEnd::StepsUsed => Ok(Answer::StepsUsed),
    }
}

/// What was found, once it is checked.
fn checked<D: DependencyProvider>(
    alloc: D::Alloc,
    provider: &D,
    request: &Request<D::SolvableId, D::Alloc>,
    found: Found<D::NameId, D::SolvableId, D::Alloc>,
) -> Result<Answer<D::NameId, D::SolvableId, D::Alloc>, StoreError>
    ensures solution { IfOk result (PicksSolution (⟦<D as ProviderFunctions>⟧.functions provider.now)
        request.now.requirements.now) }
    ensures ranks { IfOk result (PicksRanked (⟦<D as ProviderFunctions>⟧.functions provider.now)
        (alternatives_of request.now.wishes.now)) }
    ensures best { IfOk result (PicksBest (⟦<D as ProviderFunctions>⟧.functions provider.now)
        request.now.requirements.now (alternatives_of request.now.wishes.now)) }
    ensures within { IfOk result (PicksWithin (⟦<D as ProviderFunctions>⟧.functions provider.now)
        request.now.requirements.now (alternatives_of request.now.wishes.now)) }
    ensures granted { IfOk result (PicksGranted (⟦<D as ProviderFunctions>⟧.functions provider.now)
        request.now.requirements.now (alternatives_of request.now.wishes.now)) }
    ensures caused { IfOk result (PicksCaused (⟦<D as ProviderFunctions>⟧.functions provider.now)
        request.now.requirements.now (alternatives_of request.now.wishes.now)) }
    ensures needed { IfOk result (PicksNeeded (⟦<D as ProviderFunctions>⟧.functions provider.now)
        request.now.requirements.now (alternatives_of request.now.wishes.now)) }
    ensures none_spare { IfOk result (PicksNoneSpare (⟦<D as ProviderFunctions>⟧.functions provider.now)
        request.now.requirements.now (alternatives_of request.now.wishes.now)) }
    ensures none { IfOk result (FindsNone (⟦<D as ProviderFunctions>⟧.functions provider.now)
        request.now.requirements.now) }
    ensures reasons_so { IfOk result (GivesSo (⟦<D as ProviderFunctions>⟧.functions provider.now)
        request.now.requirements.now) }
    ensures reasons_enough { IfOk result (GivesEnough (⟦<D as ProviderFunctions>⟧.functions provider.now)) }
    ensures no_reason_spare { IfOk result (GivesNoneSpare (⟦<D as ProviderFunctions>⟧.functions provider.now)) }
{
    if !is_solution_without_spare(alloc, provider, request, &found)? {
        return Ok(Answer::NotASolution);
    }
    let Found {
        solvables,
        causes,
        shown,
        ..
    } = found;
    let ranks = ranks(alloc, provider, request.wishes, &solvables)?;
    let best_up_to = best_up_to(alloc, provider, request, &solvables, &shown.evidence())?;
    Ok(Answer::Picked(Choice {
        solvables,
        causes,
        ranks,
        best_up_to,
    }))
}

/// Whether what was found is a solution in which each solvable is needed, and none can be left out.
fn is_solution_without_spare<D: DependencyProvider>(
    alloc: D::Alloc,
    provider: &D,
    request: &Request<D::SolvableId, D::Alloc>,
    found: &Found<D::NameId, D::SolvableId, D::Alloc>,
) -> Result<bool, StoreError>
    ensures solution { IfOk result (λ yes. yes ≡ true → IsSolution
        (⟦<D as ProviderFunctions>⟧.functions provider.now) request.now.requirements.now found.now.solvables.items) }
    ensures caused { IfOk result (λ yes. yes ≡ true → AreCaused
        (⟦<D as ProviderFunctions>⟧.functions provider.now) request.now.requirements.now
        (alternatives_of request.now.wishes.now) found.now.solvables.items found.now.causes.items) }
    ensures needed { IfOk result (λ yes. yes ≡ true → All (IsNeeded
        (⟦<D as ProviderFunctions>⟧.functions provider.now) request.now.requirements.now
        (alternatives_of request.now.wishes.now) found.now.solvables.items) found.now.solvables.items) }
    ensures none_spare { IfOk result (λ yes. yes ≡ true → NoneSpare
        (⟦<D as ProviderFunctions>⟧.functions provider.now) request.now.requirements.now
        (alternatives_of request.now.wishes.now) found.now.solvables.items) }
{
    if !is_solution(alloc, provider, request.requirements, &found.solvables)? {
        return Ok(false);
    }
    if !are_needed(alloc, provider, request, &found.solvables, &found.causes)? {
        return Ok(false);
    }
    match find_spare(alloc, provider, request, &found.solvables, &found.breaks)? {
        Some(_) => Ok(false),
        None => Ok(true),
    }
}

/// Why no solution that keeps the ranks of the earlier wishes does better by the wish at this place: what rules out its
/// better alternatives. Empty if the wish has its first alternative, or if the steps are too few. The reasons are true;
/// no clause says that they are enough.
pub fn why_not<D: DependencyProvider>(
    alloc: D::Alloc,
    provider: &D,
    request: &Request<D::SolvableId, D::Alloc>,
    place: usize,
    steps: u64,
) -> Result<Vec<Reason<D::NameId, D::SolvableId>, D::Alloc>, StoreError>
    ensures { IfOk result (λ reasons. AreSo (⟦<D as ProviderFunctions>⟧.functions provider.now)
        request.now.requirements.now reasons.items) }
{
    let reasons = found_reasons(alloc, provider, request, place, steps)?;
    if are_so(alloc, provider, request.requirements, &reasons)? {
        return Ok(reasons);
    }
    Ok(Vec::new(alloc))
}

/// The reasons that the search finds. They aren't checked.
fn found_reasons<D: DependencyProvider>(
    alloc: D::Alloc,
    provider: &D,
    request: &Request<D::SolvableId, D::Alloc>,
    place: usize,
    steps: u64,
) -> Result<Vec<Reason<D::NameId, D::SolvableId>, D::Alloc>, StoreError> {
    let task = Task {
        request,
        steps,
        explained_wish: Some(place),
    };
    match search_for(alloc, Borrowed::new(provider), &task)? {
        SearchEnd::Picked(found) => Ok(found.reasons),
        SearchEnd::Unsolvable(found) => Ok(found.shown.reasons),
        SearchEnd::StepsUsed => Ok(Vec::new(alloc)),
    }
}

/// That there is no solution, once that is checked.
fn refuted<D: DependencyProvider>(
    alloc: D::Alloc,
    provider: &D,
    request: &Request<D::SolvableId, D::Alloc>,
    found: NoneShown<D::NameId, D::SolvableId, D::Alloc>,
) -> Result<Answer<D::NameId, D::SolvableId, D::Alloc>, StoreError>
    ensures solution { IfOk result (PicksSolution (⟦<D as ProviderFunctions>⟧.functions provider.now)
        request.now.requirements.now) }
    ensures ranks { IfOk result (PicksRanked (⟦<D as ProviderFunctions>⟧.functions provider.now)
        (alternatives_of request.now.wishes.now)) }
    ensures best { IfOk result (PicksBest (⟦<D as ProviderFunctions>⟧.functions provider.now)
        request.now.requirements.now (alternatives_of request.now.wishes.now)) }
    ensures within { IfOk result (PicksWithin (⟦<D as ProviderFunctions>⟧.functions provider.now)
        request.now.requirements.now (alternatives_of request.now.wishes.now)) }
    ensures granted { IfOk result (PicksGranted (⟦<D as ProviderFunctions>⟧.functions provider.now)
        request.now.requirements.now (alternatives_of request.now.wishes.now)) }
    ensures caused { IfOk result (PicksCaused (⟦<D as ProviderFunctions>⟧.functions provider.now)
        request.now.requirements.now (alternatives_of request.now.wishes.now)) }
    ensures needed { IfOk result (PicksNeeded (⟦<D as ProviderFunctions>⟧.functions provider.now)
        request.now.requirements.now (alternatives_of request.now.wishes.now)) }
    ensures none_spare { IfOk result (PicksNoneSpare (⟦<D as ProviderFunctions>⟧.functions provider.now)
        request.now.requirements.now (alternatives_of request.now.wishes.now)) }
    ensures none { IfOk result (FindsNone (⟦<D as ProviderFunctions>⟧.functions provider.now)
        request.now.requirements.now) }
    ensures reasons_so { IfOk result (GivesSo (⟦<D as ProviderFunctions>⟧.functions provider.now)
        request.now.requirements.now) }
    ensures reasons_enough { IfOk result (GivesEnough (⟦<D as ProviderFunctions>⟧.functions provider.now)) }
    ensures no_reason_spare { IfOk result (GivesNoneSpare (⟦<D as ProviderFunctions>⟧.functions provider.now)) }
{
    if found.shown.learnt.len() as u64 > found.steps {
        return Ok(Answer::StepsUsed);
    }
    let Minimised { found, choices } = leave_out_spare(alloc, Borrowed::new(provider), found)?;
    let shown = found.shown;
    let is_shown = is_certified(alloc, provider, request.requirements, &shown)?;
    let none_spare = is_no_reason_spare(alloc, provider, &shown.reasons, &choices)?;
    let refutation = Refutation {
        reasons: shown.reasons,
        learnt: shown.learnt,
        none_spare,
    };
    if is_shown {
        Ok(Answer::Unsolvable(refutation))
    } else {
        Ok(Answer::Uncertified(refutation))
    }
}

/// Whether the reasons are so, and enough.
fn is_certified<D: DependencyProvider>(
    alloc: D::Alloc,
    provider: &D,
    requested: &[ConditionalRequirement],
    shown: &Shown<D::NameId, D::SolvableId, D::Alloc>,
) -> Result<bool, StoreError>
    ensures so { IfOk result (λ yes. yes ≡ true →
        AreSo (⟦<D as ProviderFunctions>⟧.functions provider.now) requested.now shown.now.reasons.items) }
    ensures enough { IfOk result (λ yes. yes ≡ true →
        AreEnough (⟦<D as ProviderFunctions>⟧.functions provider.now) shown.now.reasons.items) }
{
    if !are_so(alloc, provider, requested, &shown.reasons)? {
        return Ok(false);
    }
    are_enough(alloc, provider, &shown.reasons, &shown.learnt)
}
