//! Whether a picked solvable can be left out.
ghost use Rattle.std.specs.Prelude.{◌≡◌, true, not, filter, map, None, IfOk, IfSome};
ghost use Rattle.std.specs.Bool.{Decides};
ghost use Rattle.std.specs.List.{list_any};
ghost use Rattle.solutions.specs.Selections.{IsNoSolution, is_kept};
ghost use Rattle.solutions.specs.Wishes.{IsSpare, IsSpareAt, NoneSpare, alternatives_of, rank};

use crate::needed::Cause;
use crate::ranking::ranks_by;
use crate::selection::Selection;
use crate::solution::{are_needs_satisfied, is_solution, select};
use crate::wish::{Request, Wish};
use resolvo_ids::{SolverId, StoreError};
use resolvo_pool::{ConditionalRequirement, DependencyProvider, Interner, ProviderFunctions};
use std::alloc::Allocator;

/// The place of a picked solvable that can be left out: the rest is a solution, and as good by all wishes. Of each one
/// it first tests what should break without it (`breaks`): a requirement of the request, or another solvable's needs.
/// If the rest doesn't satisfy that, the solvable can't be left out; the test costs what these requirements cost.
/// Otherwise the ranks of the rest are compared, and then the rest is checked as a whole.
pub fn find_spare<D: DependencyProvider>(
    alloc: D::Alloc,
    provider: &D,
    request: &Request<D::SolvableId, D::Alloc>,
    picked: &[D::SolvableId],
    breaks: &[Cause],
) -> Result<Option<usize>, StoreError>
    ensures none { IfOk result (λ found. found ≡ None → NoneSpare (⟦<D as ProviderFunctions>⟧.functions provider.now)
        request.now.requirements.now (alternatives_of request.now.wishes.now) picked.now) }
    ensures spare { IfOk result (λ found. IfSome found (IsSpareAt (⟦<D as ProviderFunctions>⟧.functions provider.now)
        request.now.requirements.now (alternatives_of request.now.wishes.now) picked.now)) }
{
    let mut selection = select(alloc, provider, picked)?;
    let ranks = ranks_by(&selection, request.wishes)?;
    let choice = Choice {
        request,
        picked,
        ranks,
    };
    for place in 0..picked.len() {
        let solvable = picked[place];
        selection.left_out = Some(solvable);
        if is_spare(&selection, &choice, solvable, breaks.get(place).copied())? {
            return Ok(Some(place));
        }
    }
    Ok(None)
}

/// A request, what is picked for it, and the wishes' ranks.
#[derive(Drop)]
struct Choice<'c, D: DependencyProvider> {
    request: &'c Request<'c, D::SolvableId, D::Alloc>,
    picked: &'c [D::SolvableId],
    ranks: Vec<usize, D::Alloc>,
}

/// Whether a picked solvable can be left out. The selection has all others.
fn is_spare<D: DependencyProvider>(
    selection: &Selection<D>,
    choice: &Choice<D>,
    solvable: D::SolvableId,
    cause: Option<Cause>,
) -> Result<bool, StoreError>
    requires rest { (s : D.SolvableId) →
        is_kept D.SolvableId.eq (D.SolvableId.Set.has selection.now.picked) selection.now.left_out s ≡
        list_any (D.SolvableId.eq s) (filter (λ t. not (D.SolvableId.eq t solvable)) choice.now.picked.now) }
    requires ranks { choice.now.ranks.items ≡
        map (rank (⟦<D as ProviderFunctions>⟧.functions selection.now.provider.now) choice.now.picked.now)
        (alternatives_of choice.now.request.now.wishes.now) }
    ensures { IfOk result (λ yes. Decides yes (IsSpare
        (⟦<D as ProviderFunctions>⟧.functions selection.now.provider.now) choice.now.request.now.requirements.now
        (alternatives_of choice.now.request.now.wishes.now) choice.now.picked.now solvable)) }
{
    if is_cause_unsatisfied(selection, choice, cause)? {
        return Ok(false);
    }
    let ranks = ranks_by(selection, choice.request.wishes)?;
    if choice.ranks != ranks {
        return Ok(false);
    }
    let rest = without::<D::SolvableId, D::Alloc>(selection.alloc, choice.picked, solvable)?;
    is_solution(
        selection.alloc,
        selection.provider,
        choice.request.requirements,
        &rest,
    )
}

/// The solvables, but for one.
fn without<S: SolverId<A>, A: Allocator + Copy>(
    alloc: A,
    solvables: &[S],
    left_out: S,
) -> Result<Vec<S, A>, StoreError>
    ensures { IfOk result (λ rest. rest.items ≡ filter (λ s. not (S.eq s left_out)) solvables.now) }
{
    let mut rest = Vec::new(alloc);
    for solvable in solvables {
        if *solvable != left_out {
            rest.push(*solvable)?;
        }
    }
    Ok(rest)
}

/// Whether the requirement at a cause's place, or the needs of the solvable there, aren't satisfied.
fn is_cause_unsatisfied<D: DependencyProvider>(
    selection: &Selection<D>,
    choice: &Choice<D>,
    cause: Option<Cause>,
) -> Result<bool, StoreError>
    ensures { IfOk result (λ yes. yes ≡ true → IsNoSolution
        (⟦<D as ProviderFunctions>⟧.functions selection.now.provider.now) choice.now.request.now.requirements.now
        (is_kept D.SolvableId.eq (D.SolvableId.Set.has selection.now.picked) selection.now.left_out)) }
{
    match cause {
        Some(Cause::Requested(place)) => {
            is_requirement_unsatisfied(selection, choice.request.requirements, place)
        }
        Some(Cause::Required(place)) => is_need_unsatisfied(selection, choice, place),
        _ => Ok(false),
    }
}

/// Whether the requirement at a place isn't satisfied.
fn is_requirement_unsatisfied<D: DependencyProvider>(
    selection: &Selection<D>,
    requirements: &[ConditionalRequirement],
    place: usize,
) -> Result<bool, StoreError>
    ensures { IfOk result (λ yes. yes ≡ true → IsNoSolution
        (⟦<D as ProviderFunctions>⟧.functions selection.now.provider.now) requirements.now
        (is_kept D.SolvableId.eq (D.SolvableId.Set.has selection.now.picked) selection.now.left_out)) }
{
    let Some(requirement) = requirements.get(place) else {
        return Ok(false);
    };
    Ok(!selection.satisfies(*requirement)?)
}

/// Whether the solvable at a place is kept, and its needs aren't satisfied.
fn is_need_unsatisfied<D: DependencyProvider>(
    selection: &Selection<D>,
    choice: &Choice<D>,
    place: usize,
) -> Result<bool, StoreError>
    ensures { IfOk result (λ yes. yes ≡ true → IsNoSolution
        (⟦<D as ProviderFunctions>⟧.functions selection.now.provider.now) choice.now.request.now.requirements.now
        (is_kept D.SolvableId.eq (D.SolvableId.Set.has selection.now.picked) selection.now.left_out)) }
{
    let Some(parent) = choice.picked.get(place) else {
        return Ok(false);
    };
    if !selection.picks(*parent) {
        return Ok(false);
    }
    if !selection.provider.knows_solvable(*parent) {
        return Ok(false);
    }
    Ok(!are_needs_satisfied(selection, *parent)?)
}
