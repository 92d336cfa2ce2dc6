//! Whether what is picked is needed.
ghost use Rattle.std.specs.Prelude.{◌≡◌, ◌&&◌, ◌<◌, true, Some, All, IfOk, length, slice_get, take};
ghost use Rattle.std.specs.List.{list_any};
ghost use Rattle.solutions.specs.Needed.{AreCaused, IsCausedBy, IsNeeded, IsOfferedAt, IsOfferedByNeeds, IsWishedAt};
ghost use Rattle.solutions.specs.Selections.{is_kept};
ghost use Rattle.solutions.specs.Wishes.{alternatives_of};

use crate::offers::{is_offered_by_needs, offers};
use crate::selection::Selection;
use crate::solution::select;
use crate::wish::{Alternative, Request, Wish};
use resolvo_ids::{SolverId, StoreError};
use resolvo_pool::{ConditionalRequirement, DependencyProvider, Interner, ProviderFunctions};
use std::alloc::Allocator;

/// Why a solvable is picked.
#[derive(Clone, Copy, Debug, PartialEq, Eq)]
pub enum Cause {
    /// The requirement at this place of the request offers it.
    Requested(usize),
    /// The wish at this place has it.
    Wished(usize),
    /// The solvable at this place of what is picked needs it: a requirement of its dependencies offers it.
    Required(usize),
}

/// Whether each picked solvable is needed, by the cause at its place. A cause that names another picked solvable counts
/// only if that one comes before.
pub fn are_needed<D: DependencyProvider>(
    alloc: D::Alloc,
    provider: &D,
    request: &Request<D::SolvableId, D::Alloc>,
    picked: &[D::SolvableId],
    causes: &[Cause],
) -> Result<bool, StoreError>
    ensures caused { IfOk result (λ yes. yes ≡ true → AreCaused (⟦<D as ProviderFunctions>⟧.functions provider.now)
        request.now.requirements.now (alternatives_of request.now.wishes.now) picked.now causes.now) }
    ensures needed { IfOk result (λ yes. yes ≡ true → All (IsNeeded (⟦<D as ProviderFunctions>⟧.functions provider.now)
        request.now.requirements.now (alternatives_of request.now.wishes.now) picked.now) picked.now) }
{
    let selection = select(alloc, provider, picked)?;
    for place in 0..picked.len() {
        let Some(cause) = causes.get(place) else {
            return Ok(false);
        };
        if !is_caused_by(
            &selection,
            request,
            before(picked, place),
            *cause,
            picked[place],
        )? {
            return Ok(false);
        }
    }
    Ok(true)
}

/// The solvables before a place.
fn before<S>(solvables: &[S], place: usize) -> &[S]
    requires { place < length solvables.now }
    ensures { result.now ≡ take place solvables.now }
{
    &solvables[..place]
}

/// Whether a cause is so of a solvable, where these are picked before it.
fn is_caused_by<D: DependencyProvider>(
    selection: &Selection<D>,
    request: &Request<D::SolvableId, D::Alloc>,
    before: &[D::SolvableId],
    cause: Cause,
    solvable: D::SolvableId,
) -> Result<bool, StoreError>
    ensures { IfOk result (λ yes. yes ≡ true → IsCausedBy
        (⟦<D as ProviderFunctions>⟧.functions selection.now.provider.now)
        (is_kept D.SolvableId.eq (D.SolvableId.Set.has selection.now.picked) selection.now.left_out)
        request.now.requirements.now (alternatives_of request.now.wishes.now) before.now cause solvable) }
{
    match cause {
        Cause::Requested(place) => is_requested_at(
            selection,
            request.requirements,
            place,
            solvable,
        ),
        Cause::Wished(place) => {
            Ok(is_wished_at::<D::SolvableId, D::Alloc>(request.wishes, place, solvable))
        }
        Cause::Required(place) => is_required_by(selection, before, place, solvable),
    }
}

/// Whether the requirement at a place offers a solvable.
fn is_requested_at<D: DependencyProvider>(
    selection: &Selection<D>,
    requirements: &[ConditionalRequirement],
    place: usize,
    solvable: D::SolvableId,
) -> Result<bool, StoreError>
    ensures { IfOk result (λ yes. yes ≡ true → IsOfferedAt
        (⟦<D as ProviderFunctions>⟧.functions selection.now.provider.now)
        (is_kept D.SolvableId.eq (D.SolvableId.Set.has selection.now.picked) selection.now.left_out)
        requirements.now place solvable) }
{
    match requirements.get(place) {
        Some(requirement) => offers(selection, *requirement, solvable),
        None => Ok(false),
    }
}

/// Whether what the solvable at a place needs offers another one.
fn is_required_by<D: DependencyProvider>(
    selection: &Selection<D>,
    before: &[D::SolvableId],
    place: usize,
    solvable: D::SolvableId,
) -> Result<bool, StoreError>
    ensures { IfOk result (λ yes. yes ≡ true → (parent : D.SolvableId) × (slice_get before.now place ≡ Some parent) ×
        IsOfferedByNeeds (⟦<D as ProviderFunctions>⟧.functions selection.now.provider.now)
        (is_kept D.SolvableId.eq (D.SolvableId.Set.has selection.now.picked) selection.now.left_out) ((D.answers
        selection.now.provider.now).needs parent) solvable) }
{
    let Some(parent) = before.get(place) else {
        return Ok(false);
    };
    if !selection.provider.knows_solvable(*parent) {
        return Ok(false);
    }
    is_offered_by_needs(selection, *parent, solvable)
}

/// Whether the wish at a place has the alternative that a solvable is picked.
fn is_wished_at<S: SolverId<A>, A: Allocator + Copy>(
    wishes: &[Wish<S, A>],
    place: usize,
    solvable: S,
) -> bool
    ensures { result ≡ true → IsWishedAt (alternatives_of wishes.now) place solvable }
{
    match wishes.get(place) {
        Some(wish) => has_picked(&wish.alternatives, solvable),
        None => false,
    }
}

/// Whether one of the alternatives is that a solvable is picked.
fn has_picked<S: PartialEq + Copy>(alternatives: &[Alternative<S>], solvable: S) -> bool
    ensures { result ≡ list_any (λ a. a.is_picked && S.eq a.solvable solvable) alternatives.now }
{
    alternatives.iter().any(|alternative| alternative.is_picked && alternative.solvable == solvable)
}
