//! Which solvables requirements offer.
ghost use Rattle.std.specs.Prelude.{◌≡◌, true, IfOk};
ghost use Rattle.std.specs.Bool.{Decides};
ghost use Rattle.std.specs.List.{list_any};
ghost use Rattle.solutions.specs.Needed.{HoldsIfAny, IsOfferedBy, IsOfferedByNeeds, Offers, is_candidate, is_offered};
ghost use Rattle.solutions.specs.Selections.{is_kept};

use crate::queries::{candidates, knows};
use crate::selection::Selection;
use resolvo_ids::{ConditionId, StoreError, VersionSetId};
use resolvo_pool::{
    ConditionalRequirement, Dependencies, DependencyProvider, Interner, ProviderFunctions,
    Requirement,
};

/// Whether one of the requirements, whose condition holds if it has one, offers a solvable.
fn is_offered_by<D: DependencyProvider>(
    selection: &Selection<D>,
    requirements: &[ConditionalRequirement],
    solvable: D::SolvableId,
) -> Result<bool, StoreError>
    ensures { IfOk result (λ yes. Decides yes (IsOfferedBy
        (⟦<D as ProviderFunctions>⟧.functions selection.now.provider.now)
        (is_kept D.SolvableId.eq (D.SolvableId.Set.has selection.now.picked) selection.now.left_out)
        requirements.now solvable)) }
{
    for requirement in requirements {
        if offers(selection, *requirement, solvable)? {
            return Ok(true);
        }
    }
    Ok(false)
}

/// Whether what one solvable needs offers another.
pub(crate) fn is_offered_by_needs<D: DependencyProvider>(
    selection: &Selection<D>,
    parent: D::SolvableId,
    solvable: D::SolvableId,
) -> Result<bool, StoreError>
    requires { (D.universe selection.now.provider.now).knows_solvable parent ≡ true }
    ensures { IfOk result (λ yes. Decides yes (IsOfferedByNeeds
        (⟦<D as ProviderFunctions>⟧.functions selection.now.provider.now)
        (is_kept D.SolvableId.eq (D.SolvableId.Set.has selection.now.picked) selection.now.left_out)
        ((D.answers selection.now.provider.now).needs parent) solvable)) }
{
    match selection
        .provider
        .get_dependencies(selection.alloc, parent)?
    {
        Dependencies::Known(needs) => is_offered_by(selection, &needs.requirements, solvable),
        Dependencies::Unknown(_) => Ok(false),
    }
}

/// Whether a requirement offers a solvable, and its condition holds, if it has one.
pub(crate) fn offers<D: DependencyProvider>(
    selection: &Selection<D>,
    conditional: ConditionalRequirement,
    solvable: D::SolvableId,
) -> Result<bool, StoreError>
    ensures { IfOk result (λ yes. Decides yes (Offers
        (⟦<D as ProviderFunctions>⟧.functions selection.now.provider.now)
        (is_kept D.SolvableId.eq (D.SolvableId.Set.has selection.now.picked) selection.now.left_out)
        solvable conditional)) }
{
    if !is_offered(selection, conditional.requirement, solvable)? {
        return Ok(false);
    }
    holds_if_any(selection, conditional.condition)
}

/// Whether a condition is known and holds, if there is one.
fn holds_if_any<D: DependencyProvider>(
    selection: &Selection<D>,
    condition: Option<ConditionId>,
) -> Result<bool, StoreError>
    ensures { IfOk result (λ yes. Decides yes (HoldsIfAny
        (⟦<D as ProviderFunctions>⟧.functions selection.now.provider.now)
        (is_kept D.SolvableId.eq (D.SolvableId.Set.has selection.now.picked) selection.now.left_out)
        condition)) }
{
    match condition {
        None => Ok(true),
        Some(condition) => is_known_to_hold(selection, condition),
    }
}

/// Whether a condition is known and holds.
fn is_known_to_hold<D: DependencyProvider>(
    selection: &Selection<D>,
    condition: ConditionId,
) -> Result<bool, StoreError>
    ensures { IfOk result (λ yes. Decides yes (HoldsIfAny
        (⟦<D as ProviderFunctions>⟧.functions selection.now.provider.now)
        (is_kept D.SolvableId.eq (D.SolvableId.Set.has selection.now.picked) selection.now.left_out)
        (Some condition))) }
{
    if !selection.provider.knows_condition(condition) {
        return Ok(false);
    }
    selection.condition_holds(condition)
}

/// Whether a solvable is a candidate of one of a requirement's version sets.
fn is_offered<D: DependencyProvider>(
    selection: &Selection<D>,
    requirement: Requirement,
    solvable: D::SolvableId,
) -> Result<bool, StoreError>
    ensures { IfOk result (λ yes. yes ≡ is_offered
        (⟦<D as ProviderFunctions>⟧.functions selection.now.provider.now) requirement solvable) }
{
    if !knows(selection.provider, requirement) {
        return Ok(false);
    }
    let sets = requirement.version_sets(selection.provider);
    is_candidate_of_one(selection, sets.as_slice(), solvable)
}

/// Whether a solvable is a candidate of one of the version sets.
fn is_candidate_of_one<D: DependencyProvider>(
    selection: &Selection<D>,
    sets: &[VersionSetId],
    solvable: D::SolvableId,
) -> Result<bool, StoreError>
    ensures { IfOk result (λ yes. yes ≡ list_any (is_candidate
        (⟦<D as ProviderFunctions>⟧.functions selection.now.provider.now) solvable) sets.now) }
{
    for set in sets {
        if is_candidate(selection, *set, solvable)? {
            return Ok(true);
        }
    }
    Ok(false)
}

/// Whether a solvable is a candidate that a version set holds.
fn is_candidate<D: DependencyProvider>(
    selection: &Selection<D>,
    set: VersionSetId,
    solvable: D::SolvableId,
) -> Result<bool, StoreError>
    ensures { IfOk result (λ yes. yes ≡ is_candidate
        (⟦<D as ProviderFunctions>⟧.functions selection.now.provider.now) solvable set) }
{
    if !selection.provider.knows_version_set(set) {
        return Ok(false);
    }
    let candidates = candidates(selection.alloc, selection.provider, set, false)?;
    Ok(is_among::<D::SolvableId>(&candidates, solvable))
}

/// Whether a solvable is one of these.
fn is_among<S: PartialEq + Copy>(solvables: &[S], solvable: S) -> bool
    ensures { result ≡ list_any (S.eq solvable) solvables.now }
{
    solvables.iter().any(|other| solvable == *other)
}
