//! Whether a choice of solvables meets what reasons demand, and whether none of the reasons is spare.
ghost use Rattle.std.specs.Prelude.{◌≡◌, true, ◌<◌, length, All, IfOk, option_map, unwrap_or};
ghost use Rattle.std.specs.List.{list_any};
ghost use Rattle.solutions.specs.Reasons.{IsMet, IsOneVersion, IsOnlyOne, NoReasonSpare, others};
ghost use Rattle.solutions.specs.Selections.{is_kept};
ghost use Rattle.solutions.specs.Solutions.{IsSatisfied, is_respected};

use crate::reason::Reason;
use crate::selection::Selection;
use crate::solution::select;
use resolvo_ids::{StoreError, VersionSetId};
use resolvo_pool::{ConditionalRequirement, DependencyProvider, Interner, ProviderFunctions};
use std::alloc::Allocator;

/// Whether none of the reasons is spare: whether the choice at the place of each meets all others. If the answer is no,
/// one of them doesn't, or it has a solvable that the provider doesn't know, or there is none for a reason.
pub fn is_no_reason_spare<D: DependencyProvider>(
    alloc: D::Alloc,
    provider: &D,
    reasons: &[Reason<D::NameId, D::SolvableId>],
    choices: &[Vec<D::SolvableId, D::Alloc>],
) -> Result<bool, StoreError>
    ensures { IfOk result (λ yes. yes ≡ true →
        NoReasonSpare (⟦<D as ProviderFunctions>⟧.functions provider.now) reasons.now) }
{
    if choices.len() < reasons.len() {
        return Ok(false);
    }
    for place in 0..reasons.len() {
        let Some(picked) = choices.get(place) else {
            return Ok(false);
        };
        let rest = others(alloc, reasons, place)?;
        if !are_met(alloc, provider, &rest, picked)? {
            return Ok(false);
        }
    }
    Ok(true)
}

/// All reasons but the one at this place.
fn others<X: Copy, A: Allocator>(
    alloc: A,
    reasons: &[X],
    place: usize,
) -> Result<Vec<X, A>, StoreError>
    requires { place < length reasons.now }
    ensures { IfOk result (λ rest. rest.items ≡ others place reasons.now) }
{
    let mut rest = Vec::from_slice(alloc, &reasons[..place])?;
    rest.extend_from_slice(&reasons[place + 1..])?;
    Ok(rest)
}

/// Whether these solvables meet what each of the reasons demands. If the answer is no, they don't, or the provider
/// doesn't know one of them.
pub fn are_met<D: DependencyProvider>(
    alloc: D::Alloc,
    provider: &D,
    reasons: &[Reason<D::NameId, D::SolvableId>],
    picked: &[D::SolvableId],
) -> Result<bool, StoreError>
    ensures { IfOk result (λ yes. yes ≡ true →
        All (IsMet (⟦<D as ProviderFunctions>⟧.functions provider.now) picked.now) reasons.now) }
{
    let selection = select(alloc, provider, picked)?;
    for reason in reasons {
        if !is_met(&selection, picked, *reason)? {
            return Ok(false);
        }
    }
    Ok(true)
}

/// Whether these solvables, which are those of the selection, meet what a reason demands.
fn is_met<D: DependencyProvider>(
    selection: &Selection<D>,
    solvables: &[D::SolvableId],
    reason: Reason<D::NameId, D::SolvableId>,
) -> Result<bool, StoreError>
    requires { (s : D.SolvableId) →
        is_kept D.SolvableId.eq (D.SolvableId.Set.has selection.now.picked) selection.now.left_out s ≡
        list_any (D.SolvableId.eq s) solvables.now }
    ensures { IfOk result (λ yes. yes ≡ true →
        IsMet (⟦<D as ProviderFunctions>⟧.functions selection.now.provider.now) solvables.now reason) }
{
    match reason {
        Reason::Needs(parent, conditional) => is_need_met(selection, parent, conditional),
        Reason::Lacks(parent, conditional) => is_need_met(selection, parent, conditional),
        Reason::Limits(solvable, set) => is_limit_met(selection, solvable, set),
        Reason::Unknown(solvable, _) => Ok(!selection.picks(solvable)),
        Reason::Excluded(solvable, _) => Ok(!selection.picks(solvable)),
        Reason::Locked(solvable) => Ok(is_only_one(selection.provider, solvables, solvable)),
        Reason::OneVersion(name) => Ok(is_one_version(selection.provider, solvables, name)),
    }
}

/// Whether a requirement is satisfied, unless it is that of a parent that isn't picked.
fn is_need_met<D: DependencyProvider>(
    selection: &Selection<D>,
    parent: Option<D::SolvableId>,
    conditional: ConditionalRequirement,
) -> Result<bool, StoreError>
    ensures { IfOk result (λ yes. yes ≡ true →
        unwrap_or (option_map
        (is_kept D.SolvableId.eq (D.SolvableId.Set.has selection.now.picked) selection.now.left_out)
        parent) true ≡ true →
        IsSatisfied (⟦<D as ProviderFunctions>⟧.functions selection.now.provider.now)
        (is_kept D.SolvableId.eq (D.SolvableId.Set.has selection.now.picked) selection.now.left_out) conditional) }
{
    if !does_act(selection, parent) {
        return Ok(true);
    }
    selection.satisfies(conditional)
}

/// Whether a parent is picked; the request always acts.
fn does_act<D: DependencyProvider>(selection: &Selection<D>, parent: Option<D::SolvableId>) -> bool
    ensures { result ≡ unwrap_or (option_map
        (is_kept D.SolvableId.eq (D.SolvableId.Set.has selection.now.picked) selection.now.left_out) parent) true }
{
    match parent {
        Some(solvable) => selection.picks(solvable),
        None => true,
    }
}

/// Whether a constraint is respected, unless its solvable isn't picked.
fn is_limit_met<D: DependencyProvider>(
    selection: &Selection<D>,
    solvable: D::SolvableId,
    set: VersionSetId,
) -> Result<bool, StoreError>
    ensures { IfOk result (λ yes. yes ≡ true →
        is_kept D.SolvableId.eq (D.SolvableId.Set.has selection.now.picked) selection.now.left_out solvable ≡ true →
        is_respected (⟦<D as ProviderFunctions>⟧.functions selection.now.provider.now)
        (is_kept D.SolvableId.eq (D.SolvableId.Set.has selection.now.picked) selection.now.left_out) set ≡ true) }
{
    if !selection.picks(solvable) {
        return Ok(true);
    }
    selection.respects(set)
}

/// Whether no two of the solvables are of the package.
fn is_one_version<D: DependencyProvider>(
    provider: &D,
    solvables: &[D::SolvableId],
    name: D::NameId,
) -> bool
    ensures { result ≡ true → IsOneVersion (⟦<D as ProviderFunctions>⟧.functions provider.now) solvables.now name }
{
    for solvable in solvables {
        if !provider.knows_solvable(*solvable) {
            return false;
        }
        if provider.solvable_name(*solvable) == name {
            return is_only_one(provider, solvables, *solvable);
        }
    }
    true
}

/// Whether none of the solvables is of this one's package, but itself.
fn is_only_one<D: DependencyProvider>(
    provider: &D,
    solvables: &[D::SolvableId],
    solvable: D::SolvableId,
) -> bool
    ensures { result ≡ true → IsOnlyOne (⟦<D as ProviderFunctions>⟧.functions provider.now) solvables.now solvable }
{
    for other in solvables {
        if !is_no_other(provider, *other, solvable) {
            return false;
        }
    }
    true
}

/// Whether two solvables are the same, or known and of different packages.
fn is_no_other<D: DependencyProvider>(
    provider: &D,
    other: D::SolvableId,
    solvable: D::SolvableId,
) -> bool
    ensures { result ≡ true → (D.universe provider.now).solvable_name other ≡
        (D.universe provider.now).solvable_name solvable → other ≡ solvable }
{
    if other == solvable {
        return true;
    }
    if !provider.knows_solvable(other) || !provider.knows_solvable(solvable) {
        return false;
    }
    provider.solvable_name(other) != provider.solvable_name(solvable)
}
