//! Whether what is picked is a solution.
ghost use Rattle.std.specs.Prelude.{◌≡◌, true, All, None, map, IfOk};
ghost use Rattle.std.specs.Bool.{Decides};
ghost use Rattle.std.specs.List.{list_all, list_any, IsDistinct};
ghost use Rattle.solutions.specs.Selections.{is_kept};
ghost use Rattle.solutions.specs.Solutions.{AreNeedsSatisfied, IsSatisfied, IsSolution, is_respected};
ghost use Rattle.solutions.specs.Truth.{IsFit};

use crate::allowed::is_allowed;
use crate::selection::Selection;
use resolvo_ids::{IdSet, SolverId, StoreError, VersionSetId};
use resolvo_pool::{
    ConditionalRequirement, Dependencies, DependencyProvider, Interner, ProviderFunctions,
};

/// Whether these solvables are a solution of the request. Each of them is visited once, with its package and what it
/// needs. Refused `IdSpace` if an id is too large for a set.
pub fn is_solution<D: DependencyProvider>(
    alloc: D::Alloc,
    provider: &D,
    requested: &[ConditionalRequirement],
    picked: &[D::SolvableId],
) -> Result<bool, StoreError>
    ensures { IfOk result (λ yes. Decides yes
        (IsSolution (⟦<D as ProviderFunctions>⟧.functions provider.now) requested.now picked.now)) }
{
    if !are_of_different_packages(alloc, provider, picked)? {
        return Ok(false);
    }
    let selection = select(alloc, provider, picked)?;
    if !are_satisfied(&selection, requested)? {
        return Ok(false);
    }
    are_all_fit(&selection, picked)
}

/// Whether the solvables are known, and no two of them are of one package.
fn are_of_different_packages<D: DependencyProvider>(
    alloc: D::Alloc,
    provider: &D,
    solvables: &[D::SolvableId],
) -> Result<bool, StoreError>
    ensures { IfOk result (λ yes. Decides yes
        (All (λ s. (D.universe provider.now).knows_solvable s ≡ true) solvables.now
        × IsDistinct D.NameId.eq (map (D.universe provider.now).solvable_name solvables.now))) }
{
    let mut names = <<D::NameId as SolverId<D::Alloc>>::Set as IdSet<D::NameId, D::Alloc>>::new(
        alloc,
    );
    for solvable in solvables {
        if !provider.knows_solvable(*solvable) {
            return Ok(false);
        }
        if !names.insert(provider.solvable_name(*solvable))? {
            return Ok(false);
        }
    }
    Ok(true)
}

/// The selection of these solvables. None of them is left out.
pub(crate) fn select<'p, D: DependencyProvider>(
    alloc: D::Alloc,
    provider: &'p D,
    solvables: &[D::SolvableId],
) -> Result<Selection<'p, D>, StoreError>
    ensures picked { IfOk result (λ selection. (s : D.SolvableId) →
        is_kept D.SolvableId.eq (D.SolvableId.Set.has selection.picked) selection.left_out s ≡
        list_any (D.SolvableId.eq s) solvables.now) }
    ensures left_out { IfOk result (λ selection. selection.left_out ≡ None) }
    ensures provider { IfOk result (λ selection. selection.provider.now ≡ provider.now) }
{
    let mut picked = <<D::SolvableId as SolverId<D::Alloc>>::Set as IdSet<
        D::SolvableId,
        D::Alloc,
    >>::new(alloc);
    for solvable in solvables {
        picked.insert(*solvable)?;
    }
    Ok(Selection {
        alloc,
        provider,
        picked,
        left_out: None,
    })
}

/// Whether each of the requirements is satisfied.
pub(crate) fn are_satisfied<D: DependencyProvider>(
    selection: &Selection<D>,
    requirements: &[ConditionalRequirement],
) -> Result<bool, StoreError>
    ensures { IfOk result (λ yes. Decides yes (All (IsSatisfied
        (⟦<D as ProviderFunctions>⟧.functions selection.now.provider.now)
        (is_kept D.SolvableId.eq (D.SolvableId.Set.has selection.now.picked) selection.now.left_out))
        requirements.now)) }
{
    for requirement in requirements {
        if !selection.satisfies(*requirement)? {
            return Ok(false);
        }
    }
    Ok(true)
}

/// Whether each of the constraints is respected.
fn are_respected<D: DependencyProvider>(
    selection: &Selection<D>,
    sets: &[VersionSetId],
) -> Result<bool, StoreError>
    ensures { IfOk result (λ yes. yes ≡ list_all (is_respected
        (⟦<D as ProviderFunctions>⟧.functions selection.now.provider.now)
        (is_kept D.SolvableId.eq (D.SolvableId.Set.has selection.now.picked) selection.now.left_out)) sets.now) }
{
    for set in sets {
        if !selection.respects(*set)? {
            return Ok(false);
        }
    }
    Ok(true)
}

/// Whether each of the solvables is allowed, and its needs are satisfied.
fn are_all_fit<D: DependencyProvider>(
    selection: &Selection<D>,
    solvables: &[D::SolvableId],
) -> Result<bool, StoreError>
    requires { All (λ s. (D.universe selection.now.provider.now).knows_solvable s ≡ true) solvables.now }
    ensures { IfOk result (λ yes. Decides yes (All (IsFit
        (⟦<D as ProviderFunctions>⟧.functions selection.now.provider.now)
        (is_kept D.SolvableId.eq (D.SolvableId.Set.has selection.now.picked) selection.now.left_out)) solvables.now)) }
{
    for solvable in solvables {
        if !is_fit(selection, *solvable)? {
            return Ok(false);
        }
    }
    Ok(true)
}

/// Whether a solvable is allowed, and its needs are satisfied.
fn is_fit<D: DependencyProvider>(
    selection: &Selection<D>,
    solvable: D::SolvableId,
) -> Result<bool, StoreError>
    requires { (D.universe selection.now.provider.now).knows_solvable solvable ≡ true }
    ensures { IfOk result (λ yes. Decides yes (IsFit
        (⟦<D as ProviderFunctions>⟧.functions selection.now.provider.now)
        (is_kept D.SolvableId.eq (D.SolvableId.Set.has selection.now.picked) selection.now.left_out) solvable)) }
{
    if !is_allowed(selection.alloc, selection.provider, solvable)? {
        return Ok(false);
    }
    are_needs_satisfied(selection, solvable)
}

/// Whether the needs of a solvable are satisfied.
pub(crate) fn are_needs_satisfied<D: DependencyProvider>(
    selection: &Selection<D>,
    solvable: D::SolvableId,
) -> Result<bool, StoreError>
    requires { (D.universe selection.now.provider.now).knows_solvable solvable ≡ true }
    ensures { IfOk result (λ yes. Decides yes (AreNeedsSatisfied
        (⟦<D as ProviderFunctions>⟧.functions selection.now.provider.now)
        (is_kept D.SolvableId.eq (D.SolvableId.Set.has selection.now.picked) selection.now.left_out)
        ((D.answers selection.now.provider.now).needs solvable))) }
{
    match selection
        .provider
        .get_dependencies(selection.alloc, solvable)?
    {
        Dependencies::Known(needs) => {
            if !are_satisfied(selection, &needs.requirements)? {
                return Ok(false);
            }
            are_respected(selection, &needs.constrains)
        }
        Dependencies::Unknown(_) => Ok(false),
    }
}
