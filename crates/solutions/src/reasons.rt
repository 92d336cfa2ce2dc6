//! Whether reasons are so.
ghost use Rattle.std.specs.Prelude.{◌≡◌, true, All, Contains, IfOk, [], Some};
ghost use Rattle.resolvo_pool.specs.Dependencies.{Unknown};
ghost use Rattle.resolvo_pool.specs.Provider.{matching};
ghost use Rattle.solutions.specs.Reasons.{AreSo, HasNoCandidate, IsSo, constraints_in, required_by, requirements_in};

use crate::queries::{candidates, knows};
use crate::reason::Reason;
use resolvo_ids::{SameId, StoreError, StringId, VersionSetId};
use resolvo_pool::{
    ConditionalRequirement, Dependencies, DependencyProvider, Interner, ProviderFunctions,
    Requirement,
};

/// Whether the packages and the request say what each of the reasons says. If the answer is no, one of them is of a
/// solvable that the provider doesn't know, or it isn't so. For each reason the dependencies of its solvable are
/// queried, or the candidates of its package.
pub fn are_so<D: DependencyProvider>(
    alloc: D::Alloc,
    provider: &D,
    requested: &[ConditionalRequirement],
    reasons: &[Reason<D::NameId, D::SolvableId>],
) -> Result<bool, StoreError>
    ensures { IfOk result (λ yes. yes ≡ true →
        AreSo (⟦<D as ProviderFunctions>⟧.functions provider.now) requested.now reasons.now) }
{
    for reason in reasons {
        if !is_so(alloc, provider, requested, *reason)? {
            return Ok(false);
        }
    }
    Ok(true)
}

/// Whether a reason is so.
fn is_so<D: DependencyProvider>(
    alloc: D::Alloc,
    provider: &D,
    requested: &[ConditionalRequirement],
    reason: Reason<D::NameId, D::SolvableId>,
) -> Result<bool, StoreError>
    ensures { IfOk result (λ yes. yes ≡ true →
        IsSo (⟦<D as ProviderFunctions>⟧.functions provider.now) requested.now reason) }
{
    match reason {
        Reason::Needs(parent, conditional) => {
            is_required(alloc, provider, requested, parent, conditional)
        }
        Reason::Lacks(parent, conditional) => {
            is_lacking(alloc, provider, requested, parent, conditional)
        }
        Reason::Limits(solvable, set) => is_limited(alloc, provider, solvable, set),
        Reason::Unknown(solvable, string) => is_unknown(alloc, provider, solvable, string),
        Reason::Excluded(solvable, string) => is_excluded(alloc, provider, solvable, string),
        Reason::Locked(solvable) => is_locked(alloc, provider, solvable),
        Reason::OneVersion(_) => Ok(true),
    }
}

/// Whether the parent requires this, or, without a parent, the request.
fn is_required<D: DependencyProvider>(
    alloc: D::Alloc,
    provider: &D,
    requested: &[ConditionalRequirement],
    parent: Option<D::SolvableId>,
    conditional: ConditionalRequirement,
) -> Result<bool, StoreError>
    ensures { IfOk result (λ yes. yes ≡ true → Contains (required_by
        (⟦<D as ProviderFunctions>⟧.functions provider.now) requested.now parent) conditional) }
{
    match parent {
        None => Ok(is_listed(requested, conditional)),
        Some(solvable) => does_require(alloc, provider, solvable, conditional),
    }
}

/// Whether a solvable requires this.
fn does_require<D: DependencyProvider>(
    alloc: D::Alloc,
    provider: &D,
    solvable: D::SolvableId,
    conditional: ConditionalRequirement,
) -> Result<bool, StoreError>
    ensures { IfOk result (λ yes. yes ≡ true →
        Contains (requirements_in ((D.answers provider.now).needs solvable)) conditional) }
{
    if !provider.knows_solvable(solvable) {
        return Ok(false);
    }
    match provider.get_dependencies(alloc, solvable)? {
        Dependencies::Known(needs) => Ok(is_listed(&needs.requirements, conditional)),
        Dependencies::Unknown(_) => Ok(false),
    }
}

/// Whether a requirement is one of these.
fn is_listed(requirements: &[ConditionalRequirement], conditional: ConditionalRequirement) -> bool
    ensures { result ≡ true → Contains requirements.now conditional }
{
    requirements.contains(&conditional)
}

/// Whether it is required, and no version set of it has a candidate.
fn is_lacking<D: DependencyProvider>(
    alloc: D::Alloc,
    provider: &D,
    requested: &[ConditionalRequirement],
    parent: Option<D::SolvableId>,
    conditional: ConditionalRequirement,
) -> Result<bool, StoreError>
    ensures { IfOk result (λ yes. yes ≡ true → Contains (required_by
        (⟦<D as ProviderFunctions>⟧.functions provider.now) requested.now parent) conditional
        × HasNoCandidate (⟦<D as ProviderFunctions>⟧.functions provider.now) conditional.requirement) }
{
    if !is_required(alloc, provider, requested, parent, conditional)? {
        return Ok(false);
    }
    if !knows(provider, conditional.requirement) {
        return Ok(false);
    }
    let sets = conditional.requirement.version_sets(provider);
    are_empty(alloc, provider, sets.as_slice())
}

/// Whether none of the version sets has a candidate.
fn are_empty<D: DependencyProvider>(
    alloc: D::Alloc,
    provider: &D,
    sets: &[VersionSetId],
) -> Result<bool, StoreError>
    ensures { IfOk result (λ yes. yes ≡ true →
        All (λ set. matching (D.universe provider.now) (D.answers provider.now) set ≡ []) sets.now) }
{
    for set in sets {
        if !is_empty(alloc, provider, *set)? {
            return Ok(false);
        }
    }
    Ok(true)
}

/// Whether a version set has no candidate.
fn is_empty<D: DependencyProvider>(
    alloc: D::Alloc,
    provider: &D,
    set: VersionSetId,
) -> Result<bool, StoreError>
    ensures { IfOk result (λ yes. yes ≡ true →
        matching (D.universe provider.now) (D.answers provider.now) set ≡ []) }
{
    if !provider.knows_version_set(set) {
        return Ok(false);
    }
    let found = candidates(alloc, provider, set, false)?;
    Ok(found.is_empty())
}

/// Whether a solvable has this constraint.
fn is_limited<D: DependencyProvider>(
    alloc: D::Alloc,
    provider: &D,
    solvable: D::SolvableId,
    set: VersionSetId,
) -> Result<bool, StoreError>
    ensures { IfOk result (λ yes. yes ≡ true →
        Contains (constraints_in ((D.answers provider.now).needs solvable)) set) }
{
    if !provider.knows_solvable(solvable) {
        return Ok(false);
    }
    match provider.get_dependencies(alloc, solvable)? {
        Dependencies::Known(needs) => Ok(is_constraint(&needs.constrains, set)),
        Dependencies::Unknown(_) => Ok(false),
    }
}

/// Whether a version set is one of these.
fn is_constraint(sets: &[VersionSetId], set: VersionSetId) -> bool
    ensures { result ≡ true → Contains sets.now set }
{
    sets.contains(&set)
}

/// Whether what a solvable needs isn't known, for this reason.
fn is_unknown<D: DependencyProvider>(
    alloc: D::Alloc,
    provider: &D,
    solvable: D::SolvableId,
    string: StringId,
) -> Result<bool, StoreError>
    ensures { IfOk result (λ yes. yes ≡ true → (D.answers provider.now).needs solvable ≡ Unknown string) }
{
    if !provider.knows_solvable(solvable) {
        return Ok(false);
    }
    match provider.get_dependencies(alloc, solvable)? {
        Dependencies::Known(_) => Ok(false),
        Dependencies::Unknown(why) => Ok(why == string),
    }
}

/// Whether a solvable's package excludes it, for this reason.
fn is_excluded<D: DependencyProvider>(
    alloc: D::Alloc,
    provider: &D,
    solvable: D::SolvableId,
    string: StringId,
) -> Result<bool, StoreError>
    ensures { IfOk result (λ yes. yes ≡ true → Contains ((D.answers provider.now).excluded
        ((D.universe provider.now).solvable_name solvable)) (solvable, string)) }
{
    if !provider.knows_solvable(solvable) {
        return Ok(false);
    }
    match provider.get_candidates(alloc, provider.solvable_name(solvable))? {
        Some(found) => Ok(is_among_excluded(&found.excluded, solvable, string)),
        None => Ok(false),
    }
}

/// Whether a solvable is one of those that are excluded, for this reason.
fn is_among_excluded<S: SameId>(excluded: &[(S, StringId)], solvable: S, string: StringId) -> bool
    ensures { result ≡ true → Contains excluded.now (solvable, string) }
{
    for (other, why) in excluded {
        if *other == solvable && *why == string {
            return true;
        }
    }
    false
}

/// Whether a solvable's package is locked to it.
fn is_locked<D: DependencyProvider>(
    alloc: D::Alloc,
    provider: &D,
    solvable: D::SolvableId,
) -> Result<bool, StoreError>
    ensures { IfOk result (λ yes. yes ≡ true → (D.answers provider.now).locked
        ((D.universe provider.now).solvable_name solvable) ≡ Some solvable) }
{
    if !provider.knows_solvable(solvable) {
        return Ok(false);
    }
    match provider.get_candidates(alloc, provider.solvable_name(solvable))? {
        Some(found) => Ok(is_this(found.locked, solvable)),
        None => Ok(false),
    }
}

/// Whether the locked one is this.
fn is_this<S: SameId>(locked: Option<S>, solvable: S) -> bool
    ensures { result ≡ true → locked ≡ Some solvable }
{
    match locked {
        Some(other) => other == solvable,
        None => false,
    }
}
