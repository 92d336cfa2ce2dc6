//! Which line says why what another one needs can't be picked.
ghost use Rattle.std.specs.Prelude.{◌≡◌, true, IfOk};
ghost use Rattle.reports.specs.Graphs.{forbids, holds_any, leads_to, speaks_of, speaks_of_any, speaks_of_set};

use crate::line::Line;
use crate::report::says_of;
use crate::versions::known_of;
use resolvo_ids::{StoreError, VersionSetId};
use resolvo_pool::{DependencyProvider, Interner, Requirement};
use solutions::Reason;

/// Whether the second line speaks of what the first one needs. The graph of [`write_dot`](crate::dot::write_dot) has an
/// edge there.
pub fn leads_to<P: DependencyProvider>(
    alloc: P::Alloc,
    provider: &P,
    from: &Line<P::NameId, P::SolvableId, P::Alloc>,
    to: &Line<P::NameId, P::SolvableId, P::Alloc>,
) -> Result<bool, StoreError>
    ensures { IfOk result (λ leads. leads ≡
        leads_to P.NameId.eq (P.universe provider.now) (P.answers provider.now) from.now to.now) }
{
    match from.reason {
        Reason::Needs(_, need) => speaks_of(alloc, provider, to, need.requirement),
        _ => Ok(false),
    }
}

/// Whether a line speaks of what a requirement offers.
fn speaks_of<P: DependencyProvider>(
    alloc: P::Alloc,
    provider: &P,
    line: &Line<P::NameId, P::SolvableId, P::Alloc>,
    requirement: Requirement,
) -> Result<bool, StoreError>
    ensures { IfOk result (λ speaks. speaks ≡
        speaks_of P.NameId.eq (P.universe provider.now) (P.answers provider.now) line.now requirement) }
{
    match requirement {
        Requirement::Single(set) if provider.knows_version_set(set) => {
            speaks_of_any(alloc, provider, line, &[set])
        }
        Requirement::Union(union) if provider.knows_union(union) => {
            speaks_of_any(alloc, provider, line, provider.version_sets_in_union(union))
        }
        _ => Ok(false),
    }
}

/// Whether a line speaks of what one of the version sets offers.
fn speaks_of_any<P: DependencyProvider>(
    alloc: P::Alloc,
    provider: &P,
    line: &Line<P::NameId, P::SolvableId, P::Alloc>,
    sets: &[VersionSetId],
) -> Result<bool, StoreError>
    ensures { IfOk result (λ speaks. speaks ≡
        speaks_of_any P.NameId.eq (P.universe provider.now) (P.answers provider.now) line.now sets.now) }
{
    for set in sets {
        if speaks_of_set(alloc, provider, line, *set)? {
            return Ok(true);
        }
    }
    Ok(false)
}

/// Whether a line forbids versions of the set's package, or is said of versions that the set holds.
fn speaks_of_set<P: DependencyProvider>(
    alloc: P::Alloc,
    provider: &P,
    line: &Line<P::NameId, P::SolvableId, P::Alloc>,
    set: VersionSetId,
) -> Result<bool, StoreError>
    ensures { IfOk result (λ speaks. speaks ≡
        speaks_of_set P.NameId.eq (P.universe provider.now) (P.answers provider.now) line.now set) }
{
    if !provider.knows_version_set(set) {
        return Ok(false);
    }
    let name = provider.version_set_name(set);
    if forbids(provider, line.reason, name) {
        return Ok(true);
    }
    if !says_of(provider, Some(name), line) {
        return Ok(false);
    }
    holds_any(alloc, provider, set, &line.versions)
}

/// Whether a reason forbids versions of the package.
fn forbids<I: Interner>(
    interner: &I,
    reason: Reason<I::NameId, I::SolvableId>,
    name: I::NameId,
) -> bool
    ensures { result ≡ forbids I.NameId.eq (I.universe interner.now) reason name }
{
    match reason {
        Reason::Limits(_, set) => {
            interner.knows_version_set(set) && interner.version_set_name(set) == name
        }
        Reason::Locked(solvable) => {
            interner.knows_solvable(solvable) && interner.solvable_name(solvable) == name
        }
        Reason::OneVersion(other) => other == name,
        _ => false,
    }
}

/// Whether the version set holds one of the versions, of those that are known.
fn holds_any<P: DependencyProvider>(
    alloc: P::Alloc,
    provider: &P,
    set: VersionSetId,
    versions: &[P::SolvableId],
) -> Result<bool, StoreError>
    requires { (P.universe provider.now).knows_set set ≡ true }
    ensures { IfOk result (λ holds. holds ≡
        holds_any (P.universe provider.now) (P.answers provider.now) set versions.now) }
{
    let known = known_of(alloc, provider, versions)?;
    let held = provider.filter_candidates(alloc, &known, set, false)?;
    Ok(!held.is_empty())
}
