//! Whether a package allows that a solvable is picked.
ghost use Rattle.std.specs.Prelude.{◌≡◌, true, false, not, ◌&&◌, option_map, unwrap_or, IfOk, IfErr};
ghost use Rattle.std.specs.List.{list_any};
ghost use Rattle.resolvo_ids.specs.Types.StoreError.TheVariants.{OutOfMemory};
ghost use Rattle.solutions.specs.Solutions.{is_allowed};

use resolvo_ids::{SameId, StoreError, StringId};
use resolvo_pool::{Candidates, DependencyProvider, Interner, ProviderFunctions};
use std::alloc::Allocator;

/// Whether a solvable is a candidate of its package, which doesn't exclude it, and which isn't locked to another one.
/// The package's candidates are queried once.
pub(crate) fn is_allowed<D: DependencyProvider>(
    alloc: D::Alloc,
    provider: &D,
    solvable: D::SolvableId,
) -> Result<bool, StoreError>
    requires { (D.universe provider.now).knows_solvable solvable ≡ true }
    ensures ok { IfOk result (λ yes. yes ≡
        is_allowed (⟦<D as ProviderFunctions>⟧.functions provider.now) solvable) }
    ensures memory { IfErr result (λ e. e ≡ OutOfMemory) }
{
    match provider.get_candidates(alloc, provider.solvable_name(solvable))? {
        Some(found) => Ok(allows(&found, solvable)),
        None => Ok(false),
    }
}

/// Whether a solvable is one of these candidates, not excluded, and not locked to another one.
fn allows<S: SameId, A: Allocator>(found: &Candidates<S, A>, solvable: S) -> bool
    ensures { result ≡ (list_any (λ s. S.eq s solvable) found.now.candidates.items
        && (not (list_any (λ e. S.eq e.0 solvable) found.now.excluded.items)
        && not (unwrap_or (option_map (λ s. not (S.eq s solvable)) found.now.locked) false))) }
{
    found.candidates.contains(&solvable)
        && !is_excluded(&found.excluded, solvable)
        && !is_locked_out(found.locked, solvable)
}

/// Whether a solvable is one of those that are excluded.
fn is_excluded<S: SameId>(excluded: &[(S, StringId)], solvable: S) -> bool
    ensures { result ≡ list_any (λ e. S.eq e.0 solvable) excluded.now }
{
    excluded.iter().any(|(other, _)| *other == solvable)
}

/// Whether another one is locked.
fn is_locked_out<S: SameId>(locked: Option<S>, solvable: S) -> bool
    ensures { result ≡ unwrap_or (option_map (λ s. not (S.eq s solvable)) locked) false }
{
    match locked {
        Some(other) => other != solvable,
        None => false,
    }
}
