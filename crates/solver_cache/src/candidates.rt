//! The candidates of packages, queried from the provider.
ghost use Rattle.std.specs.Prelude.{◌≡◌, IfOk, IfErr};
ghost use Rattle.typed_ids.specs.declared.error.StoreError.TheVariants.{OutOfMemory};
ghost use Rattle.providers.specs.Provider.{favored_of};
ghost use Rattle.providers.specs.Provider.{candidates_of as answered_candidates};
ghost use Rattle.solver_cache.specs.Cache.{IsAnswer, IsWhole};

use crate::provider_functions::ProviderFunctions;
use providers::{Candidates, DependencyProvider, Interner};
use std::alloc::Allocator;
use typed_ids::StoreError;

/// What a provider answered of a package; of a package that there isn't, no candidates.
fn answered<S, A: Allocator + Copy>(alloc: A, found: Option<Candidates<S, A>>) -> Candidates<S, A>
    ensures candidates { result.candidates.items ≡ answered_candidates found }
    ensures favored { result.favored ≡ favored_of found }
    ensures whole { IsWhole found result }
{
    match found {
        Some(candidates) => candidates,
        None => Candidates::new(alloc),
    }
}

/// The provider's answer for a package; one that there isn't has no candidates.
pub(crate) fn candidates_of<D: DependencyProvider>(
    provider: &D,
    alloc: D::Alloc,
    name: D::NameId,
) -> Result<Candidates<D::SolvableId, D::Alloc>, StoreError>
    ensures ok { IfOk result (λ answer. IsAnswer (⟦<D as ProviderFunctions>⟧.functions provider.now)
        (D.may_answer provider.now) name answer) }
    ensures err { IfErr result (λ e. e ≡ OutOfMemory) }
{
    let found = provider.get_candidates(alloc, name)?;
    Ok(answered(alloc, found))
}
