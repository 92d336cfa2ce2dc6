//! A law of candidate lists, whatever the provider.
ghost use Rattle.solver_cache.specs.CandidateLaws.{CandidatesDivide};

use providers::DependencyProvider;
use solver_cache::ProviderFunctions;
use typed_ids::VersionSetId;

/// A version set splits its package's candidates into those that it holds and the others. Each candidate is in exactly
/// one of the two lists, once for each time that the provider lists it. Sorting only reorders those that the set holds.
pub fn candidates_divide<D: DependencyProvider>(provider: &D, set: VersionSetId)
    ensures { CandidatesDivide (⟦<D as ProviderFunctions>⟧.functions provider.now) set }
{}
