//! The cache: what it stores, and what it answers without a query to the provider.
ghost use Rattle.std.specs.Prelude.{◌≡◌, false, []};

mod answering;
mod best;
mod filtering;
mod querying;
mod reading;
mod sorting;

use crate::provider_functions::ProviderFunctions;
use crate::stored_lists::StoredLists;
use id_maps::{IdMap, IdSet, SolverId};
use id_storage::StoredAnswers;
use providers::{Candidates, Dependencies, DependencyProvider, Interner, Requirement};
use std::marker::Model;
use typed_ids::{CandidatesId, DependenciesId, VersionSetId};

/// The queries of a solver to a provider, with the answers.
///
/// A question whose answer is kept is answered again by one look-up: it is never refused, takes no memory and changes
/// nothing. After a refusal the questions that were answered before are kept, and some hints of the package that was
/// asked for may count already.
#[derive(Drop)]
pub struct SolverCache<D: DependencyProvider> {
    provider: D,
    candidates: StoredAnswers<
        CandidatesId,
        D::NameId,
        Candidates<D::SolvableId, D::Alloc>,
        D::Alloc,
    >,
    /// The candidates that a version set holds.
    matching: StoredLists<VersionSetId, D::SolvableId, D::Alloc>,
    /// The candidates that it doesn't hold.
    non_matching: StoredLists<VersionSetId, D::SolvableId, D::Alloc>,
    sorted: StoredLists<Requirement, D::SolvableId, D::Alloc>,
    dependencies: StoredAnswers<DependenciesId, D::SolvableId, Dependencies<D::Alloc>, D::Alloc>,
    /// The solvables whose dependencies were said to be available.
    hinted: <D::SolvableId as SolverId<D::Alloc>>::Set,
    alloc: D::Alloc,
}

impl<D: DependencyProvider> Model for SolverCache<D> {
    ghost use Rattle.solver_cache.specs.Cache.{Cache, IsCache};
    ghost use Rattle.solver_cache.specs.Functions.{gathered};

    ghost Value = { Cache D D.NameId D.SolvableId D.Alloc D.SolvableId.Set };

    ghost view = { λ a. record {
      provider = a.provider;
      candidates = a.candidates;
      matching = a.matching;
      non_matching = a.non_matching;
      sorted = a.sorted;
      dependencies = a.dependencies;
      hinted = a.hinted;
    } };

    ghost invariant = { λ a. IsCache (gathered D.NameId.eq D.SolvableId.eq D.NameId.Slots.is_too_large
        D.SolvableId.Slots.is_too_large D.SolvableId.Set.is_too_large D.NameId.are_many D.universe D.answers a.provider)
        (D.may_answer a.provider) (record {
          provider = a.provider;
          candidates = a.candidates;
          matching = a.matching;
          non_matching = a.non_matching;
          sorted = a.sorted;
          dependencies = a.dependencies;
          hinted = a.hinted;
        }) };
}

impl<D: DependencyProvider + Drop> SolverCache<D> {
    ghost use Rattle.solver_cache.specs.Cache.{IsCache, is_available};

    /// A cache without queries and answers. Takes no memory.
    pub fn new(alloc: D::Alloc, provider: D) -> Self
        ensures provider { result.provider ≡ provider }
        ensures nothing { (result.candidates ≡ []) × (result.matching ≡ []) × (result.non_matching ≡ []) ×
            (result.sorted ≡ []) × (result.dependencies ≡ []) }
        ensures no_hints { (s : D.SolvableId) → D.SolvableId.Set.has result.hinted s ≡ false }
    {
        SolverCache {
            provider,
            candidates: StoredAnswers::new(alloc),
            matching: StoredLists::new(alloc),
            non_matching: StoredLists::new(alloc),
            sorted: StoredLists::new(alloc),
            dependencies: StoredAnswers::new(alloc),
            hinted: <<D::SolvableId as SolverId<D::Alloc>>::Set as IdSet<
                D::SolvableId,
                D::Alloc,
            >>::new(alloc),
            alloc,
        }
    }

    /// The provider.
    pub fn provider(&self) -> &D
        ensures provider { result.now ≡ self.now.provider }
        ensures cached { IsCache (⟦<D as ProviderFunctions>⟧.functions self.now.provider)
            (D.may_answer self.now.provider) self.now }
    {
        &self.provider
    }

    /// Whether the dependencies of a solvable are at hand: they were queried, or a package's answer said that they
    /// are available.
    pub fn are_dependencies_available_for(&self, solvable: D::SolvableId) -> bool
        ensures { result ≡ is_available (⟦<D as ProviderFunctions>⟧.functions self.now.provider) self.now
            D.SolvableId.Set.has solvable }
    {
        self.dependencies.find(solvable).is_some() || self.hinted.contains(solvable)
    }
}
