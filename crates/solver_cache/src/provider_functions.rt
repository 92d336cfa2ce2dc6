//! How contracts name the fixed functions of a provider.
use id_maps::{IdMap, IdSet, SolverId};
use providers::{DependencyProvider, Interner};

/// The fixed functions of a provider and of its ids, gathered: contracts write them
/// `⟦<D as ProviderFunctions>⟧.functions provider`. Each provider has them.
pub trait ProviderFunctions: DependencyProvider {
    ghost use Rattle.solver_cache.specs.Functions.{Provider};

    ghost functions: { Self → Provider Self.NameId Self.SolvableId };
}

impl<D: DependencyProvider> ProviderFunctions for D {
    ghost use Rattle.solver_cache.specs.Functions.{gathered};

    ghost functions = { gathered D.NameId.eq D.SolvableId.eq D.NameId.Slots.is_too_large D.SolvableId.Slots.is_too_large
        D.SolvableId.Set.is_too_large D.NameId.are_many D.universe D.answers };
}
