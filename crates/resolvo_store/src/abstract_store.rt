//! How contracts name the abstract store.
use id_maps::{IdMap, IdSet, SolverId};
use providers::{DependencyProvider, Interner};
use solver_cache::ProviderFunctions;

/// The abstract store of a clause store's state, which contracts write `⟦<D as Abstract>⟧.store self.now`, and what
/// contracts say of two of them, before a call and after it.
///
/// Each provider has it. It ties the provider's fixed functions, the equality of its ids and the limits of their
/// storage into the one value of which steps and runs speak.
pub trait Abstract: DependencyProvider {
    ghost use Rattle.providers.specs.declared.requirement.Requirement.{Requirement};
    ghost use Rattle.resolvo_store.specs.Command.{Command, Reply};
    ghost use Rattle.resolvo_store.specs.Store.{StoreState, Store};

    /// The abstract store.
    ghost store: { StoreState Self Self.NameId Self.SolvableId Self.NameId.Scores → Store Self.NameId Self.SolvableId };

    /// A command is given this reply: a `Step`.
    ghost step: { StoreState Self Self.NameId Self.SolvableId Self.NameId.Scores → Command Self.NameId Self.SolvableId →
        Reply → StoreState Self Self.NameId Self.SolvableId Self.NameId.Scores → Type 0 };

    /// Nothing changed.
    ghost same: { StoreState Self Self.NameId Self.SolvableId Self.NameId.Scores →
        StoreState Self Self.NameId Self.SolvableId Self.NameId.Scores → Type 0 };

    /// What a command leaves that is refused.
    ghost refused: { StoreState Self Self.NameId Self.SolvableId Self.NameId.Scores →
        Command Self.NameId Self.SolvableId → StoreState Self Self.NameId Self.SolvableId Self.NameId.Scores → Type 0 };

    /// How a command with this reply walks rows, and whether it syncs the queue: `QueueStep`.
    ghost queue_step: { StoreState Self Self.NameId Self.SolvableId Self.NameId.Scores →
        Command Self.NameId Self.SolvableId → Reply →
        StoreState Self Self.NameId Self.SolvableId Self.NameId.Scores → Type 0 };

    /// The requirement is loaded, and a `Load` of it is given the lists that are stored for it.
    ghost loads: { StoreState Self Self.NameId Self.SolvableId Self.NameId.Scores → Requirement →
        StoreState Self Self.NameId Self.SolvableId Self.NameId.Scores → Type 0 };
}

impl<D: DependencyProvider> Abstract for D {
    ghost use Rattle.std.specs.Prelude.{◌≡◌};
    ghost use Rattle.resolvo_store.specs.Loading.{IsLoadedAs};
    ghost use Rattle.resolvo_store.specs.Saturating.{RefusalLeaves};
    ghost use Rattle.resolvo_store.specs.Step.{Step};
    ghost use Rattle.resolvo_store.specs.Store.{store_of};
    ghost use Rattle.resolvo_store.specs.Walks.{QueueStep};

    ghost store = { store_of ⟦<D as ProviderFunctions>⟧.functions D.NameId.Scores.value_at };

    ghost step = { let st = store_of ⟦<D as ProviderFunctions>⟧.functions D.NameId.Scores.value_at in
        λ old c reply new. Step (st old) c reply (st new) };

    ghost same = { let st = store_of ⟦<D as ProviderFunctions>⟧.functions D.NameId.Scores.value_at in
        λ old new. st new ≡ st old };

    ghost refused = { let st = store_of ⟦<D as ProviderFunctions>⟧.functions D.NameId.Scores.value_at in
        λ old c new. RefusalLeaves c (st old) (st new) };

    ghost queue_step = { let st = store_of ⟦<D as ProviderFunctions>⟧.functions D.NameId.Scores.value_at in
        λ old c reply new. QueueStep (st old) c reply new.trail old.queue_state new.queue_state };

    ghost loads = { let st = store_of ⟦<D as ProviderFunctions>⟧.functions D.NameId.Scores.value_at in
        λ old r new. IsLoadedAs (st old) r (st new) };
}
