//! Callers that know nothing of the provider but its trait, and nothing of the store but its contracts.
ghost use Rattle.std.specs.Prelude.{◌≡◌, ◌≢◌, ℕ, true, List, [], length, None};
ghost use Rattle.resolvo_ids.specs.Types.StoreError.TheVariants.{UnknownId, EmptyTrail};
ghost use Rattle.resolvo_pool.specs.Provider.{sets_of};
ghost use Rattle.resolvo_store.specs.Command.{command_of, reply_of, LoadedAs, Refused, IsRefused};
ghost use Rattle.resolvo_store.specs.Saturating.{RefusalLeaves};
ghost use Rattle.resolvo_store.specs.Store.{lists_of};

use resolvo_pool::{DependencyProvider, Interner, Requirement};
use resolvo_store::{Abstract, ClauseStore, Command, Reply};

/// A command that is refused, whatever it is and why, changes nothing, but for a `Saturate`, which keeps what it
/// forced.
pub fn obey<D: DependencyProvider + Drop>(
    store: &mut ClauseStore<D>,
    command: &Command<D::NameId, D::SolvableId, D::Alloc>,
) -> Reply<D::Alloc>
    ensures { IsRefused (reply_of result) → RefusalLeaves (command_of command.now)
        (⟦<D as Abstract>⟧.store store.old) (⟦<D as Abstract>⟧.store store.new) }
{
    store.step(command)
}

/// A solvable that the provider doesn't know is refused as that, also where memory is short.
pub fn unknown<D: DependencyProvider + Drop>(
    store: &mut ClauseStore<D>,
    solvable: D::SolvableId,
) -> Reply<D::Alloc>
    requires { (D.universe store.old.provider).knows_solvable solvable ≢ true }
    ensures reply { reply_of result ≡ Refused UnknownId }
    ensures same { ⟦<D as Abstract>⟧.store store.new ≡ ⟦<D as Abstract>⟧.store store.old }
{
    store.step(&Command::Variable(solvable))
}

/// Where a requirement is loaded for the first time, what is answered is one list a version set, in particular of a
/// union.
pub fn load_first<D: DependencyProvider + Drop>(
    store: &mut ClauseStore<D>,
    requirement: Requirement,
) -> Reply<D::Alloc>
    requires { lists_of (⟦<D as Abstract>⟧.store store.old) requirement ≡ None }
    ensures { (lists : List (List ℕ)) → reply_of result ≡ LoadedAs lists →
        length lists ≡ length (sets_of (D.universe store.old.provider) requirement) }
{
    store.step(&Command::Load(requirement))
}

/// Asking for a decision changes nothing.
pub fn decide<D: DependencyProvider + Drop>(store: &mut ClauseStore<D>) -> Reply<D::Alloc>
    ensures { ⟦<D as Abstract>⟧.store store.new ≡ ⟦<D as Abstract>⟧.store store.old }
{
    store.step(&Command::Decide)
}

/// Where nothing is assigned there is nothing to take back, also where memory is short.
pub fn undo_nothing<D: DependencyProvider + Drop>(store: &mut ClauseStore<D>) -> Reply<D::Alloc>
    requires { (⟦<D as Abstract>⟧.store store.old).trail ≡ [] }
    ensures reply { reply_of result ≡ Refused EmptyTrail }
    ensures same { ⟦<D as Abstract>⟧.store store.new ≡ ⟦<D as Abstract>⟧.store store.old }
{
    store.step(&Command::UndoLast)
}
