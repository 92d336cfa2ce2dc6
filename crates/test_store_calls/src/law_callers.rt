//! Callers that conclude what is true of every store, whatever store they are handed: they know nothing of the provider
//! but its trait, and nothing of the store but its contracts. The laws that their proofs cite are those of
//! `resolvo_store/proofs/CallerLaws.antt`.
ghost use Rattle.std.specs.Prelude.{◌≡◌, ◌≤◌, ℕ, Bool, length, map, [], None, All, IfOk};
ghost use Rattle.resolvo_store.specs.Command.{command_of, reply_of, NoDecision, Falsified, Conflict};
ghost use Rattle.resolvo_store.specs.Models.{IsModel, IsModelNow, MayLeaveFalse, true_alone};
ghost use Rattle.resolvo_store.specs.Saturating.{HasImpliedMore};
ghost use Rattle.resolvo_store.specs.Solved.{IsSolved};
ghost use Rattle.resolvo_store.specs.Step.{Run};
ghost use Rattle.resolvo_store.specs.Sound.{WatchOwn};
ghost use Rattle.resolvo_store.specs.Store.{values, watched_by};
ghost use Rattle.resolvo_clauses.specs.AtMostOne.{AtMostOne};
ghost use Rattle.resolvo_clauses.specs.Watching.{IsExact};

use resolvo_ids::{StoreError, VariableId};
use resolvo_pool::DependencyProvider;
use resolvo_store::{Abstract, ClauseStore, Command, Reply};

/// A variable that the store doesn't have has no value.
pub fn value_of_unknown<D: DependencyProvider + Drop>(
    store: &ClauseStore<D>,
    variable: VariableId,
) -> Option<bool>
    requires { length (⟦<D as Abstract>⟧.store store.now).origins ≤ variable }
    ensures { result ≡ None }
{
    store.value(variable)
}

/// An undo to level 0 takes every assignment back: then no variable has a value.
pub fn start_again<D: DependencyProvider + Drop>(store: &mut ClauseStore<D>) -> Reply<D::Alloc>
    ensures trail { (⟦<D as Abstract>⟧.store store.new).trail ≡ [] }
    ensures values { (variable : ℕ) → values (⟦<D as Abstract>⟧.store store.new) variable ≡ None }
{
    store.step(&Command::UndoUntil(0))
}

/// Where no decision is left the store is solved: each registered clause whose parent is true has a true candidate.
pub fn search_is_done<D: DependencyProvider + Drop>(store: &mut ClauseStore<D>) -> Reply<D::Alloc>
    ensures { reply_of result ≡ NoDecision → IsSolved (⟦<D as Abstract>⟧.store store.new) }
{
    store.step(&Command::Decide)
}

/// Assigns what clauses force, and asks for a decision once no clause is false or forces anything. No registered clause
/// is falsified then; and where no decision is left, what the trail says to be true, all else false, meets each clause,
/// unless a condition holds a variable that isn't negated, or a learnt clause needs more.
pub fn saturate_and_decide<D: DependencyProvider + Drop>(
    store: &mut ClauseStore<D>,
    level: u32,
) -> Reply<D::Alloc>
    ensures unfalsified { (clause : ℕ) → reply_of result ≡ Falsified clause → ⊥ }
    ensures model { let st = ⟦<D as Abstract>⟧.store store.new in
        All (MayLeaveFalse st) st.clauses → reply_of result ≡ NoDecision → IsModel st (true_alone (values st)) }
{
    match store.step(&Command::Saturate(level)) {
        Reply::Done => store.step(&Command::Decide),
        reply => reply,
    }
}

/// Assigns what clauses force. Whatever is replied, each new entry follows from its clause and the entries before it:
/// truth values of all variables that meet the clauses and agree with the trail still do. A conflict means that there
/// were none.
pub fn saturate_soundly<D: DependencyProvider + Drop>(
    store: &mut ClauseStore<D>,
    level: u32,
) -> Reply<D::Alloc>
    ensures implied { HasImpliedMore level (⟦<D as Abstract>⟧.store store.old)
        (⟦<D as Abstract>⟧.store store.new) }
    ensures kept { (a : ℕ → Bool) → IsModelNow (⟦<D as Abstract>⟧.store store.old) a
        → IsModelNow (⟦<D as Abstract>⟧.store store.new) a }
    ensures conflict { (clause : ℕ) → reply_of result ≡ Conflict clause
        → (a : ℕ → Bool) → IsModelNow (⟦<D as Abstract>⟧.store store.old) a → ⊥ }
{
    store.step(&Command::Saturate(level))
}

/// Obeys commands in turn. Whatever was refused, each literal's watch list then holds exactly the clauses that watch
/// the literal, each once, and what a clause watches is its own.
pub fn obey_watched<D: DependencyProvider + Drop>(
    store: &mut ClauseStore<D>,
    commands: &[Command<D::NameId, D::SolvableId, D::Alloc>],
) -> Result<Vec<Reply<D::Alloc>, D::Alloc>, StoreError>
    ensures ran { IfOk result (λ replies. Run (⟦<D as Abstract>⟧.store store.old) (map command_of commands.now)
        (map reply_of replies.items) (⟦<D as Abstract>⟧.store store.new)) }
    ensures exact { let st = ⟦<D as Abstract>⟧.store store.new in IsExact (watched_by st) st.watchers }
    ensures own { WatchOwn (⟦<D as Abstract>⟧.store store.new) }
{
    store.run(commands)
}

/// Obeys a list of commands. Whatever was refused, truth values that meet all clauses then make at most one of the
/// variables true that are tracked under a name.
pub fn obey_forbids_two<D: DependencyProvider + Drop>(
    store: &mut ClauseStore<D>,
    list: &[Command<D::NameId, D::SolvableId, D::Alloc>],
) -> Result<Vec<Reply<D::Alloc>, D::Alloc>, StoreError>
    ensures ran { IfOk result (λ replies. Run (⟦<D as Abstract>⟧.store store.old) (map command_of list.now)
        (map reply_of replies.items) (⟦<D as Abstract>⟧.store store.new)) }
    ensures forbids_two { let st = ⟦<D as Abstract>⟧.store store.new in
        (a : ℕ → Bool) → IsModel st a → (name : D.NameId) → AtMostOne a (st.trackers name).variables }
{
    store.run(list)
}
