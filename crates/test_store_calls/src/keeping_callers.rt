//! Callers that hold on to what a store answered while more commands are obeyed: they know nothing of the provider but
//! its trait, and nothing of the store but its contracts. The laws that their proofs cite are those of
//! `resolvo_store/proofs/KeepingLaws.antt` and `CandidateLaws.antt`.
ghost use Rattle.std.specs.Prelude.{◌≡◌, slice_get, Some, IfOk, IfErr};
ghost use Rattle.resolvo_clauses.specs.Types.Clause.TheVariants.{Excluded};
ghost use Rattle.resolvo_store.specs.Command.{reply_of, IsRefused, LoadedAs, Refused};
ghost use Rattle.resolvo_store.specs.Growth.{AreCandidates, candidate_variables};

use resolvo_ids::{ClauseId, StoreError, StringId, VariableId};
use resolvo_pool::{DependencyProvider, Requirement};
use resolvo_store::{Abstract, ClauseStore, Command, Reply};
use std::alloc::Allocator;

/// Adds a clause, and obeys more commands: whatever they were answered, the clause is still there under its id.
pub fn exclude_first<D: DependencyProvider + Drop>(
    store: &mut ClauseStore<D>,
    variable: VariableId,
    reason: StringId,
    commands: &[Command<D::NameId, D::SolvableId, D::Alloc>],
) -> Result<ClauseId, StoreError>
    ensures { IfOk result (λ clause. slice_get (⟦<D as Abstract>⟧.store store.new).clauses clause ≡
        Some (Excluded variable reason)) }
{
    let added = store.exclude(variable, reason)?;
    store.run(commands)?;
    Ok(added.clause)
}

/// Loads a requirement, obeys another command, and loads the requirement again: whatever the other one was answered,
/// both loads are answered the same, the variables that the candidates have after all three.
pub fn load_again<D: DependencyProvider + Drop>(
    store: &mut ClauseStore<D>,
    requirement: Requirement,
    between: &Command<D::NameId, D::SolvableId, D::Alloc>,
) -> Result<(Reply<D::Alloc>, Reply<D::Alloc>), StoreError>
    requires { AreCandidates (⟦<D as Abstract>⟧.store store.old) }
    ensures same { IfOk result (λ replies. reply_of replies.0 ≡ reply_of replies.1) }
    ensures candidates { IfOk result (λ replies. reply_of replies.1 ≡
        LoadedAs (candidate_variables (⟦<D as Abstract>⟧.store store.new) requirement)) }
{
    let before = answered(store.step(&Command::Load(requirement)))?;
    store.step(between);
    let after = answered(store.step(&Command::Load(requirement)))?;
    Ok((before, after))
}

/// The reply, or the refusal that it is.
fn answered<A: Allocator>(reply: Reply<A>) -> Result<Reply<A>, StoreError>
    ensures ok { IfOk result (λ answer. (reply_of answer ≡ reply_of reply) × (IsRefused (reply_of answer) → ⊥)) }
    ensures err { IfErr result (λ error. reply_of reply ≡ Refused error) }
{
    match reply {
        Reply::Refused(error) => Err(error),
        reply => Ok(reply),
    }
}
