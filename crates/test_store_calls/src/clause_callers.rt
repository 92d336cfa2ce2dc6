//! Callers that read what they have added: clauses by their literals, and helper variables by what they stand for.
ghost use Rattle.std.specs.Prelude.{◌≡◌, ◌<◌, ℕ, Bool, [], ◌∷◌, length, Some, IsSome, IfOk, IfSome};
ghost use Rattle.resolvo_clauses.specs.Literals.{Neg};
ghost use Rattle.resolvo_store.specs.Command.{reply_of, ClauseIs};
ghost use Rattle.resolvo_store.specs.Outcome.{helper_origin};

use resolvo_clauses::{Literal, VariableOrigin};
use resolvo_ids::{StoreError, StringId, VariableId};
use resolvo_pool::{DependencyProvider, Interner};
use resolvo_store::{Abstract, ClauseStore, Command, HelperOrigin, Reply};

/// A clause that is added gets the next id, and is known from then on: its id is a place in the list of clauses.
pub fn add<D: DependencyProvider + Drop>(
    store: &mut ClauseStore<D>,
    command: &Command<D::NameId, D::SolvableId, D::Alloc>,
) -> Reply<D::Alloc>
    ensures next { (clause : ℕ) (conflict : Bool) → reply_of result ≡ ClauseIs clause conflict →
        clause ≡ length (⟦<D as Abstract>⟧.store store.old).clauses }
    ensures known { (clause : ℕ) (conflict : Bool) → reply_of result ≡ ClauseIs clause conflict →
        clause < length (⟦<D as Abstract>⟧.store store.new).clauses }
{
    store.step(command)
}

/// The literals of the clause that excludes a solvable: it isn't true.
pub fn exclude<D: DependencyProvider + Drop>(
    store: &mut ClauseStore<D>,
    variable: VariableId,
    reason: StringId,
) -> Result<Option<Vec<Literal, D::Alloc>>, StoreError>
    ensures known { IfOk result (λ found. IsSome found) }
    ensures literals { IfOk result (λ found. IfSome found (λ literals. literals.items ≡ Neg variable ∷ [])) }
{
    let added = store.exclude(variable, reason)?;
    store.literals(added.clause)
}

/// What a new helper variable stands for: what it was asked to.
pub fn stands_for<D: DependencyProvider + Drop>(
    store: &mut ClauseStore<D>,
    origin: HelperOrigin<D::NameId>,
) -> Result<Option<VariableOrigin<D::NameId, D::SolvableId>>, StoreError>
    ensures { IfOk result (λ found. found ≡ Some (helper_origin origin)) }
{
    let variable = store.helper(origin)?;
    Ok(store.origin(variable))
}
