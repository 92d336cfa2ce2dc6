//! Callers that load and require, and give variables values.
ghost use Rattle.std.specs.Prelude.{◌≡◌, ◌==◌, [], ◌∷◌, ◌++◌, false, not, if◌then◌else◌, Some, None, Err, IfOk, OnErr};
ghost use Rattle.resolvo_ids.specs.Refusals.{code_of};
ghost use Rattle.resolvo_ids.specs.Types.StoreError.TheVariants.{UnknownId};
ghost use Rattle.resolvo_pool.specs.Provider.{knows_requirement};
ghost use Rattle.resolvo_clauses.specs.Trail.{val};

use resolvo_clauses::Decision;
use resolvo_ids::{ClauseId, StoreError, VariableId};
use resolvo_pool::{DependencyProvider, Requirement};
use resolvo_store::{Abstract, Assignment, ClauseStore};

/// Gives a variable a value, and answers whether it has this one now or the other one.
pub fn give<D: DependencyProvider + Drop>(
    store: &mut ClauseStore<D>,
    variable: VariableId,
    value: bool,
    clause: ClauseId,
    level: u32,
) -> Result<bool, StoreError>
    ensures given { IfOk result (λ given. val (⟦<D as Abstract>⟧.store store.new).trail variable ≡
        Some (if given then value else not value)) }
    ensures refused { OnErr result (⟦<D as Abstract>⟧.store store.new ≡ ⟦<D as Abstract>⟧.store store.old) }
{
    match store.assign(Decision::new(variable, value, clause), level)? {
        Assignment::New | Assignment::Already => Ok(true),
        Assignment::Clash => Ok(false),
    }
}

/// Loads a requirement, which adds no clause.
pub fn load<D: DependencyProvider + Drop>(
    store: &mut ClauseStore<D>,
    requirement: Requirement,
) -> Result<(), StoreError>
    ensures clauses { (⟦<D as Abstract>⟧.store store.new).requires ≡
        (⟦<D as Abstract>⟧.store store.old).requires }
    ensures unknown { knows_requirement (D.universe store.old.provider) requirement ≡ false → result ≡ Err UnknownId }
{
    store.load(requirement)
}

/// Adds the clause that the parent, if true, requires one of the requirement's candidates.
pub fn register<D: DependencyProvider + Drop>(
    store: &mut ClauseStore<D>,
    parent: VariableId,
    requirement: Requirement,
) -> Result<ClauseId, StoreError>
    ensures added { IfOk result (λ clause. (⟦<D as Abstract>⟧.store store.new).requires ≡
        (⟦<D as Abstract>⟧.store store.old).requires
        ++ (record { parent = parent; requirement = requirement; condition = None; clause_id = clause }) ∷ []) }
    ensures refused { OnErr result (⟦<D as Abstract>⟧.store store.new ≡ ⟦<D as Abstract>⟧.store store.old) }
{
    let added = store.requires_clause(parent, requirement, None)?;
    Ok(added.clause)
}

/// Both: loads the requirement, and adds the clause. Where the clause is refused, the requirement may be loaded all the
/// same.
pub fn require<D: DependencyProvider + Drop>(
    store: &mut ClauseStore<D>,
    parent: VariableId,
    requirement: Requirement,
) -> Result<ClauseId, StoreError>
    ensures added { IfOk result (λ clause. (⟦<D as Abstract>⟧.store store.new).requires ≡
        (⟦<D as Abstract>⟧.store store.old).requires
        ++ (record { parent = parent; requirement = requirement; condition = None; clause_id = clause }) ∷ []) }
    ensures refused { OnErr result ((⟦<D as Abstract>⟧.store store.new).requires ≡
        (⟦<D as Abstract>⟧.store store.old).requires) }
    ensures unknown { knows_requirement (D.universe store.old.provider) requirement ≡ false → result ≡ Err UnknownId }
{
    load(store, requirement)?;
    register(store, parent, requirement)
}

/// Whether what was refused may be granted another time, though nothing else is done: memory is all that comes and
/// goes.
pub fn may_pass(error: StoreError) -> bool
    ensures { result ≡ (code_of error == 1) }
{
    match error {
        StoreError::OutOfMemory => true,
        _ => false,
    }
}
