//! Which solvables were said to have their dependencies at hand.
ghost use Rattle.std.specs.Prelude.{◌≡◌, [], ◌∷◌, OnOk, OnErr, IfErr};
ghost use Rattle.typed_ids.specs.declared.error.StoreError.TheVariants.{OutOfMemory};
ghost use Rattle.typed_ids.specs.TotalMaps.{SameValues};
ghost use Rattle.solver_cache.specs.Hints.{hints_of, AreMarked, AreMarkedInPart};

use id_maps::{IdSet, SolverId};
use providers::{Candidates, HintDependenciesAvailable};
use std::alloc::Allocator;
use typed_ids::StoreError;

/// Marks the solvables that an answer says to have their dependencies at hand. A refusal may have marked some.
pub(crate) fn mark_hints<S: SolverId<A>, A: Allocator + Copy>(
    hinted: &mut S::Set,
    answer: &Candidates<S, A>,
) -> Result<(), StoreError>
    ensures ok { OnOk result (AreMarked S.eq S.Set.is_too_large
        (λ s. S.Set.has hinted.old s) (hints_of answer.now) (λ s. S.Set.has hinted.new s)) }
    ensures err { OnErr result (AreMarkedInPart S.eq S.Set.is_too_large
        (λ s. S.Set.has hinted.old s) (hints_of answer.now) (λ s. S.Set.has hinted.new s)) }
    ensures memory { IfErr result (λ e. e ≡ OutOfMemory) }
{
    match &answer.hint_dependencies_available {
        HintDependenciesAvailable::None => Ok(()),
        HintDependenciesAvailable::All => mark_all::<S, A>(hinted, &answer.candidates),
        HintDependenciesAvailable::Some(solvables) => mark_all::<S, A>(hinted, solvables),
    }
}

/// Marks solvables. A refusal may have marked some.
fn mark_all<S: SolverId<A>, A: Allocator + Copy>(
    hinted: &mut S::Set,
    solvables: &[S],
) -> Result<(), StoreError>
    ensures ok { OnOk result (AreMarked S.eq S.Set.is_too_large
        (λ s. S.Set.has hinted.old s) solvables.now (λ s. S.Set.has hinted.new s)) }
    ensures err { OnErr result (AreMarkedInPart S.eq S.Set.is_too_large
        (λ s. S.Set.has hinted.old s) solvables.now (λ s. S.Set.has hinted.new s)) }
    ensures memory { IfErr result (λ e. e ≡ OutOfMemory) }
{
    for solvable in solvables {
        mark::<S, A>(hinted, *solvable)?;
    }
    Ok(())
}

/// Marks a solvable. One that the set can't hold is passed over.
fn mark<S: SolverId<A>, A: Allocator + Copy>(
    hinted: &mut S::Set,
    solvable: S,
) -> Result<(), StoreError>
    ensures ok { OnOk result (AreMarked S.eq S.Set.is_too_large
        (λ s. S.Set.has hinted.old s) (solvable ∷ []) (λ s. S.Set.has hinted.new s)) }
    ensures err { OnErr result (SameValues (λ s. S.Set.has hinted.old s) (λ s. S.Set.has hinted.new s)) }
    ensures memory { IfErr result (λ e. e ≡ OutOfMemory) }
{
    match hinted.insert(solvable) {
        Ok(_) | Err(StoreError::IdSpace) => Ok(()),
        Err(refused) => Err(refused),
    }
}
