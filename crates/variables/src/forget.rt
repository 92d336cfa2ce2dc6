//! Forgetting the last variables: their origins and the places of their solvables, which a map of variables keeps in
//! step.
ghost use Rattle.std.specs.Prelude.{◌≡◌, ◌<◌, ◌≤◌, ◌^◌, [], ◌∷◌, ◌++◌, take, vec_len};
ghost use Rattle.variables.specs.declared.variable_origin.VariableOrigin.{VariableOrigin};
ghost use Rattle.variables.specs.Forgetting.{forgotten};
ghost use Rattle.variables.specs.Variables.{variable_of_solvable};

use crate::stored_origin::StoredOrigin;
use id_maps::{IdMap, Slot, SolverId};
use std::alloc::Allocator;

/// Forgets that the solvable's variable is `last`, if it is.
fn forget_solvable<S: SolverId<A>, A: Allocator + Copy>(
    slots: &mut S::Slots,
    solvable: S,
    last: u32,
)
    ensures { (s : S) → S.Slots.value_at slots.new s ≡ forgotten (S.eq solvable s) last (S.Slots.value_at slots.old s) }
{
    if let Some(variable) = slots.get(solvable).number() {
        if variable == last {
            slots.put(solvable, Slot::new(None));
        }
    }
}

/// Forgets the last variable.
fn forget_last<N: Copy, S: SolverId<A>, A: Allocator + Copy>(
    origins: &mut Vec<StoredOrigin<N, S>, A>,
    slots: &mut S::Slots,
)
    requires agrees { (s : S) → S.Slots.value_at slots.old s ≡ variable_of_solvable S.eq origins.old.items s }
    requires some { 0 < vec_len origins.old }
    requires small { vec_len origins.old < 2 ^ 32 }
    ensures agrees { (s : S) → S.Slots.value_at slots.new s ≡ variable_of_solvable S.eq origins.new.items s }
    ensures last { (o : VariableOrigin N S) × (origins.old.items ≡ origins.new.items ++ o ∷ []) }
{
    match origins.pop() {
        Some(last) => {
            if let Some(solvable) = last.origin().as_solvable() {
                forget_solvable(slots, solvable, origins.len() as u32);
            }
        }
        None => {}
    }
}

/// Forgets the variables from `count` on.
pub(crate) fn forget_rest<N: Copy, S: SolverId<A>, A: Allocator + Copy>(
    origins: &mut Vec<StoredOrigin<N, S>, A>,
    slots: &mut S::Slots,
    count: usize,
)
    requires agrees { (s : S) → S.Slots.value_at slots.old s ≡ variable_of_solvable S.eq origins.old.items s }
    requires within { count ≤ vec_len origins.old }
    requires small { vec_len origins.old < 2 ^ 32 }
    ensures agrees { (s : S) → S.Slots.value_at slots.new s ≡ variable_of_solvable S.eq origins.new.items s }
    ensures kept { origins.new.items ≡ take count origins.old.items }
{
    while origins.len() > count {
        forget_last(origins, slots);
    }
}
