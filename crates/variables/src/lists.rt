//! The variables of a list of solvables.
ghost use Rattle.std.specs.Prelude.{◌≡◌, ◌≤◌, map, length, take, false, IfOk, OnOk, OnErr, IfErr};
ghost use Rattle.typed_ids.specs.Refusals.{IsGrowthRefusal};
ghost use Rattle.variables.specs.Variables.{interned_variable, with_variables, lacks_variables, IsPartlyInterned};

use crate::variable_map::VariableMap;
use id_maps::SolverId;
use std::alloc::Allocator;
use typed_ids::{StoreError, VariableId};

/// Lists of variables, one a version set.
pub type VariableLists<A> = Vec<Vec<VariableId, A>, A>;

/// The variables of the solvables of one list; each gets one if it has none. A refusal leaves variables to the first so
/// many of them. Those that were there stay in front: [`VariableMap::forget_from`] takes back the others.
pub fn intern_list<N: Copy, S: SolverId<A>, A: Allocator + Copy>(
    variables: &mut VariableMap<N, S, A>,
    alloc: A,
    solvables: &[S],
) -> Result<Vec<VariableId, A>, StoreError>
    ensures list { IfOk result (λ list. list.items ≡ map (interned_variable S.eq variables.new) solvables.now) }
    ensures ok { OnOk result (variables.new ≡ with_variables S.eq variables.old solvables.now) }
    ensures err { OnErr result (IsPartlyInterned S.eq variables.old solvables.now variables.new) }
    ensures refused { IfErr result
        (IsGrowthRefusal (lacks_variables S.eq S.Slots.is_too_large variables.old solvables.now)) }
    ensures fit { OnOk result (lacks_variables S.eq S.Slots.is_too_large variables.old solvables.now ≡ false) }
    ensures front { take (length variables.old) variables.new ≡ variables.old }
    ensures longer { length variables.old ≤ length variables.new }
{
    let mut list = Vec::with_capacity(alloc, solvables.len())?;
    for solvable in solvables {
        let variable = variables.intern_solvable(*solvable)?;
        list.push_reserved(variable);
    }
    prove!(variables.count() < 1 << 31);
    Ok(list)
}
