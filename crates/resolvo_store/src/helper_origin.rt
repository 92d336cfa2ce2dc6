//! What a helper variable stands for.
ghost use Rattle.std.specs.Prelude.{◌≡◌, ◌++◌, ◌∷◌, [], length, false, IsTrue, Err, IfOk, OnOk, OnErr, IfErr};
ghost use Rattle.typed_ids.specs.Refusals.{IsGrowthRefusal};
ghost use Rattle.typed_ids.specs.declared.error.StoreError.TheVariants.{IdSpace};
ghost use Rattle.variables.specs.Variables.{are_variables_out};
ghost use Rattle.resolvo_store.specs.Outcome.{helper_origin};

use id_maps::{IdMap, SolverId};
use providers::Requirement;
use std::alloc::Allocator;
use typed_ids::{SameClone, SameValue, StoreError, VariableId, VersionSetId};
use variables::VariableMap;

/// What a helper variable stands for. `N` are the provider's names.
#[derive(Clone, Copy, Debug, PartialEq, Eq)]
pub enum HelperOrigin<N> {
    /// Some solvable of the package is part of the solution.
    AtLeastOne(N),
    /// A solvable outside the version set is part of the solution.
    ConstrainsViolation(VersionSetId),
    /// Stands for a requirement's candidates, wherever they are required.
    RequiresGate(Requirement),
}

impl<N: SameValue> SameValue for HelperOrigin<N> {
    ghost use Rattle.std.proofs.Common.{rules};

    ghost same = { λ a b h. Prim.search rules };
}

impl<N: SameClone> SameClone for HelperOrigin<N> {
    ghost use Rattle.std.proofs.Common.{rules};

    ghost clone_is_same = { λ a b h. Prim.search rules };
}

/// A new variable that stands for this.
pub(crate) fn alloc_helper<N: Copy, S: SolverId<A>, A: Allocator + Copy>(
    variables: &mut VariableMap<N, S, A>,
    origin: HelperOrigin<N>,
) -> Result<VariableId, StoreError>
    ensures variable { IfOk result (λ v. v ≡ length variables.old) }
    ensures ok { OnOk result (variables.new ≡ variables.old ++ helper_origin origin ∷ []) }
    ensures ids_out { IsTrue (are_variables_out (length variables.old)) → result ≡ Err IdSpace }
    ensures err { OnErr result (variables.new ≡ variables.old) }
    ensures refused { IfErr result (IsGrowthRefusal (are_variables_out (length variables.old))) }
    ensures fits { OnOk result (are_variables_out (length variables.old) ≡ false) }
{
    match origin {
        HelperOrigin::AtLeastOne(name) => variables.alloc_at_least_one_variable(name),
        HelperOrigin::ConstrainsViolation(set) => variables.alloc_constrains_violation_variable(
            set,
        ),
        HelperOrigin::RequiresGate(requirement) => variables.alloc_requires_gate_variable(
            requirement,
        ),
    }
}
