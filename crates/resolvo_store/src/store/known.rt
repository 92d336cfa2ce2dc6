//! Whether what commands name is known: tests of the parts of a store that tell it.
ghost use Rattle.std.specs.Prelude.{◌≡◌, ◌&&◌, length, nat_lt};
ghost use Rattle.std.specs.List.{list_all};
ghost use Rattle.decisions.specs.Literals.{variable_of};
ghost use Rattle.providers.specs.Provider.{knows_requirement};
ghost use Rattle.resolvo_store.specs.Known.{knows_parts};

use decisions::Literal;
use id_maps::SolverId;
use providers::{DependencyProvider, Interner, Requirement};
use std::alloc::Allocator;
use typed_ids::{ConditionId, DenseIndex, VariableId};
use variables::VariableMap;

/// Whether there is the variable.
pub(super) fn knows_variable<N: Copy, S: SolverId<A>, A: Allocator + Copy>(
    variables: &VariableMap<N, S, A>,
    variable: VariableId,
) -> bool
    ensures { result ≡ nat_lt variable (length variables.now) }
{
    variable.to_index() < variables.count()
}

/// Whether both variables are below this number.
pub(super) fn are_below(first: VariableId, second: VariableId, variables: usize) -> bool
    ensures { result ≡ (nat_lt first variables && nat_lt second variables) }
{
    first.to_index() < variables && second.to_index() < variables
}

/// Whether the variables of all these literals are below this number.
pub(super) fn knows_literals(literals: &[Literal], variables: usize) -> bool
    ensures { result ≡ list_all (λ l. nat_lt (variable_of l) variables) literals.now }
{
    literals
        .iter()
        .all(|literal| literal.variable().to_index() < variables)
}

/// Whether the variables of the literals are below this number, and the provider knows the condition.
pub(super) fn knows_parts<D: DependencyProvider>(
    provider: &D,
    variables: usize,
    literals: &[Literal],
    condition: ConditionId,
) -> bool
    ensures { result ≡ knows_parts (D.universe provider.now) variables literals.now condition }
{
    knows_literals(literals, variables) && provider.knows_condition(condition)
}

/// Whether the provider knows the requirement's version set, or its union.
pub(super) fn knows_requirement<D: DependencyProvider>(
    provider: &D,
    requirement: Requirement,
) -> bool
    ensures { result ≡ knows_requirement (D.universe provider.now) requirement }
{
    match requirement {
        Requirement::Single(set) => provider.knows_version_set(set),
        Requirement::Union(union) => provider.knows_union(union),
    }
}
