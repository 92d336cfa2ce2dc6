//! Rows as literals.
ghost use Rattle.std.specs.Prelude.{◌≡◌, ◌++◌, map, IfOk, OnOk, IfErr};
ghost use Rattle.typed_ids.specs.declared.error.StoreError.TheVariants.{OutOfMemory};
ghost use Rattle.decisions.specs.Literals.{Pos};
ghost use Rattle.clause_counters.specs.GroupedClauses.{row_literals};

use decisions::Literal;
use std::alloc::Allocator;
use typed_ids::{StoreError, VariableId};

/// The positive literals of the variables, list by list.
pub(crate) fn positive_literals<A: Allocator + Copy>(
    alloc: A,
    lists: &[Vec<VariableId, A>],
) -> Result<Vec<Literal, A>, StoreError>
    ensures ok { IfOk result (λ literals. literals.items ≡ row_literals (map (λ l. l.items) lists.now)) }
    ensures memory { IfErr result (λ e. e ≡ OutOfMemory) }
{
    let mut literals = Vec::new(alloc);
    for list in lists {
        append_positive(&mut literals, list)?;
    }
    Ok(literals)
}

/// Appends the positive literals of the variables.
fn append_positive<A: Allocator + Copy>(
    literals: &mut Vec<Literal, A>,
    variables: &[VariableId],
) -> Result<(), StoreError>
    ensures ok { OnOk result (literals.new.items ≡ literals.old.items ++ map Pos variables.now) }
    ensures memory { IfErr result (λ e. e ≡ OutOfMemory) }
{
    literals.reserve(variables.len())?;
    for variable in variables {
        literals.push_reserved(Literal::new(*variable, false));
    }
    Ok(())
}
