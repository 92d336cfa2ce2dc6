//! Requirements by the variables of their rows.
ghost use Rattle.std.specs.Prelude.{◌≡◌, IfOk};
ghost use Rattle.providers.specs.declared.requirement.Requirement.TheVariants.{Single};
ghost use Rattle.resolvo_queue.specs.References.{IsWalkable};
ghost use Rattle.test_parts.specs.OnePackage.{all_known};

use crate::each_request::decided::variable;
use crate::each_request::takes_none;
use crate::texts::OnePackage;
use decisions::DecisionMap;
use providers::{Requirement, RequirementMap};
use resolvo_queue::{Occurrences, RowReader};
use std::alloc::Allocator;
use test_support::Refusing;
use typed_ids::{StoreError, VariableId, VersionSetId};

/// The lists by which clauses find their candidates.
type Rows<A> = RequirementMap<Vec<Vec<VariableId, A>, A>, A>;

pub(super) fn call_rows<B: Allocator>(heap: &Refusing<B>) -> Result<(), StoreError> {
    call_rows_in(heap, heap)
}

fn call_rows_in<A: Allocator + Copy, B: Allocator>(
    heap: &Refusing<B>,
    alloc: A,
) -> Result<(), StoreError> {
    let rows = one_row(alloc)?;
    let answer = list_row(heap, alloc, &rows);
    drop(rows);
    answer
}

/// One row for the first version set.
fn one_row<A: Allocator + Copy>(alloc: A) -> Result<Rows<A>, StoreError>
    ensures { IfOk result (λ rows. IsWalkable all_known rows (Single (record { 0 = 0 }))) }
{
    let mut row = Vec::new(alloc);
    row.push(variable(1))?;
    let mut list = Vec::new(alloc);
    list.push(row)?;
    let mut rows = RequirementMap::new(alloc);
    rows.insert(required(), list)?;
    Ok(rows)
}

/// To list the row takes memory; to walk it, and to read what is listed, takes none.
fn list_row<A: Allocator + Copy, B: Allocator>(
    heap: &Refusing<B>,
    alloc: A,
    rows: &Rows<A>,
) -> Result<(), StoreError>
    requires { IsWalkable all_known rows.now (Single (record { 0 = 0 })) }
{
    let map = DecisionMap::new(alloc);
    let mut occurrences = Occurrences::new(alloc);
    let mut reader = RowReader::new(rows);
    let listed = reader.list(required(), &mut occurrences);
    if listed.is_ok() {
        heap.arm(1);
    }
    let _listing = occurrences.listing(variable(1)).len();
    let _frontier = reader.walk(required(), &map, &OnePackage);
    drop(reader);
    drop(occurrences);
    drop(map);
    listed?;
    takes_none(heap)
}

/// The requirement of the first version set.
fn required() -> Requirement
    ensures { result ≡ Single (record { 0 = 0 }) }
{
    Requirement::Single(VersionSetId(0))
}
