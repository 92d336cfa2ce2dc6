//! The registered clauses, and who finds them.
ghost use Rattle.std.specs.Prelude.{◌≡◌, ◌<◌, ◌^◌, length, slice_get, option_map, MatchOption, IfSome, OnOk, IfOk};
ghost use Rattle.std.specs.Prelude.{IfErr};
ghost use Rattle.typed_ids.specs.declared.error.StoreError.TheVariants.{OutOfMemory};
ghost use Rattle.resolvo_queue.specs.Types.{SameValues};
ghost use Rattle.resolvo_queue.specs.Rows.ByVariable.{list_at};
ghost use Rattle.resolvo_queue.specs.Parts.{FoundByAll, GainsNumber, KeepsItems};
ghost use Rattle.resolvo_queue.specs.Parts.UnderConditions.{newest_at, Renews};
ghost use Rattle.resolvo_queue.specs.declared.group.Group.TheVariants.{OfParent};

use crate::group::Group;
use crate::lists_by_variable::ListsByVariable;
use crate::tracked_clause::{Position, TrackedClause};
use decisions::Literal;
use std::alloc::Allocator;
use typed_ids::{DenseIndex, DisjunctionId, StoreError, VariableId};

/// The clauses in the order of registration, their numbers by parent, the newest ones by condition, and the conditions
/// by the variables of their literals. A condition is named by the index of its disjunction.
#[derive(Drop)]
pub(crate) struct ClauseIndex<A: Allocator + Copy> {
    pub(crate) clauses: Vec<TrackedClause, A>,
    pub(crate) by_parent: ListsByVariable<u32, A>,
    /// One more than the number of the newest clause under each condition. 0 is none, as past the end.
    pub(crate) newest_under: Vec<u32, A>,
    pub(crate) conditions: ListsByVariable<u32, A>,
}

impl<A: Allocator + Copy> ClauseIndex<A> {
    /// Where the next clause stands in the scan if it has this parent: behind the parent's first clause, or it is that.
    pub(crate) fn next_position(&self, parent: VariableId) -> Position
        requires { length self.now.clauses.items < 2 ^ 32 }
        ensures number { result.number ≡ length self.now.clauses.items }
        ensures first { MatchOption (slice_get (list_at self.now.by_parent parent) 0)
            (result.first_of_parent ≡ length self.now.clauses.items) (λ f. result.first_of_parent ≡ f) }
    {
        let number = self.clauses.len() as u32;
        let first_of_parent = match self.by_parent.at(parent).first() {
            Some(first) => *first,
            None => number,
        };
        Position {
            first_of_parent,
            number,
        }
    }

    /// The clauses of a parent, if it has any.
    pub(crate) fn group_of(&self, parent: VariableId) -> Option<Group>
        ensures { result ≡ option_map OfParent (slice_get (list_at self.now.by_parent parent) 0) }
    {
        match self.by_parent.at(parent).first() {
            Some(first) => Some(Group::OfParent(*first)),
            None => None,
        }
    }

    /// One more than the number of the newest clause under a condition, 0 if there is none.
    pub(crate) fn newest(&self, disjunction: u32) -> u32
        ensures { result ≡ newest_at self.now.newest_under.items disjunction }
    {
        match self.newest_under.get(disjunction as usize) {
            Some(newest) => *newest,
            None => 0,
        }
    }
}

/// Makes room for a clause that comes under its condition, if it has one. The first clause's condition is put to the
/// variables of its literals. The answer is one more than the number of the newest clause under it, 0 if there is none.
/// Refused, some of the variables may have the condition.
pub(crate) fn enter_condition<A: Allocator + Copy>(
    newest_under: &mut Vec<u32, A>,
    conditions: &mut ListsByVariable<u32, A>,
    condition: Option<DisjunctionId>,
    literals: &[Literal],
) -> Result<u32, StoreError>
    ensures same { SameValues (newest_at newest_under.old.items) (newest_at newest_under.new.items) }
    ensures room { OnOk result (IfSome condition (λ d. d < length newest_under.new.items)) }
    ensures kept { KeepsItems conditions.old conditions.new }
    ensures newest { IfOk result (λ newest. IfSome condition (λ d. newest ≡ newest_at newest_under.old.items d)) }
    ensures found { IfOk result (λ newest. IfSome condition (λ d. newest ≡ 0 →
        FoundByAll d literals.now conditions.new)) }
    ensures memory { IfErr result (λ e. e ≡ OutOfMemory) }
{
    let Some(disjunction) = condition else {
        return Ok(0);
    };
    let index = disjunction.to_index();
    if index >= newest_under.len() {
        newest_under.resize(index + 1, 0)?;
    }
    let newest = newest_under[index];
    if newest == 0 {
        add_to_conditions(conditions, literals, index as u32)?;
    }
    Ok(newest)
}

/// Makes a clause the newest under its condition, if it has one: `newest` is one more than its number.
pub(crate) fn renew_newest<A: Allocator + Copy>(
    newest_under: &mut Vec<u32, A>,
    condition: Option<DisjunctionId>,
    newest: u32,
)
    requires { IfSome condition (λ d. d < length newest_under.old.items) }
    ensures { Renews condition newest newest_under.old.items newest_under.new.items }
{
    if let Some(disjunction) = condition {
        newest_under[disjunction.to_index()] = newest;
    }
}

/// Puts a condition to the variables of its literals. Refused, some of them may have it.
fn add_to_conditions<A: Allocator + Copy>(
    conditions: &mut ListsByVariable<u32, A>,
    literals: &[Literal],
    disjunction: u32,
) -> Result<(), StoreError>
    ensures grows { GainsNumber disjunction conditions.old conditions.new }
    ensures all { OnOk result (FoundByAll disjunction literals.now conditions.new) }
    ensures memory { IfErr result (λ e. e ≡ OutOfMemory) }
{
    for literal in literals {
        conditions.push(literal.variable(), disjunction)?;
    }
    Ok(())
}
