//! Conditions, spelled out.
ghost use Rattle.std.specs.Prelude.{◌≡◌, OnOk};
ghost use Rattle.resolvo_pool.specs.Texts.{IsAppended};
ghost use Rattle.reports.specs.ConditionTexts.{closing, opening, text_of_condition, text_of_if, word_of};

use crate::words::write_set;
use resolvo_ids::{ConditionId, StoreError};
use resolvo_pool::{Condition, Interner, LogicalOperator};

type Done = Result<(), StoreError>;

/// How deep a condition is spelled out. What is joined deeper is two dots.
const DEPTH: usize = 200;

/// Appends the condition of a need, if it has one.
pub(crate) fn write_if<I: Interner>(
    interner: &I,
    condition: Option<ConditionId>,
    text: &mut String<I::Alloc>,
) -> Done
    ensures { OnOk result (IsAppended text.old text.new
        (text_of_if (I.universe interner.now) (I.texts interner.now) condition)) }
{
    match condition {
        Some(condition) => {
            text.push_str(" if ")?;
            write_condition(interner, LogicalOperator::Or, condition, DEPTH, text)
        }
        None => Ok(()),
    }
}

/// Appends a condition that is joined by this operator, spelled out to this depth. One of "or" within "and" is in
/// parentheses.
#[tactic(auto, using(crate::proofs::TextLemmas::at_depth, crate::proofs::TextLemmas::too_deep))]
fn write_condition<I: Interner>(
    interner: &I,
    joined_by: LogicalOperator,
    condition: ConditionId,
    depth: usize,
    text: &mut String<I::Alloc>,
) -> Done
    ensures { OnOk result (IsAppended text.old text.new
        (text_of_condition (I.universe interner.now) (I.texts interner.now) depth joined_by condition)) }
{
    if depth == 0 {
        return Ok(text.push_str("..")?);
    }
    if !interner.knows_condition(condition) {
        return Ok(());
    }
    match interner.resolve_condition(condition) {
        Condition::Requirement(set) => write_set(interner, set, text),
        Condition::Binary(operator, left, right) => {
            text.push_str(opening(joined_by, operator))?;
            write_condition(interner, operator, left, depth - 1, text)?;
            text.push_str(word_of(operator))?;
            write_condition(interner, operator, right, depth - 1, text)?;
            Ok(text.push_str(closing(joined_by, operator))?)
        }
    }
}

fn word_of(operator: LogicalOperator) -> &'static str
    ensures { result.now ≡ word_of operator }
{
    match operator {
        LogicalOperator::And => " and ",
        LogicalOperator::Or => " or ",
    }
}

/// What stands before what the second operator joins, within the first one.
fn opening(outer: LogicalOperator, inner: LogicalOperator) -> &'static str
    ensures { result.now ≡ opening outer inner }
{
    match (outer, inner) {
        (LogicalOperator::And, LogicalOperator::Or) => "(",
        _ => "",
    }
}

/// What stands behind it.
fn closing(outer: LogicalOperator, inner: LogicalOperator) -> &'static str
    ensures { result.now ≡ closing outer inner }
{
    match (outer, inner) {
        (LogicalOperator::And, LogicalOperator::Or) => ")",
        _ => "",
    }
}
