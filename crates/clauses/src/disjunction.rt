//! Disjunctions: a requires clause under one counts only if all of its literals are false.
use decisions::Literal;
use std::alloc::Allocator;
use typed_ids::ConditionId;

/// The literals of which one is true exactly where a part of a condition isn't met, and the condition.
#[derive(Drop)]
#[derive_where(Debug)]
pub struct Disjunction<A: Allocator> {
    /// The literals.
    pub literals: Vec<Literal, A>,
    /// The condition that they come of.
    pub condition: ConditionId,
}
