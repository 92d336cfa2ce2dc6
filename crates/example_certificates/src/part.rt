//! Parts of a certificate: reasons with their clauses.
use picking::{PackageLiteral, Reason};
use std::alloc::Allocator;

/// Clauses, and what they follow from. Of each clause at least one literal is true.
#[derive(Debug, Drop)]
pub struct Part<N, S, A: Allocator> {
    /// The reason from which they follow; without one, they follow from what their variables stand for.
    pub because: Option<Reason<N, S>>,
    pub clauses: Vec<Vec<PackageLiteral<S>, A>, A>,
}
