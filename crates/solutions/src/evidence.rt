//! What a search shows for what it says.
use crate::package_literal::PackageLiteral;
use crate::reason::Reason;
use std::alloc::Allocator;

/// What a search shows, to be replayed: that no solution is better by a wish.
#[derive(Clone, Copy)]
pub struct Evidence<'e, N, S, A: Allocator> {
    /// What the packages and the request say.
    pub reasons: &'e [Reason<N, S>],
    /// Solvables that wishes name, and that their packages don't have.
    pub unlisted: &'e [S],
    /// Learnt clauses. One literal of such a clause is true in each solution: it follows by unit propagation from the
    /// reasons, and from the clauses before it.
    pub learnt: &'e [Vec<PackageLiteral<S>, A>],
}
