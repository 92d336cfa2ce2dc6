//! What a request wishes of its solution.
use resolvo_pool::ConditionalRequirement;
use std::alloc::Allocator;

/// What may be so of a solution: that a solvable is picked, or that it isn't.
#[derive(Clone, Copy, Debug)]
pub struct Alternative<S> {
    pub solvable: S,
    pub is_picked: bool,
}

/// A wish: alternatives, the best first. By a wish a solution is as good as the first alternative that is so of it.
#[derive(Debug, Drop)]
pub struct Wish<S, A: Allocator> {
    pub alternatives: Vec<Alternative<S>, A>,
}

/// What is requested, and what is wished beside that. A wish counts for more than all that come after it.
#[derive(Clone, Copy)]
pub struct Request<'r, S, A: Allocator> {
    pub requirements: &'r [ConditionalRequirement],
    pub wishes: &'r [Wish<S, A>],
}
