//! Which places lead to which.
ghost use Rattle.std.specs.Prelude.{◌≡◌, map};
ghost use Rattle.report_trees.specs.Forests.{has_edge};

use std::alloc::Allocator;

/// Whether one place leads to another.
pub(crate) fn has_edge<A: Allocator>(edges: &[Vec<bool, A>], from: usize, to: usize) -> bool
    ensures { result ≡ has_edge (map (λ row. row.items) edges.now) from to }
{
    let Some(row) = edges.get(from) else {
        return false;
    };
    match row.get(to) {
        Some(leads) => *leads,
        None => false,
    }
}
