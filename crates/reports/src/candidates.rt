//! The candidates of a package.
ghost use Rattle.std.specs.Prelude.{◌≡◌, true, All, IfOk};

use resolvo_ids::StoreError;
use resolvo_pool::{DependencyProvider, Interner};
use std::alloc::Allocator;

/// The candidates of a package, which are known; none, if there is no package.
pub(crate) fn candidates_of<P: DependencyProvider>(
    alloc: P::Alloc,
    provider: &P,
    name: P::NameId,
) -> Result<Vec<P::SolvableId, P::Alloc>, StoreError>
    ensures are { IfOk result (λ found. found.items ≡ (P.answers provider.now).candidates name) }
    ensures known { IfOk result (λ found. All (λ s. (P.universe provider.now).knows_solvable s ≡ true) found.items) }
{
    match provider.get_candidates(alloc, name)? {
        Some(found) => listed(alloc, &found.candidates),
        None => Ok(Vec::new(alloc)),
    }
}

/// A list of these.
fn listed<S: Copy, A: Allocator>(alloc: A, solvables: &[S]) -> Result<Vec<S, A>, StoreError>
    ensures { IfOk result (λ list. list.items ≡ solvables.now) }
{
    let mut list = Vec::new(alloc);
    list.extend_from_slice(solvables)?;
    Ok(list)
}
