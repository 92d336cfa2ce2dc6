//! How good what is picked is, by wishes.
ghost use Rattle.std.specs.Prelude.{◌≡◌, map, IfOk};
ghost use Rattle.solutions.specs.Selections.{is_kept, is_so_by, rank_by};
ghost use Rattle.solutions.specs.Wishes.{alternatives_of, rank};

use crate::selection::Selection;
use crate::solution::select;
use crate::wish::{Alternative, Wish};
use resolvo_ids::StoreError;
use resolvo_pool::{DependencyProvider, ProviderFunctions};

/// For each wish the place of its first alternative that is so of what is picked; if none is, how many it has. Each
/// wish is read up to there.
pub fn ranks<D: DependencyProvider>(
    alloc: D::Alloc,
    provider: &D,
    wishes: &[Wish<D::SolvableId, D::Alloc>],
    picked: &[D::SolvableId],
) -> Result<Vec<usize, D::Alloc>, StoreError>
    ensures { IfOk result (λ ranks. ranks.items ≡
        map (rank (⟦<D as ProviderFunctions>⟧.functions provider.now) picked.now) (alternatives_of wishes.now)) }
{
    let selection = select(alloc, provider, picked)?;
    ranks_by(&selection, wishes)
}

/// The wishes' ranks by a selection.
pub(crate) fn ranks_by<D: DependencyProvider>(
    selection: &Selection<D>,
    wishes: &[Wish<D::SolvableId, D::Alloc>],
) -> Result<Vec<usize, D::Alloc>, StoreError>
    ensures { IfOk result (λ ranks. ranks.items ≡ map (rank_by
        (is_kept D.SolvableId.eq (D.SolvableId.Set.has selection.now.picked) selection.now.left_out))
        (alternatives_of wishes.now)) }
{
    let mut ranks = Vec::new(selection.alloc);
    for wish in wishes {
        ranks.push(rank(selection, &wish.alternatives))?;
    }
    Ok(ranks)
}

/// The place of the first alternative that is so; if none is, how many there are.
fn rank<D: DependencyProvider>(
    selection: &Selection<D>,
    alternatives: &[Alternative<D::SolvableId>],
) -> usize
    ensures { result ≡ rank_by
        (is_kept D.SolvableId.eq (D.SolvableId.Set.has selection.now.picked) selection.now.left_out)
        alternatives.now }
{
    for (place, alternative) in alternatives.iter().enumerate() {
        if is_so(selection, alternative) {
            return place;
        }
    }
    alternatives.len()
}

/// Whether an alternative is so.
fn is_so<D: DependencyProvider>(
    selection: &Selection<D>,
    alternative: &Alternative<D::SolvableId>,
) -> bool
    ensures { result ≡ is_so_by
        (is_kept D.SolvableId.eq (D.SolvableId.Set.has selection.now.picked) selection.now.left_out)
        alternative.now }
{
    selection.picks(alternative.solvable) == alternative.is_picked
}
