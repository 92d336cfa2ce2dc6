//! The pairs of an arena, one after another.
ghost use Rattle.std.specs.Prelude.{◌≡◌, ◌≤◌, ◌^◌, length, min};
ghost use Rattle.std.specs.Iterator.{YieldsFirstBy, item_count};

use std::iter::FusedIterator;
use std::marker::{Model, PhantomData};
use typed_ids::DenseIndex;

/// The ids of an [`Arena`](crate::Arena) with their values, in the order of the ids: seen as the list of the pairs that
/// are left.
#[derive(Drop)]
pub struct ArenaIter<'a, TId: DenseIndex, V> {
    values: &'a [V],
    /// The place of the first value that is left.
    index: usize,
    ids: PhantomData<TId>,
}

impl<'a, TId: DenseIndex, V> Model for ArenaIter<'a, TId, V> {
    ghost use Rattle.std.specs.Prelude.{List, ◌≤◌, ◌+◌, ◌^◌, length, min};
    ghost use Rattle.id_storage.specs.Arena.{pairs_from};

    ghost Value = { List (TId × V) };

    ghost view = { λ a. pairs_from TId.id_at a.index a.values.now };

    ghost invariant = { λ a. a.index + length a.values.now ≤ min TId.limit (2 ^ 40) };
}

impl<'a, TId: DenseIndex, V> ArenaIter<'a, TId, V> {
    ghost use Rattle.id_storage.specs.Arena.{pairs_from};

    /// The pairs of these values, the first of which is that of the first id.
    pub(crate) fn new(values: &'a [V]) -> Self
        requires { length values.now ≤ min TId.limit (2 ^ 40) }
        ensures { result ≡ pairs_from TId.id_at 0 values.now }
    {
        ArenaIter {
            values,
            index: 0,
            ids: PhantomData,
        }
    }
}

impl<'a, TId: DenseIndex, V> Iterator for ArenaIter<'a, TId, V> {
    type Item = (TId, &'a V);

    ghost next_gives = { YieldsFirstBy (λ pair. (pair.0, pair.1.now)) (λ left. left) };

    ghost remaining = { item_count (λ left. left) };

    fn next(&mut self) -> Option<(TId, &'a V)> {
        let (value, others) = self.values.split_first()?;
        let id = TId::from_index(self.index);
        self.values = others;
        self.index += 1;
        Some((id, value))
    }
}

impl<'a, TId: DenseIndex, V> FusedIterator for ArenaIter<'a, TId, V> {}
