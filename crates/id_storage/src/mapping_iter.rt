//! The walk through the ids and values of a map.
ghost use Rattle.std.specs.Prelude.{◌≡◌};
ghost use Rattle.std.specs.Iterator.{YieldsFirstBy, item_count};
ghost use Rattle.id_storage.specs.Mapping.{IsTail, pairs};

use std::iter::FusedIterator;
use std::marker::{Model, PhantomData};
use typed_ids::DenseIndex;

/// The ids and values of a [`Mapping`](crate::Mapping), in the order of the ids' indexes. A contract sees the list of
/// those that are left.
///
/// A walk takes time with the slots, filled or not. Nothing comes after its end.
#[derive(Drop)]
pub struct MappingIter<'a, TId: DenseIndex, V> {
    /// The slots that are left.
    slots: &'a [Option<V>],
    /// The index of the first of them.
    index: usize,
    ids: PhantomData<TId>,
}

impl<'a, TId: DenseIndex, V> Model for MappingIter<'a, TId, V> {
    ghost use Rattle.std.specs.Prelude.{List};

    ghost Value = { List (TId × V) };

    ghost use Rattle.id_storage.specs.Mapping.{pairs_from, IsTail};

    ghost view = { λ it. pairs_from TId.id_at it.index it.slots.now };

    ghost invariant = { λ it. IsTail TId.limit it.index it.slots.now };
}

impl<'a, TId: DenseIndex, V> MappingIter<'a, TId, V> {
    /// An iterator over all of a map's slots.
    pub(crate) fn new(slots: &'a [Option<V>]) -> Self
        requires { IsTail TId.limit 0 slots.now }
        ensures { result ≡ pairs TId.id_at slots.now }
    {
        MappingIter {
            slots,
            index: 0,
            ids: PhantomData,
        }
    }
}

impl<'a, TId: DenseIndex, V> Iterator for MappingIter<'a, TId, V> {
    type Item = (TId, &'a V);

    ghost next_gives = { YieldsFirstBy (λ pair. (pair.0, pair.1.now)) (λ rest. rest) };

    ghost remaining = { item_count (λ rest. rest) };

    fn next(&mut self) -> Option<(TId, &'a V)> {
        while let Some((slot, rest)) = self.slots.split_first() {
            let index = self.index;
            self.slots = rest;
            self.index += 1;
            if let Some(value) = slot {
                return Some((TId::from_index(index), value));
            }
        }
        None
    }
}

impl<'a, TId: DenseIndex, V> FusedIterator for MappingIter<'a, TId, V> {}
