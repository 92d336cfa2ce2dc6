//! Clauses found by the names of their packages.
//!
//! The entries of all names lie in one vector, and each leads to the one before it under its name. So a name takes no
//! memory of its own, and a clause takes the same for each of its names.
ghost use Rattle.std.specs.Prelude.{◌≡◌, ◌<◌, Some, None, slice_get, IsTrue, IfSome, OnOk, IfErr};
ghost use Rattle.resolvo_queue.specs.Types.{OutOfMemory};
ghost use Rattle.resolvo_queue.specs.Parts.ByName.{IsEntered, IsFrom, KeepsNumbers, StandsUnder};
ghost use Rattle.resolvo_queue.specs.Members.{Stands};

use id_maps::{IdMap, Slot, SolverId};
use std::alloc::Allocator;
use std::marker::Model;
use typed_ids::StoreError;

/// The number of a clause, and the place of the entry before it under the same name, if there is one.
#[derive(Clone, Copy)]
pub(crate) struct NameEntry {
    pub(crate) number: u32,
    pub(crate) earlier: Option<u32>,
}

/// For each name the numbers of the clauses that have it. A name that no map can hold has none.
#[derive(Drop)]
pub(crate) struct ClausesByName<N: SolverId<A>, A: Allocator + Copy> {
    /// Where each name's newest entry stands.
    newest: N::Slots,
    entries: Vec<NameEntry, A>,
}

impl<N: SolverId<A>, A: Allocator + Copy> Model for ClausesByName<N, A> {
    ghost use Rattle.resolvo_queue.specs.Parts.ByName.{AreBehind, ByName, HaveEntries};

    ghost Value = { ByName N.Slots };

    ghost view = { λ b. record { newest = b.newest; entries = b.entries.items } };

    ghost invariant = { λ b. HaveEntries (N.Slots.value_at b.newest) b.entries.items × AreBehind b.entries.items };
}

impl<N: SolverId<A>, A: Allocator + Copy> ClausesByName<N, A> {
    /// No numbers. Takes no memory.
    pub(crate) fn new(alloc: A) -> Self
        ensures { (name : N) → N.Slots.value_at result.newest name ≡ None }
    {
        ClausesByName {
            newest: <N::Slots as IdMap<N, Slot, A>>::new(alloc),
            entries: Vec::new(alloc),
        }
    }

    /// The place of the name's newest entry, if it has one: one look-up.
    pub(crate) fn newest(&self, name: N) -> Option<u32>
        ensures place { result ≡ N.Slots.value_at self.now.newest name }
        ensures too_large { IsTrue (N.Slots.is_too_large name) → result ≡ None }
    {
        self.newest.get(name).number()
    }

    /// The entry at a place, if there is one.
    pub(crate) fn entry(&self, place: u32) -> Option<NameEntry>
        ensures entry { result ≡ slice_get self.now.entries place }
        ensures behind { IfSome result (λ e. IfSome e.earlier (λ earlier. earlier < place)) }
    {
        match self.entries.get(place as usize) {
            Some(entry) => Some(*entry),
            None => None,
        }
    }

    /// Puts a number under each of some names: one look-up for each. Refused, it may stand under some of them.
    pub(crate) fn enter(&mut self, names: &[N], number: u32) -> Result<(), StoreError>
        ensures kept { KeepsNumbers (StandsUnder N.Slots.value_at self.old) (StandsUnder N.Slots.value_at self.new) }
        ensures entered { OnOk result ((name : N) → Stands name names.now →
            IsEntered N.Slots.is_too_large (StandsUnder N.Slots.value_at self.new) number name) }
        ensures memory { IfErr result (λ e. e ≡ OutOfMemory) }
    {
        for name in names {
            self.put(*name, number)?;
        }
        Ok(())
    }

    /// Puts a number under a name, unless it is the newest there: a clause may have a name more than once. There is no
    /// room for more than 2^32 entries.
    fn put(&mut self, name: N, number: u32) -> Result<(), StoreError>
        ensures kept { KeepsNumbers (StandsUnder N.Slots.value_at self.old) (StandsUnder N.Slots.value_at self.new) }
        ensures entered { OnOk result (IsEntered N.Slots.is_too_large (StandsUnder N.Slots.value_at self.new) number
            name) }
        ensures memory { IfErr result (λ e. e ≡ OutOfMemory) }
    {
        let earlier = self.newest(name);
        if self.has_at(earlier, number) {
            return Ok(());
        }
        let place = self.entries.len();
        if place > u32::MAX as usize {
            return Err(StoreError::OutOfMemory);
        }
        self.entries.reserve(1)?;
        match self.newest.set(name, Slot::new(Some(place as u32))) {
            Ok(()) => {}
            Err(StoreError::IdSpace) => return Ok(()),
            Err(_) => return Err(StoreError::OutOfMemory),
        }
        self.entries.push_reserved(NameEntry { number, earlier });
        Ok(())
    }

    /// Whether there is a place, and its entry has the number.
    fn has_at(&self, place: Option<u32>, number: u32) -> bool
        ensures { IsTrue result → IsFrom self.now.entries number place }
    {
        match place {
            Some(place) => match self.entry(place) {
                Some(entry) => entry.number == number,
                None => false,
            },
            None => false,
        }
    }
}
