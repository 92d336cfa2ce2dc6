//! Lists by variables.
//!
//! Most variables are candidates of a requirement or two. A vector of so few items takes more memory for where they lie
//! than for them, and an allocation beside: so a list holds its first items in itself.
ghost use Rattle.std.specs.Prelude.{◌≡◌, ◌<◌, [], ◌∷◌, ◌++◌, length, OnOk, OnErr, IfErr};
ghost use Rattle.resolvo_queue.specs.Types.{IsUpdate, OutOfMemory, SameValues};
ghost use Rattle.resolvo_queue.specs.Rows.ByVariable.{list_at};

use smallvec::SmallVec;
use std::alloc::Allocator;
use std::default::MadeWith;
use std::marker::Model;
use std::mem::ManuallyDrop;
use typed_ids::{DenseIndex, StoreError, VariableId, fits_in_memory, type_fits};

/// How many items of a variable lie in the list itself. A list takes 32 bytes with two requirements or two numbers in
/// place. A vector takes 24, and 32 more for its first items.
const IN_PLACE: usize = 2;

/// A total map from variables to lists. It grows to the index of the largest variable that has an item. Up to two items
/// of a variable lie in place, more in memory of their own.
///
/// Whoever makes, reads or drops a `SmallVec` owes that its type fits in memory, and the allocator's type is open here.
/// [`fits_in_memory`] and [`type_fits`] tell it; so nobody who has such a map owes it.
pub(crate) struct ListsByVariable<T, A: Allocator + Copy> {
    lists: Vec<ManuallyDrop<SmallVec<T, IN_PLACE, A>>, A>,
}

impl<T: Drop, A: Allocator + Copy> Drop for ListsByVariable<T, A> {
    fn drop(self) {
        let ListsByVariable { lists } = self;
        for list in lists {
            if fits_in_memory::<[T; IN_PLACE]>() && fits_in_memory::<SmallVec<T, IN_PLACE, A>>() {
                let _let_go = ManuallyDrop::into_inner(list);
            }
        }
    }
}

impl<T, A: Allocator + Copy> Model for ListsByVariable<T, A> {
    ghost use Rattle.std.specs.Prelude.{List, map};

    ghost Value = { List (List T) };

    ghost use Rattle.resolvo_queue.specs.Rows.ByVariable.{items_in};

    ghost view = { λ m. map items_in m.lists.items };
}

impl<T: MadeWith<A> + Copy, A: Allocator + Copy> ListsByVariable<T, A> {
    /// The map of empty lists. Takes no memory.
    pub(crate) fn new(alloc: A) -> Self
        ensures { result ≡ [] }
    {
        ListsByVariable {
            lists: Vec::new(alloc),
        }
    }

    /// The variable's list.
    pub(crate) fn at(&self, variable: VariableId) -> &[T]
        ensures { result.now ≡ list_at self.now variable }
    {
        let index = variable.to_index();
        if index < self.lists.len() {
            type_fits(self.lists.as_slice());
            self.lists[index].as_slice()
        } else {
            &[]
        }
    }

    /// Puts an item at the end of the variable's list.
    pub(crate) fn push(&mut self, variable: VariableId, item: T) -> Result<(), StoreError>
        ensures ok { OnOk result (IsUpdate (list_at self.old) variable (list_at self.old variable ++ item ∷ [])
            (list_at self.new)) }
        ensures err { OnErr result (SameValues (list_at self.old) (list_at self.new)) }
        ensures memory { IfErr result (λ e. e ≡ OutOfMemory) }
    {
        let index = variable.to_index();
        self.reach(index)?;
        type_fits(self.lists.as_slice());
        match self.lists[index].push(item) {
            Ok(()) => Ok(()),
            Err(_) => Err(StoreError::OutOfMemory),
        }
    }

    /// Grows the lists by empty ones until there is one at the index. A refusal may leave some of those.
    fn reach(&mut self, index: usize) -> Result<(), StoreError>
        ensures same { SameValues (list_at self.old) (list_at self.new) }
        ensures reached { OnOk result (index < length self.new) }
        ensures memory { IfErr result (λ e. e ≡ OutOfMemory) }
    {
        if !fits_in_memory::<SmallVec<T, IN_PLACE, A>>() {
            return Err(StoreError::OutOfMemory);
        }
        let alloc = *self.lists.allocator();
        while self.lists.len() <= index {
            match self.lists.push(ManuallyDrop::new(SmallVec::new(alloc))) {
                Ok(()) => {}
                Err(_) => return Err(StoreError::OutOfMemory),
            }
        }
        Ok(())
    }
}
