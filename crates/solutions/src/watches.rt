//! Watch lists. No contract speaks of them.
use resolvo_ids::StoreError;
use std::alloc::Allocator;

/// A literal that has its fact's number, not the fact.
#[derive(Clone, Copy, PartialEq, Eq)]
pub(crate) struct Sign {
    pub(crate) number: u32,
    pub(crate) value: bool,
}

impl Sign {
    pub(crate) fn opposite(self) -> Sign {
        Sign {
            number: self.number,
            value: !self.value,
        }
    }

    fn index(self) -> usize {
        self.number as usize * 2 + self.value as usize
    }
}

/// Which clauses to visit when a literal becomes false. A clause watches two of its literals. While neither is false,
/// it can't propagate.
#[derive(Drop)]
pub(crate) struct Watches<A: Allocator + Copy> {
    /// For each literal the places of the clauses that watch it.
    lists: Vec<Vec<usize, A>, A>,
    /// For each clause the two literals that it watches, if any.
    pairs: Vec<Option<(Sign, Sign)>, A>,
    alloc: A,
}

/// A place in the list of a literal.
#[derive(Clone, Copy)]
pub(crate) struct Cursor {
    pub(crate) sign: Sign,
    index: usize,
}

impl Cursor {
    pub(crate) fn new(sign: Sign) -> Self {
        Cursor { sign, index: 0 }
    }

    pub(crate) fn advance(&mut self) {
        self.index = self.index.saturating_add(1);
    }
}

impl<A: Allocator + Copy> Watches<A> {
    pub(crate) fn new(alloc: A) -> Self {
        Watches {
            lists: Vec::new(alloc),
            pairs: Vec::new(alloc),
            alloc,
        }
    }

    /// Lets the next clause watch two literals, or none.
    pub(crate) fn add(&mut self, pair: Option<(Sign, Sign)>) -> Result<(), StoreError> {
        let place = self.pairs.len();
        self.pairs.push(pair)?;
        let Some((first, second)) = pair else {
            return Ok(());
        };
        self.put(first, place)?;
        self.put(second, place)
    }

    fn put(&mut self, sign: Sign, place: usize) -> Result<(), StoreError> {
        for _ in self.lists.len()..sign.index().saturating_add(1) {
            self.lists.push(Vec::new(self.alloc))?;
        }
        if let Some(list) = self.lists.get_mut(sign.index()) {
            list.push(place)?;
        }
        Ok(())
    }

    /// The place of the clause at the cursor.
    pub(crate) fn get(&self, cursor: &Cursor) -> Option<usize> {
        let list = self.lists.get(cursor.sign.index())?;
        list.get(cursor.index).copied()
    }

    /// The other literal that a clause watches.
    pub(crate) fn other(&self, place: usize, sign: Sign) -> Option<Sign> {
        match self.pairs.get(place) {
            Some(Some((first, second))) if *first == sign => Some(*second),
            Some(Some((first, _))) => Some(*first),
            _ => None,
        }
    }

    /// Lets the clause at the cursor watch another literal instead.
    pub(crate) fn change(
        &mut self,
        cursor: &Cursor,
        place: usize,
        kept: Sign,
        sign: Sign,
    ) -> Result<(), StoreError> {
        self.put(sign, place)?;
        if let Some(pair) = self.pairs.get_mut(place) {
            *pair = Some((kept, sign));
        }
        if let Some(list) = self.lists.get_mut(cursor.sign.index()) {
            if cursor.index < list.len() {
                list.swap_remove(cursor.index);
            }
        }
        Ok(())
    }
}
