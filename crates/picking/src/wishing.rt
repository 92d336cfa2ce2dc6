//! How a search grants wishes: it decides their best alternatives before all else.
//!
//! A search first looks for any solution. A wish whose first alternative is so can't be granted better. At the first
//! other one the search begins anew, keeps what it learnt, and decides the wishes up to that one first, each by its
//! first alternative that isn't false. So where an alternative is false once these are decided, that follows from the
//! alternatives before it that are so. If they are decided as in the last solution, no solution is better by them, and
//! the search goes to the next wish; otherwise it goes on to a better solution.
use crate::search::Result;
use crate::search_store::SearchStore;
use resolvo_ids::VariableId;
use std::alloc::Allocator;

/// That a variable has a value.
#[derive(Clone, Copy)]
pub(crate) struct VariableValue {
    pub(crate) variable: VariableId,
    pub(crate) value: bool,
}

impl VariableValue {
    /// Whether the variable has the other value.
    fn is_false<T: SearchStore>(&self, store: &T) -> bool {
        match store.value(self.variable) {
            Some(value) => value != self.value,
            None => false,
        }
    }

    /// Whether it is so in a solution: what has no value there isn't picked.
    fn is_so<T: SearchStore>(&self, store: &T) -> bool {
        (store.value(self.variable) == Some(true)) == self.value
    }
}

/// The wishes of a search.
#[derive(Drop)]
pub(crate) struct Wishes<A: Allocator> {
    /// The alternatives of each.
    lists: Vec<Vec<VariableValue, A>, A>,
    /// How many are decided before all else.
    active: usize,
    /// How many of these are decided already.
    decided: usize,
    /// How many of those whose first alternative isn't so are decided first next time.
    stride: usize,
    /// For each wish how many alternatives came before the first that was so in the last solution.
    ranks: Vec<usize, A>,
    alloc: A,
}

impl<A: Allocator + Copy> Wishes<A> {
    /// No wishes.
    pub(crate) fn new(alloc: A) -> Self {
        Wishes {
            lists: Vec::new(alloc),
            active: 0,
            decided: 0,
            stride: 1,
            ranks: Vec::new(alloc),
            alloc,
        }
    }

    /// Adds a wish.
    pub(crate) fn add(&mut self, alternatives: Vec<VariableValue, A>) -> Result<()> {
        self.lists.push(alternatives)?;
        Ok(())
    }

    /// Whether none is left to decide.
    pub(crate) fn are_decided(&self) -> bool {
        self.decided >= self.active
    }

    /// Some may have to be decided anew, since the search backjumped.
    pub(crate) fn begin_anew(&mut self) {
        self.decided = 0;
    }

    /// The next alternative to decide: of the first wish that isn't decided the first alternative that isn't false.
    pub(crate) fn next<T: SearchStore>(&mut self, store: &T) -> Option<VariableValue> {
        for place in self.decided..self.active {
            if let Some(alternative) = self.first_left(store, place) {
                if store.value(alternative.variable).is_none() {
                    return Some(alternative);
                }
            }
            self.decided = place.saturating_add(1);
        }
        None
    }

    /// The first alternative of a wish that isn't false.
    fn first_left<T: SearchStore>(&self, store: &T, place: usize) -> Option<VariableValue> {
        for alternative in self.lists.get(place)? {
            if !alternative.is_false(store) {
                return Some(*alternative);
            }
        }
        None
    }

    /// The first alternative of a wish that is so in a solution.
    pub(crate) fn granted<T: SearchStore>(&self, store: &T, place: usize) -> Option<VariableValue> {
        for alternative in self.lists.get(place)? {
            if alternative.is_so(store) {
                return Some(*alternative);
            }
        }
        None
    }

    /// How many alternatives of a wish come before that one; all, if none is so.
    fn rank<T: SearchStore>(&self, store: &T, place: usize) -> usize {
        let mut rank = 0usize;
        if let Some(list) = self.lists.get(place) {
            for alternative in list {
                if alternative.is_so(store) {
                    break;
                }
                rank = rank.saturating_add(1);
            }
        }
        rank
    }

    /// The alternatives of a wish that are false, up to the first that isn't.
    pub(crate) fn false_ones<T: SearchStore>(&self, store: &T, place: usize) -> &[VariableValue] {
        let Some(list) = self.lists.get(place) else {
            return &[];
        };
        for index in 0..list.len() {
            if let Some(alternative) = list.get(index) {
                if !alternative.is_false(store) {
                    return &list[..index];
                }
            }
        }
        list.as_slice()
    }

    /// Notes the ranks of a solution.
    pub(crate) fn note<T: SearchStore>(&mut self, store: &T) -> Result<()> {
        self.ranks.clear();
        for place in 0..self.lists.len() {
            let rank = self.rank(store, place);
            self.ranks.push(rank)?;
        }
        Ok(())
    }

    /// Whether the wishes that are decided first are decided as in the last solution.
    pub(crate) fn are_as_noted<T: SearchStore>(&self, store: &T) -> bool {
        for place in 0..self.active {
            if self.ranks.get(place) != Some(&self.false_ones(store, place).len()) {
                return false;
            }
        }
        true
    }

    /// Lets more wishes be decided first: up to the next ones whose first alternative isn't so in the last solution, as
    /// many of these as `stride` says, and twice as many the next time. Answers whether there is such a wish.
    pub(crate) fn activate(&mut self) -> bool {
        let before = self.active;
        let mut left = self.stride;
        for place in before..self.ranks.len() {
            if left == 0 {
                break;
            }
            if self.ranks.get(place) != Some(&0) {
                self.active = place.saturating_add(1);
                left = left.saturating_sub(1);
            }
        }
        self.stride = self.stride.saturating_mul(2);
        self.active > before
    }

    /// How many there are.
    pub(crate) fn len(&self) -> usize {
        self.lists.len()
    }
}
