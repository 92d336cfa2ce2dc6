//! How a search counts conflicts: scores of packages, and when it restarts.
use resolvo_ids::{IdMap, Slot, SolverId, StoreError};
use std::alloc::Allocator;

/// After this many conflicts a search restarts from time to time, and decides by scores alone every other time.
const PATIENCE: u64 = 300;

/// A restart comes after this many conflicts at least.
const UNIT: u64 = 100;

/// The store's scores are halved each time after this many conflicts.
const PERIOD: u64 = 8;

/// A conflict counts for one more step for each time that this many came before it: each left a learnt clause, and
/// propagation takes longer with more of them.
const CONFLICTS_PER_STEP: u64 = 4096;

/// When the gain is above this, all scores are scaled down.
const TOP: u64 = 1 << 56;

/// The divisor by which they are scaled down.
const SHARE: u64 = 1 << 40;

/// Each package's activity: how often conflicts had a version of it, recent ones counted most.
#[derive(Drop)]
pub(crate) struct Scores<N: SolverId<A>, A: Allocator + Copy> {
    numbers: N::Slots,
    scores: Vec<u64, A>,
    gain: u64,
}

impl<N: SolverId<A>, A: Allocator + Copy> Scores<N, A> {
    pub(crate) fn new(alloc: A) -> Self {
        Scores {
            numbers: <N::Slots as IdMap<N, Slot, A>>::new(alloc),
            scores: Vec::new(alloc),
            gain: 1 << 16,
        }
    }

    pub(crate) fn get(&self, name: N) -> u64 {
        match self.numbers.get(name).number() {
            Some(number) => match self.scores.as_slice().get(number as usize) {
                Some(score) => *score,
                None => 0,
            },
            None => 0,
        }
    }

    /// Raises a package's score.
    pub(crate) fn raise(&mut self, name: N) -> Result<(), StoreError> {
        let number = self.number(name)?;
        if let Some(score) = self.scores.as_mut_slice().get_mut(number as usize) {
            *score = score.saturating_add(self.gain);
        }
        Ok(())
    }

    /// The number of a package.
    fn number(&mut self, name: N) -> Result<u32, StoreError> {
        if let Some(number) = self.numbers.get(name).number() {
            return Ok(number);
        }
        let Ok(number) = u32::try_from(self.scores.len()) else {
            return Err(StoreError::IdSpace);
        };
        self.scores.push(0)?;
        self.numbers.set(name, Slot::new(Some(number)))?;
        Ok(number)
    }

    /// Raises the gain, so that later conflicts count for more.
    pub(crate) fn age(&mut self) {
        self.gain = self.gain.saturating_add(self.gain / 16);
        if self.gain > TOP {
            self.gain /= SHARE;
            for score in &mut self.scores {
                *score /= SHARE;
            }
        }
    }
}

/// How many conflicts there were, and when the search restarts: after intervals of Luby's lengths, 1 1 2 1 1 2 4 1 ..
#[derive(Clone, Copy)]
pub(crate) struct Pace {
    conflicts: u64,
    /// For how many steps the conflicts count beside their own.
    extra_steps: u64,
    /// At how many conflicts it restarts.
    next: u64,
    turn: u64,
    length: u64,
    is_by_score: bool,
}

impl Pace {
    pub(crate) fn new() -> Self {
        Pace {
            conflicts: 0,
            extra_steps: 0,
            next: PATIENCE,
            turn: 1,
            length: 1,
            is_by_score: false,
        }
    }

    /// Counts a conflict. Answers whether the store's scores are to be halved.
    pub(crate) fn count(&mut self) -> bool {
        self.conflicts = self.conflicts.saturating_add(1);
        let extra = self.conflicts / CONFLICTS_PER_STEP;
        self.extra_steps = self.extra_steps.saturating_add(extra);
        self.conflicts % PERIOD == 0
    }

    /// For how many steps the conflicts count beside their own.
    pub(crate) fn extra_steps(&self) -> u64 {
        self.extra_steps
    }

    /// Whether the store picks the next decision: unless the search decides by scores alone, or a restart is due.
    pub(crate) fn is_by_store(&self) -> bool {
        !self.is_by_score && self.conflicts < self.next
    }

    /// Whether a restart is due; it counts as done then.
    pub(crate) fn is_over(&mut self) -> bool {
        if self.conflicts < self.next {
            return false;
        }
        self.next = self
            .conflicts
            .saturating_add(UNIT.saturating_mul(self.length));
        self.is_by_score = !self.is_by_score;
        let below_lowest_bit = (self.turn ^ self.turn.saturating_sub(1)) / 2;
        if below_lowest_bit.saturating_add(1) == self.length {
            self.turn = self.turn.saturating_add(1);
            self.length = 1;
        } else {
            self.length = self.length.saturating_mul(2);
        }
        true
    }
}
