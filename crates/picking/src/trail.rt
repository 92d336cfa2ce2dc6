//! The trail of a search, as it was read last, and its levels.
use crate::search::Result;
use resolvo_clauses::{Decision, Literal};
use resolvo_ids::{Mapping, VariableId};
use std::alloc::Allocator;

/// A level begins with a decision: the root's at level 1, and then that a candidate is true, or what a wish says.
#[derive(Clone, Copy)]
struct DecisionLevel {
    variable: VariableId,
    /// How many assignments are below the level.
    below: usize,
}

/// An assignment, with its level.
#[derive(Clone, Copy)]
pub(crate) struct Assigned {
    pub(crate) decision: Decision,
    pub(crate) level: u32,
    pub(crate) is_decision: bool,
}

impl Assigned {
    /// That it doesn't stand.
    pub(crate) fn opposite(&self) -> Literal {
        Literal::new(self.decision.variable, self.decision.value)
    }
}

/// The assignments, each with its level.
#[derive(Drop)]
pub(crate) struct Trail<A: Allocator> {
    /// Oldest first.
    pub(crate) assignments: Vec<Assigned, A>,
    /// The place of a variable there, if it is there.
    places: Mapping<VariableId, usize, A>,
    /// The levels, lowest first.
    levels: Vec<DecisionLevel, A>,
    /// The dependencies of what is true below this place are encoded.
    pub(crate) encoded_below: usize,
}

impl<A: Allocator + Copy> Trail<A> {
    /// A trail with no level.
    pub(crate) fn new(alloc: A) -> Result<Self> {
        let places = Mapping::new(alloc)?;
        Ok(Trail {
            assignments: Vec::new(alloc),
            places,
            levels: Vec::new(alloc),
            encoded_below: 0,
        })
    }

    /// How many levels there are. The store refuses a level that is too high.
    pub(crate) fn level(&self) -> u32 {
        u32::try_from(self.levels.len()).unwrap_or(u32::MAX)
    }

    /// Begins a level with the decision of a variable.
    pub(crate) fn begin_level(&mut self, variable: VariableId) -> Result<()> {
        let below = self.assignments.len();
        self.levels.push(DecisionLevel { variable, below })?;
        Ok(())
    }

    /// Adds an assignment at the current level.
    pub(crate) fn push(&mut self, decision: Decision) -> Result<()> {
        let is_decision = match self.levels.last() {
            Some(level) => level.variable == decision.variable,
            None => false,
        };
        let level = self.level();
        self.places
            .insert(decision.variable, self.assignments.len())?;
        self.assignments.push(Assigned {
            decision,
            level,
            is_decision,
        })?;
        Ok(())
    }

    /// Takes away what is above a level.
    pub(crate) fn backjump(&mut self, level: u32) {
        if let Some(above) = self.levels.get(level as usize) {
            self.assignments.truncate(above.below);
            self.encoded_below = self.encoded_below.min(above.below);
        }
        self.levels.truncate(level as usize);
    }

    /// Takes away all levels, and leaves the assignments.
    pub(crate) fn clear_levels(&mut self) {
        self.levels.clear();
    }

    /// The assignment of a variable.
    pub(crate) fn assigned(&self, variable: VariableId) -> Option<Assigned> {
        let Some(place) = self.places.get(variable) else {
            return None;
        };
        match self.assignments.get(*place) {
            Some(assigned) if assigned.decision.variable == variable => Some(*assigned),
            _ => None,
        }
    }

    /// Whether a variable has its value at level 1.
    pub(crate) fn is_fact(&self, variable: VariableId) -> bool {
        match self.assigned(variable) {
            Some(assigned) => assigned.level < 2,
            None => false,
        }
    }

    /// The highest level of these literals.
    pub(crate) fn highest_level(&self, literals: &[Literal]) -> u32 {
        let mut highest_level = 0;
        for literal in literals {
            if let Some(assigned) = self.assigned(literal.variable()) {
                highest_level = highest_level.max(assigned.level);
            }
        }
        highest_level
    }
}
