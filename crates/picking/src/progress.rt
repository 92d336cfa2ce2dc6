//! The store of a search, with its trail.
use crate::search::Result;
use crate::search_store::SearchStore;
use crate::trail::Trail;
use crate::wishing::VariableValue;
use resolvo_clauses::{Decision, Literal, VariableOrigin};
use resolvo_ids::{ClauseId, VariableId};

/// A store, and its trail as it was read last.
#[derive(Drop)]
pub(crate) struct Progress<T: SearchStore> {
    pub(crate) store: T,
    pub(crate) trail: Trail<T::Alloc>,
    pub(crate) alloc: T::Alloc,
}

impl<T: SearchStore> Progress<T> {
    /// Begins with the root.
    pub(crate) fn begin(&mut self) -> Result<()> {
        self.store.root()?;
        self.decide(VariableId::root(), ClauseId::install_root())
    }

    /// Decides that a variable is true, at a new level.
    pub(crate) fn decide(&mut self, variable: VariableId, clause: ClauseId) -> Result<()> {
        self.begin_level(Decision::new(variable, true, clause))
    }

    /// Decides what a wish says, at a new level. No clause is behind it.
    pub(crate) fn decide_wish(&mut self, alternative: VariableValue) -> Result<()> {
        let VariableValue { variable, value } = alternative;
        self.begin_level(Decision::new(variable, value, ClauseId::install_root()))
    }

    /// Assigns at a new level.
    fn begin_level(&mut self, decision: Decision) -> Result<()> {
        self.read_trail()?;
        self.trail.begin_level(decision.variable)?;
        self.assign(decision)
    }

    /// Assigns at the current level. What is above is undone.
    pub(crate) fn assign(&mut self, decision: Decision) -> Result<()> {
        let level = self.trail.level();
        self.store.undo_until(level);
        self.store.assign(decision, level)?;
        Ok(())
    }

    /// Reads the assignments that are new, all of them at the current level.
    pub(crate) fn read_trail(&mut self) -> Result<()> {
        for _ in 0..u32::MAX {
            let Some(decision) = self.store.next_unpropagated() else {
                break;
            };
            self.trail.push(decision)?;
        }
        Ok(())
    }

    /// Undoes what is above a level.
    pub(crate) fn backjump(&mut self, level: u32) {
        self.trail.backjump(level);
        self.store.undo_until(level);
    }

    /// The literals of a clause.
    pub(crate) fn literals(&self, clause: ClauseId) -> Result<Vec<Literal, T::Alloc>> {
        match self.store.literals(clause)? {
            Some(literals) => Ok(literals),
            None => Ok(Vec::new(self.alloc)),
        }
    }

    /// The solvables of these variables.
    pub(crate) fn solvables(
        &self,
        variables: &[VariableId],
    ) -> Result<Vec<T::SolvableId, T::Alloc>> {
        let mut solvables = Vec::new(self.alloc);
        for variable in variables {
            if let Some(VariableOrigin::Solvable(solvable)) = self.store.origin(*variable) {
                solvables.push(solvable)?;
            }
        }
        Ok(solvables)
    }
}
