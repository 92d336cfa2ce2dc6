//! Conflict analysis: what a search learns from a false clause.
use crate::notes::{Antecedent, Notes};
use crate::progress::Progress;
use crate::search::Result;
use crate::search_store::SearchStore;
use crate::trail::{Assigned, Trail};
use resolvo_clauses::{Decision, Literal, VariableOrigin};
use resolvo_ids::{ClauseId, IndexedSet, VariableId};
use resolvo_pool::Requirement;
use solutions::PackageLiteral;
use std::alloc::Allocator;

/// The analysis of a conflict: which assignments can't stand together.
#[derive(Drop)]
struct Analysis<A: Allocator> {
    /// The level of the conflict: the highest in the false clause.
    level: u32,
    /// The variables that were seen.
    seen: IndexedSet<VariableId, A>,
    /// How many of them have that level, and aren't resolved yet.
    open: usize,
    /// The assignments of lower levels.
    lower: Vec<Assigned, A>,
    /// Clauses that are still to be seen.
    pending: Vec<ClauseId, A>,
    antecedents: Vec<Antecedent, A>,
    /// The variables above level 1 that were seen.
    variables: Vec<VariableId, A>,
}

impl<A: Allocator + Copy> Analysis<A> {
    /// Nothing was seen.
    fn new(alloc: A) -> Self {
        Analysis {
            level: 0,
            seen: IndexedSet::new(alloc),
            open: 0,
            lower: Vec::new(alloc),
            pending: Vec::new(alloc),
            antecedents: Vec::new(alloc),
            variables: Vec::new(alloc),
        }
    }
}

impl<T: SearchStore> Progress<T> {
    /// Learns a clause from a conflict: that the first unique implication point and some assignments of lower levels
    /// can't stand together. Backjumps to the highest of these levels, and propagates the clause there. A conflict that
    /// follows from the root alone leaves no level. Answers which variables above level 1 were seen.
    pub(crate) fn learn(
        &mut self,
        conflict: ClauseId,
        notes: &mut Notes<T::SolvableId, T::Alloc>,
    ) -> Result<Vec<VariableId, T::Alloc>> {
        self.read_trail()?;
        let mut analysis = Analysis::new(self.alloc);
        let last = self.analyze(conflict, &mut analysis)?;
        let lower = self.minimized(&analysis.lower, &analysis.seen, &mut analysis.antecedents)?;
        let Analysis {
            antecedents,
            variables,
            ..
        } = analysis;
        match last {
            Some(last) => self.learn_clause(notes, last, &lower, antecedents)?,
            None => {
                self.trail.clear_levels();
                notes.root_cause = antecedents;
            }
        }
        Ok(variables)
    }

    /// Analyses a false clause, and answers the first unique implication point. There is none if the conflict follows
    /// from the root alone.
    fn analyze(
        &self,
        conflict: ClauseId,
        analysis: &mut Analysis<T::Alloc>,
    ) -> Result<Option<Assigned>> {
        let literals = self.literals(conflict)?;
        analysis.level = self.trail.highest_level(&literals);
        self.see(conflict, analysis)?;
        self.first_uip(analysis)
    }

    /// The first unique implication point: the last assignment of the conflict's level from which, with lower levels,
    /// the conflict follows. The trail is walked backwards, since an assignment's antecedents come before it.
    fn first_uip(&self, analysis: &mut Analysis<T::Alloc>) -> Result<Option<Assigned>> {
        if analysis.level < 2 {
            return Ok(None);
        }
        for assigned in self.trail.assignments.iter().rev() {
            if assigned.level == analysis.level
                && analysis.seen.contains(assigned.decision.variable)
            {
                if self.is_unique(assigned, analysis) {
                    return Ok(Some(*assigned));
                }
                analysis.open = analysis.open.saturating_sub(1);
                self.see(assigned.decision.derived_from, analysis)?;
            }
        }
        Ok(None)
    }

    /// Whether an assignment that was seen is the only open one of the conflict's level, and may be in a learnt clause.
    fn is_unique(&self, assigned: &Assigned, analysis: &Analysis<T::Alloc>) -> bool {
        assigned.is_decision || analysis.open < 2 && !self.is_helper(assigned.decision.variable)
    }

    /// Sees a clause and its variables. For a helper of a lower level its antecedent is seen as well.
    fn see(&self, clause: ClauseId, analysis: &mut Analysis<T::Alloc>) -> Result<()> {
        analysis.pending.push(clause)?;
        for _ in 0..u64::MAX {
            let Some(clause) = analysis.pending.pop() else {
                break;
            };
            analysis.antecedents.push(Antecedent::Clause(clause))?;
            let literals = self.literals(clause)?;
            self.see_literals(&literals, analysis)?;
        }
        Ok(())
    }

    fn see_literals(&self, literals: &[Literal], analysis: &mut Analysis<T::Alloc>) -> Result<()> {
        for literal in literals {
            self.see_variable(literal.variable(), analysis)?;
        }
        Ok(())
    }

    fn see_variable(&self, variable: VariableId, analysis: &mut Analysis<T::Alloc>) -> Result<()> {
        let Some(assigned) = self.trail.assigned(variable) else {
            return Ok(());
        };
        if !analysis.seen.insert(variable)? {
            return Ok(());
        }
        if assigned.level < 2 {
            analysis.antecedents.push(Antecedent::Fact(variable))?;
            return Ok(());
        }
        analysis.variables.push(variable)?;
        if assigned.level == analysis.level {
            analysis.open = analysis.open.saturating_add(1);
        } else if self.is_helper(variable) {
            analysis.pending.push(assigned.decision.derived_from)?;
        } else {
            analysis.lower.push(assigned)?;
        }
        Ok(())
    }

    /// Whether a variable is a helper of an at-most-one encoding. No learnt clause has one.
    fn is_helper(&self, variable: VariableId) -> bool {
        match self.store.origin(variable) {
            Some(VariableOrigin::ForbidMultiple(_)) => true,
            _ => false,
        }
    }

    /// The assignments of lower levels without the redundant ones.
    fn minimized(
        &self,
        lower: &[Assigned],
        seen: &IndexedSet<VariableId, T::Alloc>,
        antecedents: &mut Vec<Antecedent, T::Alloc>,
    ) -> Result<Vec<Assigned, T::Alloc>> {
        let mut kept = Vec::new(self.alloc);
        for assigned in lower {
            if !self.is_redundant(assigned, seen, antecedents)? {
                kept.push(*assigned)?;
            }
        }
        Ok(kept)
    }

    /// Whether an assignment follows from others that were seen, and from the root: a learnt clause can do without it.
    /// Its clause, and the variables in it that have their values at level 1, are antecedents then.
    fn is_redundant(
        &self,
        assigned: &Assigned,
        seen: &IndexedSet<VariableId, T::Alloc>,
        antecedents: &mut Vec<Antecedent, T::Alloc>,
    ) -> Result<bool> {
        if assigned.is_decision {
            return Ok(false);
        }
        let clause = assigned.decision.derived_from;
        let literals = self.literals(clause)?;
        if !self.trail.are_known(&literals, seen) {
            return Ok(false);
        }
        antecedents.push(Antecedent::Clause(clause))?;
        self.trail.add_facts(&literals, antecedents)?;
        Ok(true)
    }

    /// Learns that not all of these assignments stand: backjumps to the highest level of the lower ones, and propagates
    /// the opposite of the last one.
    fn learn_clause(
        &mut self,
        notes: &mut Notes<T::SolvableId, T::Alloc>,
        last: Assigned,
        lower: &[Assigned],
        antecedents: Vec<Antecedent, T::Alloc>,
    ) -> Result<()> {
        let level = highest_level_of(lower);
        self.backjump(level);
        let literals = literals_against(self.alloc, last, lower, level)?;
        let clause = self.store.learnt(&literals)?.clause;
        let package_literals = self.package_literals(&literals)?;
        notes.add_learnt(clause, package_literals, antecedents)?;
        let Decision {
            variable,
            value,
            ..
        } = last.decision;
        self.assign(Decision::new(variable, !value, clause))
    }

    /// The literals, in the provider's ids.
    fn package_literals(
        &self,
        literals: &[Literal],
    ) -> Result<Vec<PackageLiteral<T::SolvableId>, T::Alloc>> {
        let mut package_literals = Vec::new(self.alloc);
        for literal in literals {
            let value = literal.satisfying_value();
            match self.store.origin(literal.variable()) {
                Some(VariableOrigin::Solvable(solvable)) => {
                    package_literals.push(PackageLiteral::Picked(solvable, value))?;
                }
                Some(VariableOrigin::RequiresGate(Requirement::Single(set))) => {
                    package_literals.push(PackageLiteral::Held(set, value))?;
                }
                _ => {}
            }
        }
        Ok(package_literals)
    }
}

impl<A: Allocator + Copy> Trail<A> {
    /// Whether all these literals' variables were seen, or have their values at level 1.
    fn are_known(&self, literals: &[Literal], seen: &IndexedSet<VariableId, A>) -> bool {
        for literal in literals {
            let variable = literal.variable();
            if !seen.contains(variable) && !self.is_fact(variable) {
                return false;
            }
        }
        true
    }

    /// Adds the variables of these literals that have their values at level 1 to the antecedents.
    fn add_facts(&self, literals: &[Literal], antecedents: &mut Vec<Antecedent, A>) -> Result<()> {
        for literal in literals {
            if self.is_fact(literal.variable()) {
                antecedents.push(Antecedent::Fact(literal.variable()))?;
            }
        }
        Ok(())
    }
}

/// The literals of the clause that not all of these assignments stand. The last one comes first, and one of the level
/// comes last, since a learnt clause watches its first and its last literal.
fn literals_against<A: Allocator + Copy>(
    alloc: A,
    last: Assigned,
    lower: &[Assigned],
    level: u32,
) -> Result<Vec<Literal, A>> {
    let mut literals = Vec::new(alloc);
    literals.push(last.opposite())?;
    let mut end = None;
    for assigned in lower {
        if end.is_none() && assigned.level == level {
            end = Some(assigned.opposite());
        } else {
            literals.push(assigned.opposite())?;
        }
    }
    if let Some(end) = end {
        literals.push(end)?;
    }
    Ok(literals)
}

/// The highest level of these assignments, or the root's.
fn highest_level_of(assigned: &[Assigned]) -> u32 {
    let mut highest_level = 1;
    for one in assigned {
        highest_level = highest_level.max(one.level);
    }
    highest_level
}
