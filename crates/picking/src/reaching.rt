//! Which of the true candidates a solution takes, and why each of them.
//!
//! A solution takes the first true candidate of each requirement that counts: of the request, and of what is taken.
//! Then what can be left out is left out, the last one first: that is what no requirement has as its only candidate.
use crate::deciding::{Required, Requirements};
use crate::search::Result;
use crate::search_store::SearchStore;
use crate::wishing::Wishes;
use resolvo_clauses::VariableOrigin;
use resolvo_ids::{IndexedSet, Mapping, VariableId};
use resolvo_pool::Requirement;
use solutions::Cause;
use std::alloc::Allocator;

/// What a solution takes.
#[derive(Drop)]
pub(crate) struct Taken<A: Allocator> {
    pub(crate) variables: Vec<VariableId, A>,
    /// For each of them what needs it: another one comes before.
    pub(crate) causes: Vec<Cause, A>,
    /// For each of them what isn't satisfied without it.
    pub(crate) breaks: Vec<Cause, A>,
}

/// The true candidates that aren't left out.
#[derive(Drop)]
struct Kept<'s, T: SearchStore> {
    store: &'s T,
    requirements: &'s Requirements<T::Alloc>,
    left_out: IndexedSet<VariableId, T::Alloc>,
    alloc: T::Alloc,
}

/// What was reached, in order, and from where.
#[derive(Drop)]
struct Reached<A: Allocator> {
    variables: Vec<VariableId, A>,
    causes: Vec<Cause, A>,
    places: Mapping<VariableId, usize, A>,
}

/// What a solution takes of the candidates, which all have a value.
pub(crate) fn take<T: SearchStore>(
    alloc: T::Alloc,
    store: &T,
    requirements: &Requirements<T::Alloc>,
    candidates: &[(VariableId, T::SolvableId)],
    wishes: &Wishes<T::Alloc>,
) -> Result<Taken<T::Alloc>> {
    let mut kept = Kept {
        store,
        requirements,
        left_out: IndexedSet::new(alloc),
        alloc,
    };
    for _ in 0..candidates.len() {
        let reached = kept.reached(wishes)?;
        if !kept.leave_out_others(candidates, &reached)? {
            let breaks = kept.breaks(&reached, wishes)?;
            if !kept.leave_out_last(&reached, &breaks)? {
                return reached.taken(alloc, &breaks);
            }
        }
    }
    let reached = kept.reached(wishes)?;
    let breaks = kept.breaks(&reached, wishes)?;
    reached.taken(alloc, &breaks)
}

impl<A: Allocator + Copy> Reached<A> {
    /// Adds a variable, unless it was reached before.
    fn add(&mut self, variable: VariableId, cause: Cause) -> Result<()> {
        if self.places.get(variable).is_some() {
            return Ok(());
        }
        self.places.insert(variable, self.variables.len())?;
        self.variables.push(variable)?;
        self.causes.push(cause)?;
        Ok(())
    }

    /// What is taken, if nothing can be left out.
    fn taken(self, alloc: A, breaks: &Mapping<VariableId, Cause, A>) -> Result<Taken<A>> {
        let mut listed = Vec::new(alloc);
        for variable in &self.variables {
            listed.push(breaks.get(*variable).copied().unwrap_or(Cause::Wished(0)))?;
        }
        Ok(Taken {
            variables: self.variables,
            causes: self.causes,
            breaks: listed,
        })
    }
}

impl<'s, T: SearchStore> Kept<'s, T> {
    fn has(&self, variable: VariableId) -> bool {
        self.store.value(variable) == Some(true) && !self.left_out.contains(variable)
    }

    /// The first kept candidate of a requirement.
    fn first_of(&self, requirement: Requirement) -> Option<VariableId> {
        self.first_but(requirement, VariableId::root())
    }

    /// The first kept candidate of a requirement, but for this one. The root is none.
    fn first_but(&self, requirement: Requirement, but: VariableId) -> Option<VariableId> {
        for list in self.store.lists(requirement)? {
            for candidate in list {
                if *candidate != but && self.has(*candidate) {
                    return Some(*candidate);
                }
            }
        }
        None
    }

    /// Whether the version set of each gate has a kept candidate, but for this one.
    fn hold_but(&self, gates: &[VariableId], but: VariableId) -> bool {
        for gate in gates {
            if !self.holds_but(*gate, but) {
                return false;
            }
        }
        true
    }

    /// Whether the version set of a gate has a kept candidate, but for this one.
    fn holds_but(&self, gate: VariableId, but: VariableId) -> bool {
        match self.store.origin(gate) {
            Some(VariableOrigin::RequiresGate(requirement)) => {
                self.first_but(requirement, but).is_some()
            }
            _ => false,
        }
    }

    /// What the request reaches, and then what the wishes do.
    fn reached(&self, wishes: &Wishes<T::Alloc>) -> Result<Reached<T::Alloc>> {
        let mut reached = Reached {
            variables: Vec::new(self.alloc),
            causes: Vec::new(self.alloc),
            places: Mapping::new(self.alloc)?,
        };
        self.reach_from(&mut reached, VariableId::root(), None)?;
        self.reach_on(&mut reached, 0)?;
        let requested = reached.variables.len();
        for place in 0..wishes.len() {
            if let Some(variable) = self.wished(wishes, place) {
                reached.add(variable, Cause::Wished(place))?;
            }
        }
        self.reach_on(&mut reached, requested)?;
        Ok(reached)
    }

    /// The kept variable that grants a wish.
    fn wished(&self, wishes: &Wishes<T::Alloc>, place: usize) -> Option<VariableId> {
        let alternative = wishes.granted(self.store, place)?;
        if alternative.value && self.has(alternative.variable) {
            return Some(alternative.variable);
        }
        None
    }

    /// Adds what is needed by what was reached from a place on, and by what that adds.
    fn reach_on(&self, reached: &mut Reached<T::Alloc>, from: usize) -> Result<()> {
        for place in from..usize::MAX {
            let Some(parent) = reached.variables.get(place).copied() else {
                break;
            };
            self.reach_from(reached, parent, Some(place))?;
        }
        Ok(())
    }

    /// Adds the first kept candidate of each requirement that counts of the parent at a place, or of the root.
    fn reach_from(
        &self,
        reached: &mut Reached<T::Alloc>,
        parent: VariableId,
        at: Option<usize>,
    ) -> Result<()> {
        for required in self.requirements.of(parent) {
            if self.hold_but(&required.gates, VariableId::root()) {
                if let Some(candidate) = self.first_of(required.requirement) {
                    reached.add(candidate, cause_of(at, required))?;
                }
            }
        }
        Ok(())
    }

    /// Leaves out what wasn't reached. Answers whether there was something.
    fn leave_out_others(
        &mut self,
        candidates: &[(VariableId, T::SolvableId)],
        reached: &Reached<T::Alloc>,
    ) -> Result<bool> {
        let mut some = false;
        for (variable, _) in candidates {
            if self.has(*variable) && reached.places.get(*variable).is_none() {
                self.left_out.insert(*variable)?;
                some = true;
            }
        }
        Ok(some)
    }

    /// Leaves out the last one without which nothing breaks. Answers whether there was one.
    fn leave_out_last(
        &mut self,
        reached: &Reached<T::Alloc>,
        breaks: &Mapping<VariableId, Cause, T::Alloc>,
    ) -> Result<bool> {
        for variable in reached.variables.iter().rev() {
            if breaks.get(*variable).is_none() {
                self.left_out.insert(*variable)?;
                return Ok(true);
            }
        }
        Ok(false)
    }

    /// For each variable that can't be left out what breaks without it.
    fn breaks(
        &self,
        reached: &Reached<T::Alloc>,
        wishes: &Wishes<T::Alloc>,
    ) -> Result<Mapping<VariableId, Cause, T::Alloc>> {
        let mut breaks = Mapping::new(self.alloc)?;
        for place in 0..wishes.len() {
            if let Some(variable) = self.wished(wishes, place) {
                breaks.insert(variable, Cause::Wished(place))?;
            }
        }
        for place in 0..reached.variables.len() {
            if let Some(parent) = reached.variables.get(place) {
                self.add_breaks(&mut breaks, *parent, Some(place))?;
            }
        }
        self.add_breaks(&mut breaks, VariableId::root(), None)?;
        Ok(breaks)
    }

    /// Adds what is the only candidate of a requirement that counts of the parent at a place, or of the root.
    fn add_breaks(
        &self,
        breaks: &mut Mapping<VariableId, Cause, T::Alloc>,
        parent: VariableId,
        at: Option<usize>,
    ) -> Result<()> {
        for required in self.requirements.of(parent) {
            if let Some(only) = self.only_of(required) {
                if only != parent {
                    breaks.insert(only, cause_of(at, required))?;
                }
            }
        }
        Ok(())
    }

    /// The only kept candidate of a requirement, if it counts without that one.
    fn only_of(&self, required: &Required<T::Alloc>) -> Option<VariableId> {
        let only = self.first_of(required.requirement)?;
        if self.first_but(required.requirement, only).is_none()
            && self.hold_but(&required.gates, only)
        {
            return Some(only);
        }
        None
    }
}

/// The cause that a requirement is: of the solvable at a place, or of the request.
fn cause_of<A: Allocator>(at: Option<usize>, required: &Required<A>) -> Cause {
    match at {
        Some(place) => Cause::Required(place),
        None => Cause::Requested(required.place),
    }
}
