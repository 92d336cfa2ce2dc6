//! The clauses that a search adds to its store, each with the reason that it is noted with.
use crate::deciding::{Required, Requirements};
use crate::search::Result;
use crate::search_store::SearchStore;
use resolvo_clauses::Literal;
use resolvo_ids::{
    ClauseId, ConditionId, DisjunctionId, Mapping, StringId, VariableId, VersionSetId,
};
use resolvo_pool::{ConditionalRequirement, Requirement};
use resolvo_store::HelperOrigin;
use solutions::Reason;
use std::alloc::Allocator;

/// What a parent needs, and the reason that says so.
#[derive(Clone, Copy)]
pub(crate) struct Need<N, S> {
    pub(crate) parent: VariableId,
    pub(crate) requirement: Requirement,
    /// The requirement's place in what the parent needs.
    pub(crate) place: usize,
    pub(crate) reason: Reason<N, S>,
}

/// What the encoded clauses say.
#[derive(Drop)]
pub(crate) struct Encoded<T: SearchStore> {
    /// The reason of each clause.
    pub(crate) reasons: Mapping<ClauseId, Reason<T::NameId, T::SolvableId>, T::Alloc>,
    /// The solvable of each clause that says that its package doesn't have it.
    pub(crate) unlisted: Mapping<ClauseId, T::SolvableId, T::Alloc>,
    pub(crate) requirements: Requirements<T::Alloc>,
}

impl<T: SearchStore> Encoded<T> {
    /// Nothing is encoded.
    pub(crate) fn new(alloc: T::Alloc) -> Result<Self> {
        let reasons = Mapping::new(alloc)?;
        let unlisted = Mapping::new(alloc)?;
        let requirements = Requirements::new(alloc)?;
        Ok(Encoded {
            reasons,
            unlisted,
            requirements,
        })
    }

    /// Says that the parent, if true, requires a candidate, unless a literal of the disjunction is true: while the
    /// gates are all true.
    pub(crate) fn require(
        &mut self,
        store: &mut T,
        need: &Need<T::NameId, T::SolvableId>,
        unless: Option<DisjunctionId>,
        gates: Vec<VariableId, T::Alloc>,
    ) -> Result<()> {
        let clause = store
            .requires_clause(need.parent, need.requirement, unless)?
            .clause;
        self.reasons.insert(clause, need.reason)?;
        let required = Required {
            requirement: need.requirement,
            place: need.place,
            gates,
            clause,
        };
        self.requirements.add(need.parent, required)
    }

    /// Makes a solvable's variable false for each of these reasons: its package excludes it, or is locked to another
    /// one.
    pub(crate) fn ban(
        &mut self,
        store: &mut T,
        variable: VariableId,
        bans: &[Reason<T::NameId, T::SolvableId>],
    ) -> Result<()> {
        for reason in bans {
            match reason {
                Reason::Excluded(_, string) => self.exclude(store, variable, *string, *reason)?,
                Reason::Locked(locked) => self.lock(store, *locked, variable)?,
                _ => {}
            }
        }
        Ok(())
    }

    /// Makes the variable false of a solvable that its package doesn't have. It is locked out by itself: there is no
    /// other clause of one variable without a reason in the provider's words.
    pub(crate) fn forbid_unlisted(
        &mut self,
        store: &mut T,
        variable: VariableId,
        solvable: T::SolvableId,
    ) -> Result<()> {
        let clause = store.lock(variable, variable)?.clause;
        self.unlisted.insert(clause, solvable)?;
        Ok(())
    }

    /// Says that the parent, if true, forbids solvables that the version set doesn't hold.
    pub(crate) fn forbid_all(
        &mut self,
        store: &mut T,
        parent: VariableId,
        outside: &[T::SolvableId],
        set: VersionSetId,
        reason: Reason<T::NameId, T::SolvableId>,
    ) -> Result<()> {
        for solvable in outside {
            let clause = forbid(store, parent, *solvable, set)?;
            self.reasons.insert(clause, reason)?;
        }
        Ok(())
    }

    /// Makes a variable false, for the reason that the string says.
    pub(crate) fn exclude(
        &mut self,
        store: &mut T,
        variable: VariableId,
        string: StringId,
        reason: Reason<T::NameId, T::SolvableId>,
    ) -> Result<()> {
        let clause = store.exclude(variable, string)?.clause;
        self.reasons.insert(clause, reason)?;
        Ok(())
    }

    /// Makes a variable false, since its package is locked to another solvable.
    fn lock(&mut self, store: &mut T, locked: T::SolvableId, variable: VariableId) -> Result<()> {
        let first = store.variable(locked)?;
        let clause = store.lock(first, variable)?.clause;
        self.reasons.insert(clause, Reason::Locked(locked))?;
        Ok(())
    }
}

/// Says that the parent, if true, forbids a solvable that the version set doesn't hold.
fn forbid<T: SearchStore>(
    store: &mut T,
    parent: VariableId,
    outside: T::SolvableId,
    set: VersionSetId,
) -> Result<ClauseId> {
    let outside = store.variable(outside)?;
    Ok(store.constrains(parent, outside, set)?.clause)
}

/// The reason that someone needs something that is loaded.
pub(crate) fn reason_for<T: SearchStore>(
    store: &T,
    parent: Option<T::SolvableId>,
    conditional: ConditionalRequirement,
) -> Reason<T::NameId, T::SolvableId> {
    match store.lists(conditional.requirement) {
        Some(lists) if has_candidate(lists) => Reason::Needs(parent, conditional),
        _ => Reason::Lacks(parent, conditional),
    }
}

/// Makes the variable that is true if a candidate of the requirement is.
pub(crate) fn add_gate<T: SearchStore>(
    alloc: T::Alloc,
    store: &mut T,
    requirement: Requirement,
) -> Result<VariableId> {
    store.load(requirement)?;
    let gate = store.helper(HelperOrigin::RequiresGate(requirement))?;
    let candidates = variables_of(alloc, store, requirement)?;
    open_by_any(store, gate, &candidates)?;
    Ok(gate)
}

/// The variables of a loaded requirement's candidates.
fn variables_of<T: SearchStore>(
    alloc: T::Alloc,
    store: &T,
    requirement: Requirement,
) -> Result<Vec<VariableId, T::Alloc>> {
    match store.lists(requirement) {
        Some(lists) => joined(alloc, lists),
        None => Ok(Vec::new(alloc)),
    }
}

/// Says that a gate is true if one of these is.
fn open_by_any<T: SearchStore>(
    store: &mut T,
    gate: VariableId,
    candidates: &[VariableId],
) -> Result<()> {
    for candidate in candidates {
        store.any_of(gate, *candidate)?;
    }
    Ok(())
}

/// Adds the disjunction that one of the gates of a condition isn't true.
pub(crate) fn add_disjunction<T: SearchStore>(
    alloc: T::Alloc,
    store: &mut T,
    gates: &[VariableId],
    condition: ConditionId,
) -> Result<DisjunctionId> {
    let unless = negated(alloc, gates)?;
    store.disjunction(&unless, condition)
}

/// That these variables are false, each.
fn negated<A: Allocator>(alloc: A, variables: &[VariableId]) -> Result<Vec<Literal, A>> {
    let mut negated = Vec::new(alloc);
    for variable in variables {
        negated.push(Literal::new(*variable, true))?;
    }
    Ok(negated)
}

/// Whether one of the lists has a candidate.
fn has_candidate<A: Allocator>(lists: &[Vec<VariableId, A>]) -> bool {
    for list in lists {
        if !list.is_empty() {
            return true;
        }
    }
    false
}

/// The lists, one after the other.
fn joined<A: Allocator>(alloc: A, lists: &[Vec<VariableId, A>]) -> Result<Vec<VariableId, A>> {
    let mut variables = Vec::new(alloc);
    for list in lists {
        variables.extend_from_slice(list)?;
    }
    Ok(variables)
}
