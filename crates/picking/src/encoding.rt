//! How a search encodes: the clauses of the request first, and those of a candidate's dependencies once it is true.
use crate::adding::{Encoded, Need, add_disjunction, add_gate, reason_for};
use crate::package_source::PackageSource;
use crate::progress::Progress;
use crate::search::Result;
use crate::search_store::SearchStore;
use resolvo_clauses::VariableOrigin;
use resolvo_ids::{
    ConditionId, DenseIndex, IndexedSet, Mapping, StoreError, VariableId, VersionSetId,
};
use resolvo_pool::{ConditionalRequirement, Dependencies, Requirement};
use solutions::Reason;

/// A store has at most this many variables.
const MOST_VARIABLES: usize = (1 << 31) - 1;

/// Who needs something: a variable, and its solvable unless it is the root.
#[derive(Clone, Copy)]
struct Parent<S> {
    variable: VariableId,
    solvable: Option<S>,
}

/// Encodes into the store of a search what may be picked. The provider is queried for a package's candidates when a
/// requirement, a condition, a constraint or a wish first names it, and for a solvable's dependencies when the solvable
/// is first true.
#[derive(Drop)]
pub(crate) struct Encoder<T: SearchStore, P> {
    pub(crate) packages: P,
    /// The solvables that have a variable, also those that may not be picked.
    pub(crate) candidates: Vec<(VariableId, T::SolvableId), T::Alloc>,
    pub(crate) encoded: Encoded<T>,
    /// For each version set of a condition the variable that is true if one of its candidates is.
    gates: Mapping<VersionSetId, VariableId, T::Alloc>,
    /// How many variables of the store `introduce_all` has visited.
    introduced: usize,
    /// The variables of the solvables whose dependencies are encoded.
    dependents: IndexedSet<VariableId, T::Alloc>,
    alloc: T::Alloc,
}

impl<T: SearchStore, P: PackageSource<T::NameId, T::SolvableId, T::Alloc> + Drop> Encoder<T, P> {
    /// An encoder that has encoded nothing yet.
    pub(crate) fn new(alloc: T::Alloc, packages: P) -> Result<Self> {
        let encoded = Encoded::new(alloc)?;
        let gates = Mapping::new(alloc)?;
        Ok(Encoder {
            packages,
            candidates: Vec::new(alloc),
            encoded,
            gates,
            introduced: 0,
            dependents: IndexedSet::new(alloc),
            alloc,
        })
    }

    /// Encodes the request, which the root requires.
    pub(crate) fn request(
        &mut self,
        store: &mut T,
        requested: &[ConditionalRequirement],
    ) -> Result<()> {
        let root = Parent {
            variable: VariableId::root(),
            solvable: None,
        };
        self.require_all(store, &root, requested)?;
        self.introduce_all(store)
    }

    /// The variable of a solvable that a wish names. A clause makes it false if the package doesn't list the solvable.
    pub(crate) fn wished(&mut self, store: &mut T, solvable: T::SolvableId) -> Result<VariableId> {
        let variable = store.variable(solvable)?;
        let Some(name) = self.packages.name(solvable) else {
            return Err(StoreError::UnknownId);
        };
        let package = self.packages.package(name)?;
        if !package.candidates.contains(&solvable) {
            self.encoded.forbid_unlisted(store, variable, solvable)?;
        }
        Ok(variable)
    }

    /// Propagates and encodes by turns, until no candidate is newly true or a clause is false.
    pub(crate) fn encode_true(&mut self, progress: &mut Progress<T>) -> Result<()> {
        for _ in 0..u64::MAX {
            let level = progress.trail.level();
            if progress.store.saturate(level)?.is_some() {
                break;
            }
            progress.read_trail()?;
            if !self.encode_new(progress)? {
                break;
            }
        }
        Ok(())
    }

    /// Encodes the dependencies of the candidates that are newly true. Answers whether there are any.
    fn encode_new(&mut self, progress: &mut Progress<T>) -> Result<bool> {
        let mut some = false;
        for index in progress.trail.encoded_below..progress.trail.assignments.len() {
            let Some(assigned) = progress.trail.assignments.get(index).copied() else {
                break;
            };
            if assigned.decision.value
                && self.encode(&mut progress.store, assigned.decision.variable)?
            {
                some = true;
            }
        }
        progress.trail.encoded_below = progress.trail.assignments.len();
        self.introduce_all(&mut progress.store)?;
        Ok(some)
    }

    /// Introduces the solvables whose variables are new in the store: encodes what their packages say of them.
    pub(crate) fn introduce_all(&mut self, store: &mut T) -> Result<()> {
        for index in self.introduced..MOST_VARIABLES {
            let variable = VariableId::from_index(index);
            match store.origin(variable) {
                Some(VariableOrigin::Solvable(solvable)) => {
                    self.introduce(store, variable, solvable)?;
                }
                Some(_) => {}
                None => {
                    self.introduced = index;
                    break;
                }
            }
        }
        Ok(())
    }

    /// Forbids a second version of a solvable's package, and the solvable itself if its package rules it out.
    fn introduce(
        &mut self,
        store: &mut T,
        variable: VariableId,
        solvable: T::SolvableId,
    ) -> Result<()> {
        self.candidates.push((variable, solvable))?;
        let Some(name) = self.packages.name(solvable) else {
            return Err(StoreError::UnknownId);
        };
        if self.packages.is_one_version(name) {
            store.at_most_once(name, variable)?;
        }
        let bans = self.packages.bans(name, solvable)?;
        self.encoded.ban(store, variable, &bans)
    }

    /// Encodes the dependencies of a variable's solvable, unless they are encoded. Answers whether it did.
    fn encode(&mut self, store: &mut T, variable: VariableId) -> Result<bool> {
        let Some(VariableOrigin::Solvable(solvable)) = store.origin(variable) else {
            return Ok(false);
        };
        if !self.dependents.insert(variable)? {
            return Ok(false);
        }
        self.encode_dependencies(store, variable, solvable)?;
        Ok(true)
    }

    fn encode_dependencies(
        &mut self,
        store: &mut T,
        variable: VariableId,
        solvable: T::SolvableId,
    ) -> Result<()> {
        match self.packages.needs(solvable)? {
            Dependencies::Known(needs) => {
                let parent = Parent {
                    variable,
                    solvable: Some(solvable),
                };
                self.require_all(store, &parent, &needs.requirements)?;
                self.constrain_all(store, variable, solvable, &needs.constrains)
            }
            Dependencies::Unknown(reason) => {
                let why = Reason::Unknown(solvable, reason);
                self.encoded.exclude(store, variable, reason, why)
            }
        }
    }

    fn require_all(
        &mut self,
        store: &mut T,
        parent: &Parent<T::SolvableId>,
        requirements: &[ConditionalRequirement],
    ) -> Result<()> {
        for (place, conditional) in requirements.iter().enumerate() {
            self.require(store, parent, place, *conditional)?;
        }
        Ok(())
    }

    /// Adds the clause that the parent, if true, requires a candidate. Under a condition, it adds one such clause for
    /// each list of the condition's normal form.
    fn require(
        &mut self,
        store: &mut T,
        parent: &Parent<T::SolvableId>,
        place: usize,
        conditional: ConditionalRequirement,
    ) -> Result<()> {
        let condition = conditional.condition;
        store.load(conditional.requirement)?;
        let need = Need {
            parent: parent.variable,
            requirement: conditional.requirement,
            place,
            reason: reason_for(store, parent.solvable, conditional),
        };
        match condition {
            Some(condition) => {
                let lists = self.packages.lists(condition)?;
                self.require_under(store, &need, condition, &lists)
            }
            None => self
                .encoded
                .require(store, &need, None, Vec::new(self.alloc)),
        }
    }

    fn require_under(
        &mut self,
        store: &mut T,
        need: &Need<T::NameId, T::SolvableId>,
        condition: ConditionId,
        lists: &[Vec<VersionSetId, T::Alloc>],
    ) -> Result<()> {
        for list in lists {
            let gates = self.gates_of(store, list)?;
            let unless = add_disjunction(self.alloc, store, &gates, condition)?;
            self.encoded.require(store, need, Some(unless), gates)?;
        }
        Ok(())
    }

    /// The variables that are all true if each of the version sets has a candidate that is true.
    fn gates_of(
        &mut self,
        store: &mut T,
        sets: &[VersionSetId],
    ) -> Result<Vec<VariableId, T::Alloc>> {
        let mut gates = Vec::new(self.alloc);
        for set in sets {
            let gate = self.gate(store, *set)?;
            if !gates.contains(&gate) {
                gates.push(gate)?;
            }
        }
        Ok(gates)
    }

    /// The variable that is true if a candidate of the version set is; it is made once.
    fn gate(&mut self, store: &mut T, set: VersionSetId) -> Result<VariableId> {
        if let Some(gate) = self.gates.get(set) {
            return Ok(*gate);
        }
        let gate = add_gate(self.alloc, store, Requirement::Single(set))?;
        self.gates.insert(set, gate)?;
        Ok(gate)
    }

    fn constrain_all(
        &mut self,
        store: &mut T,
        variable: VariableId,
        solvable: T::SolvableId,
        sets: &[VersionSetId],
    ) -> Result<()> {
        for set in sets {
            self.constrain(store, variable, *set, Reason::Limits(solvable, *set))?;
        }
        Ok(())
    }

    /// Says that the parent, if true, forbids the candidates that the version set doesn't hold.
    fn constrain(
        &mut self,
        store: &mut T,
        parent: VariableId,
        set: VersionSetId,
        reason: Reason<T::NameId, T::SolvableId>,
    ) -> Result<()> {
        let outside = self.packages.outside(set)?;
        self.encoded.forbid_all(store, parent, outside, set, reason)
    }
}
