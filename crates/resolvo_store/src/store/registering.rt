//! The commands that keep conditions' literals and add requires clauses.
ghost use Rattle.std.specs.Prelude.{◌≡◌, ◌-◌, ◌^◌, List, [], length, true, false};
ghost use Rattle.std.specs.Prelude.{nat_le, nat_lt, map, ◌<◌, IsSome};
ghost use Rattle.std.specs.Prelude.{IfSome, All, Err, IsTrue, IfOk, OnOk, OnErr, IfErr};
ghost use Rattle.decisions.specs.Literals.{Neg};
ghost use Rattle.typed_ids.specs.Refusals.{IsGrowthRefusal};
ghost use Rattle.typed_ids.specs.TotalMaps.{SameValues};
ghost use Rattle.std.specs.Map.{lookup};
ghost use Rattle.std.specs.Option.{option_map_or};
ghost use Rattle.typed_ids.specs.declared.error.StoreError.TheVariants.{IdSpace, OutOfMemory};
ghost use Rattle.providers.specs.Requirement.{same_requirement};
ghost use Rattle.providers.specs.Provider.{knows_requirement};
ghost use Rattle.clauses.specs.Clauses.{is_conflict, condition_literals};
ghost use Rattle.clauses.specs.Stored.{stored_in};
ghost use Rattle.clauses.specs.declared.clause.Clause.TheVariants as Kind;
ghost use Rattle.watch_map.specs.Watching.{AreTwoOrNone, is_literal_in};
ghost use Rattle.resolvo_queue.specs.Queue.{IsUnchanged};
ghost use Rattle.resolvo_queue.specs.WalkCounts.{owed, walks};
ghost use Rattle.watch_map.specs.ClauseList.{contents, literals_watched, two_or_none, is_full};
ghost use Rattle.resolvo_store.specs.Answers.{added};
ghost use Rattle.resolvo_store.specs.Command.{ClauseIs};
ghost use Rattle.resolvo_store.specs.Lists.{lists_of_loaded, stored_disjunctions, IsOneMore};
ghost use Rattle.resolvo_store.specs.Adding.{HasMore};
ghost use Rattle.resolvo_store.specs.Known.{knows_demand};
ghost use Rattle.resolvo_store.specs.Lists.{are_disjunctions_full, StoresMore};
ghost use Rattle.resolvo_store.specs.Registering.{StartsRight, packages_of, HasRequired, StillStandsOn};
ghost use Rattle.resolvo_store.specs.Walks.{MayOweFirst};

use crate::abstract_store::Abstract;
use crate::answers::Added;
use crate::store::ClauseStore;
use crate::store::known::{knows_parts, knows_requirement, knows_variable};
use crate::store::loading::lists;
use clauses::{Clause, Disjunction};
use decisions::{DecisionTracker, Literal};
use falsified_clauses::Demand;
use id_storage::Arena;
use providers::{DependencyProvider, Interner, Requirement, RequirementMap};
use resolvo_queue::DecideQueue;
use std::alloc::Allocator;
use typed_ids::{
    ClauseId, ConditionId, DenseIndex, DisjunctionId, StoreError, VariableId, VersionSetId,
    fits_in_memory,
};
use variables::{VariableLists, VariableMap};
use watch_map::{ClauseList, WatchedLiterals};

impl<D: DependencyProvider + Drop> ClauseStore<D> {
    ghost use Rattle.resolvo_store.specs.Command.{Disjunction as KeepDisjunction, DisjunctionIs, Requires};
    ghost use Rattle.resolvo_store.specs.Answers.{added, replied};
    ghost use Rattle.resolvo_store.specs.Walks.{OwesFirst};

    /// Keeps literals, all of which are false where this condition, or the part of it that they come of, holds. No
    /// literal is needed.
    pub fn disjunction(
        &mut self,
        literals: &[Literal],
        condition: ConditionId,
    ) -> Result<DisjunctionId, StoreError>
        ensures step { ⟦<D as Abstract>⟧.step self.old (KeepDisjunction literals.now condition)
            (replied DisjunctionIs result) self.new }
        ensures provider { self.new.provider ≡ self.old.provider }
        ensures queue_state { self.new.queue_state ≡ self.old.queue_state }
    {
        if !knows_parts(
            self.cache.provider(),
            self.variables.count(),
            literals,
            condition,
        ) {
            return Err(StoreError::UnknownId);
        }
        store_disjunction(self.alloc, &mut self.disjunctions, literals, condition)
    }

    /// Adds the clause that the parent, if true, requires one of the requirement's candidates, under the condition that
    /// all literals of the disjunction are false; and registers it for decisions.
    pub fn requires_clause(
        &mut self,
        parent: VariableId,
        requirement: Requirement,
        condition: Option<DisjunctionId>,
    ) -> Result<Added, StoreError>
        ensures step { ⟦<D as Abstract>⟧.step self.old (Requires parent requirement condition)
            (replied added result) self.new }
        ensures provider { self.new.provider ≡ self.old.provider }
        ensures queue_state { OwesFirst requirement self.old.queue_state self.new.queue_state }
    {
        let demand = Demand {
            parent,
            requirement,
            condition,
        };
        let provider = self.cache.provider();
        if !knows_required(provider, &self.variables, &self.disjunctions, &demand) {
            return Err(StoreError::UnknownId);
        }
        let Some(lists) = lists(&self.loaded, requirement) else {
            return Err(StoreError::NotLoaded);
        };
        let literals = literals_of(&self.disjunctions, demand.condition);
        if negates(literals, parent) {
            return Err(StoreError::NegatesParent);
        }
        if self.queue.is_full() {
            return Err(StoreError::TooManyClauses);
        }
        let required = required_by(&demand, lists.as_slice(), literals, &self.trail);
        let context = Context {
            alloc: self.alloc,
            provider,
            loaded: &self.loaded,
            disjunctions: &self.disjunctions,
            trail: &self.trail,
        };
        let first = self.clauses.len();
        let answer = register(&mut self.clauses, &mut self.queue, &context, required);
        self.clauses
            .forget_false_from(first, &mut self.marks, &self.trail);
        answer
    }
}

/// Whether all that a requires clause names is known.
fn knows_required<D: DependencyProvider>(
    provider: &D,
    variables: &VariableMap<D::NameId, D::SolvableId, D::Alloc>,
    disjunctions: &Arena<DisjunctionId, Disjunction<D::Alloc>, D::Alloc>,
    demand: &Demand,
) -> bool
    ensures { result ≡ knows_demand (D.universe provider.now) variables.now disjunctions.now demand.now }
{
    knows_variable(variables, demand.parent)
        && (knows_requirement(provider, demand.requirement)
            && knows_disjunction(disjunctions.len(), demand.condition))
}

/// Whether the disjunction, if there is one, is below this number.
fn knows_disjunction(disjunctions: usize, disjunction: Option<DisjunctionId>) -> bool
    ensures { result ≡ option_map_or (λ d. nat_lt d disjunctions) disjunction true }
{
    match disjunction {
        Some(id) => id.to_index() < disjunctions,
        None => true,
    }
}

/// A requires clause that is to be added and registered.
#[derive(Drop)]
struct Required<N> {
    parent: VariableId,
    requirement: Requirement,
    condition: Option<DisjunctionId>,
    clause: Clause<N>,
    watches: Option<WatchedLiterals>,
    is_conflict: bool,
}

/// The clause of a demand, with what it watches at first and whether it is a conflict, for whoever keeps these lists of
/// its requirement and these literals of its condition.
fn required_by<N, A: Allocator + Copy>(
    demand: &Demand,
    lists: &[Vec<VariableId, A>],
    literals: &[Literal],
    trail: &DecisionTracker<A>,
) -> Required<N>
    ensures parent { result.parent ≡ demand.now.parent }
    ensures requirement { result.requirement ≡ demand.now.requirement }
    ensures condition { result.condition ≡ demand.now.condition }
    ensures clause { result.clause ≡ Kind.Requires demand.now.parent demand.now.condition demand.now.requirement }
    ensures kept { StartsRight demand.now lists.now literals.now trail.now result }
{
    let Demand {
        parent,
        requirement,
        condition,
    } = *demand;
    let literals = match condition {
        Some(id) => Some((id, literals)),
        None => None,
    };
    let (watches, is_conflict, clause) = WatchedLiterals::requires_of_lists(
        parent,
        requirement,
        lists,
        &literals,
        trail,
    );
    Required {
        parent,
        requirement,
        condition,
        clause,
        watches,
        is_conflict,
    }
}

/// Keeps one disjunction more, and answers its id. Takes memory for a copy of the literals, and where there is no room
/// left.
fn store_disjunction<A: Allocator + Copy>(
    alloc: A,
    disjunctions: &mut Arena<DisjunctionId, Disjunction<A>, A>,
    literals: &[Literal],
    condition: ConditionId,
) -> Result<DisjunctionId, StoreError>
    ensures disjunction { IfOk result (λ d. d ≡ length (stored_disjunctions disjunctions.old)) }
    ensures ok { OnOk result (StoresMore literals.now condition disjunctions.old disjunctions.new) }
    ensures more { OnOk result (IsOneMore disjunctions.old disjunctions.new) }
    ensures err { OnErr result (disjunctions.new ≡ disjunctions.old) }
    ensures refused { IfErr result (IsGrowthRefusal (are_disjunctions_full disjunctions.old)) }
    ensures ids_out { IsTrue (are_disjunctions_full disjunctions.old) → result ≡ Err IdSpace }
{
    if !DisjunctionId::in_range(disjunctions.len()) {
        return Err(StoreError::IdSpace);
    }
    let literals = Vec::from_slice(alloc, literals)?;
    let id = disjunctions.alloc(Disjunction {
        literals,
        condition,
    })?;
    Ok(id)
}

/// What a store has that the clause refers to, and its trail.
#[derive(Drop)]
struct Context<'s, D: DependencyProvider> {
    alloc: D::Alloc,
    provider: &'s D,
    loaded: &'s RequirementMap<VariableLists<D::Alloc>, D::Alloc>,
    disjunctions: &'s Arena<DisjunctionId, Disjunction<D::Alloc>, D::Alloc>,
    trail: &'s DecisionTracker<D::Alloc>,
}

/// Registers the clause under the next id, and adds it; the answer says whether it is a conflict. The room for it is
/// made first.
fn register<D: DependencyProvider + Drop>(
    clauses: &mut ClauseList<D::NameId, D::Alloc>,
    queue: &mut DecideQueue<D>,
    context: &Context<'_, D>,
    required: Required<D::NameId>,
) -> Result<Added, StoreError>
    requires known { knows_requirement (D.universe context.now.provider.now) required.requirement ≡ true }
    requires loaded { IsSome (lookup (same_requirement required.requirement) context.now.loaded.now) }
    requires kept { IfSome required.condition (λ d. d < length context.now.disjunctions.now) }
    requires few { nat_le (2 ^ 32 - 1) (length queue.old.clauses) ≡ false }
    requires two { AreTwoOrNone (two_or_none (literals_watched required.watches)) }
    ensures added { IfOk result (λ a. added a ≡ ClauseIs (length (contents clauses.old).clauses) required.is_conflict) }
    ensures listed { OnOk result
        (HasMore (contents clauses.old) required.clause required.watches (contents clauses.new)) }
    ensures registered { OnOk result (HasRequired (D.universe context.now.provider.now) D.NameId.Set.has
        required (length (contents clauses.old).clauses) queue.old queue.new) }
    ensures unadded { OnErr result (contents clauses.new ≡ contents clauses.old) }
    ensures unregistered { OnErr result (IsUnchanged queue.old queue.new D.NameId.Set.has) }
    ensures walks { SameValues (walks queue.old) (walks queue.new) }
    ensures owed { MayOweFirst required.requirement (owed queue.old) (owed queue.new) }
    ensures stands { StillStandsOn (D.universe context.now.provider.now)
        context.now.loaded.now context.now.disjunctions.now queue.old queue.new }
    ensures refused { IfErr result (IsGrowthRefusal (is_full (contents clauses.old))) }
    ensures ids_out { IsTrue (is_full (contents clauses.old)) → result ≡ Err IdSpace }
{
    clauses.make_room(&required.watches)?;
    let id = ClauseId::from_index(clauses.len());
    queue_clause(queue, context, &required, id)?;
    let clause = clauses.push_reserved(required.clause, required.watches);
    Ok(Added {
        clause,
        is_conflict: required.is_conflict,
    })
}

/// Registers the clause under the id. The packages of its requirement's version sets go with it: that of the one set,
/// or a vector of those of a union.
fn queue_clause<D: DependencyProvider + Drop>(
    queue: &mut DecideQueue<D>,
    context: &Context<'_, D>,
    required: &Required<D::NameId>,
    clause_id: ClauseId,
) -> Result<(), StoreError>
    requires known { knows_requirement (D.universe context.now.provider.now) required.now.requirement ≡ true }
    requires loaded { IsSome (lookup (same_requirement required.now.requirement) context.now.loaded.now) }
    requires kept { IfSome required.now.condition (λ d. d < length context.now.disjunctions.now) }
    requires few { nat_le (2 ^ 32 - 1) (length queue.old.clauses) ≡ false }
    ensures registered { OnOk result (HasRequired (D.universe context.now.provider.now) D.NameId.Set.has
        required.now clause_id queue.old queue.new) }
    ensures unregistered { OnErr result (IsUnchanged queue.old queue.new D.NameId.Set.has) }
    ensures walks { SameValues (walks queue.old) (walks queue.new) }
    ensures owed { MayOweFirst required.now.requirement (owed queue.old) (owed queue.new) }
    ensures stands { StillStandsOn (D.universe context.now.provider.now)
        context.now.loaded.now context.now.disjunctions.now queue.old queue.new }
    ensures memory { IfErr result (λ e. e ≡ OutOfMemory) }
{
    match required.requirement {
        Requirement::Single(set) if fits_in_memory::<D::NameId>() => {
            let name = context.provider.version_set_name(set);
            queue_named(queue, context, required, clause_id, &[name])
        }
        _ => {
            let sets = required.requirement.version_sets(context.provider);
            let names = names_of_sets(context.alloc, context.provider, sets.as_slice())?;
            queue_named(queue, context, required, clause_id, names.as_slice())
        }
    }
}

/// Registers the clause under the id, with these packages.
fn queue_named<D: DependencyProvider + Drop>(
    queue: &mut DecideQueue<D>,
    context: &Context<'_, D>,
    required: &Required<D::NameId>,
    clause_id: ClauseId,
    names: &[D::NameId],
) -> Result<(), StoreError>
    requires named { names.now ≡ packages_of (D.universe context.now.provider.now) required.now.requirement }
    requires loaded { IsSome (lookup (same_requirement required.now.requirement) context.now.loaded.now) }
    requires kept { IfSome required.now.condition (λ d. d < length context.now.disjunctions.now) }
    requires few { nat_le (2 ^ 32 - 1) (length queue.old.clauses) ≡ false }
    ensures registered { OnOk result (HasRequired (D.universe context.now.provider.now) D.NameId.Set.has
        required.now clause_id queue.old queue.new) }
    ensures unregistered { OnErr result (IsUnchanged queue.old queue.new D.NameId.Set.has) }
    ensures walks { SameValues (walks queue.old) (walks queue.new) }
    ensures owed { MayOweFirst required.now.requirement (owed queue.old) (owed queue.new) }
    ensures stands { StillStandsOn (D.universe context.now.provider.now)
        context.now.loaded.now context.now.disjunctions.now queue.old queue.new }
    ensures memory { IfErr result (λ e. e ≡ OutOfMemory) }
{
    queue.register_clause(
        required.parent,
        required.requirement,
        required.condition,
        clause_id,
        names,
        context.disjunctions,
        context.trail.assigned_value(required.parent),
    )
}

/// The packages of version sets.
fn names_of_sets<D: DependencyProvider>(
    alloc: D::Alloc,
    provider: &D,
    sets: &[VersionSetId],
) -> Result<Vec<D::NameId, D::Alloc>, StoreError>
    requires { All (λ v. (D.universe provider.now).knows_set v ≡ true) sets.now }
    ensures ok { IfOk result (λ names. names.items ≡ map (D.universe provider.now).set_name sets.now) }
    ensures memory { IfErr result (λ e. e ≡ OutOfMemory) }
{
    let mut names = Vec::with_capacity(alloc, sets.len())?;
    for set in sets {
        names.push(provider.version_set_name(*set))?;
    }
    Ok(names)
}

/// The literals of a disjunction, none without one.
fn literals_of<'d, A: Allocator + Copy>(
    disjunctions: &'d Arena<DisjunctionId, Disjunction<A>, A>,
    condition: Option<DisjunctionId>,
) -> &'d [Literal]
    ensures { result.now ≡ condition_literals (stored_in [] [] disjunctions.now) condition }
{
    match condition {
        Some(id) if id.to_index() < disjunctions.len() => disjunctions[id].literals.as_slice(),
        _ => &[],
    }
}

/// Whether a variable's negative literal is one of these.
fn negates(literals: &[Literal], variable: VariableId) -> bool
    ensures { result ≡ is_literal_in (Neg variable) literals.now }
{
    has_literal(literals, Literal::new(variable, true))
}

/// Whether the literal is one of these.
fn has_literal(literals: &[Literal], literal: Literal) -> bool
    ensures { result ≡ is_literal_in literal literals.now }
{
    literals.iter().any(|other| literal == *other)
}
