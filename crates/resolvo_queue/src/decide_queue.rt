//! The queue of requires clauses: which one is falsified, and what to decide next.
//!
//! A requires clause says: if its parent is true and its condition is met, one of its requirement's candidates, its
//! rows, is true. Until a row is true the clause is open. An open clause with undecided rows is eligible, and the first
//! of these is its frontier, the candidate to try; an open clause without any is falsified.
//!
//! Both questions go through the clauses in the order of the scan: parent by parent as the parents were first
//! registered, and each parent's clauses in the order of their registration. The decision is that of the first eligible
//! clause of the root, or if there is none, of all, unless a later one beats the best so far: with a higher score and
//! fewer undecided candidates. `docs/QUEUE.md` tells how the answer is found by few clauses and few walks of rows.
ghost use Rattle.std.specs.Prelude.{◌≡◌, ◌⊎◌, ◌+◌, ◌-◌, ◌≤◌, ◌<◌, ◌^◌, ◌↔◌, ◌≢◌};
ghost use Rattle.std.specs.Prelude.{[], length, All, IsTrue, IsOk};
ghost use Rattle.std.specs.Prelude.{IfSome, None, true, false, option_map, OnOk, OnErr, IfOk, IfErr};
ghost use Rattle.resolvo_queue.specs.Types.{IdSpace, IsGrowthRefusal, IsLargest, IsUpdate, nat_cmp, OutOfMemory};
ghost use Rattle.resolvo_queue.specs.Types.{SameValues, TooManyClauses, values_in};
ghost use Rattle.providers.specs.declared.requirement.Requirement.{Requirement as ARequirement};
ghost use Rattle.resolvo_queue.specs.Parts.{ColdLack};
ghost use Rattle.resolvo_queue.specs.Pick.{pick, decided, DecidesUnbeaten};
ghost use Rattle.resolvo_queue.specs.Queue.{AgreesBelow, AreNamed, HasNoneEligible, HasTrail, IsNew, IsRegistered};
ghost use Rattle.resolvo_queue.specs.Queue.{IsSynced, IsUnchanged, OnlyHotScore, SameClauses, SameSync, StandsOn};
ghost use Rattle.resolvo_queue.specs.Queue.{StandsStill, StandsWithListed, falsified_in, offers_in, values_of};
ghost use Rattle.resolvo_queue.specs.References.{CanWalk, References, references};
ghost use Rattle.resolvo_queue.specs.WalkCounts.{OwesMoreAmong, WalksOnce, changed_from, owed, walks};

mod reading;

use crate::clauses_by_name::ClausesByName;
use crate::condition::condition_of;
use crate::deciding::next_offer;
use crate::due::wake_due;
use crate::names::{NameLog, has_hot_name};
use crate::offer::decision_of;
use crate::questions::Question;
use crate::queue_decision::QueueDecision;
use crate::requires_clause::RequiresClause;
use crate::row_reader::RowReader;
use crate::tracked_clauses::TrackedClauses;
use clauses::Disjunction;
use decisions::{Decision, DecisionMap};
use id_maps::{IdSet, SolverId};
use id_storage::Arena;
use providers::{DependencyProvider, Requirement};
use std::alloc::Allocator;
use std::marker::Model;
use typed_ids::{ClauseId, DisjunctionId, StoreError, VariableId};

/// How many clauses there may be: one for each clause id.
const MAX_CLAUSES: usize = u32::MAX as usize;

/// The requires clauses of a store, and what it was told of since. A contract sees a `Queue`, by its fields one by one.
#[derive(Drop)]
pub struct DecideQueue<D: DependencyProvider> {
    tracked: TrackedClauses<D::Alloc>,
    /// The names that were handed in with each clause. It takes no bytes.
    names: NameLog<D::NameId>,
    /// Who has a name. Numbers of clauses that were refused may be among them.
    by_name: ClausesByName<D::NameId, D::Alloc>,
    hot_names: <D::NameId as SolverId<D::Alloc>>::Set,
    /// How many clauses are queued where they may be eligible. Those that came later are woken by the next decision.
    woken: usize,
}

impl<D: DependencyProvider> Model for DecideQueue<D> {
    ghost use Rattle.std.specs.Prelude.{map};
    ghost use Rattle.resolvo_queue.specs.Parts.ByName.{AreEntered, StandsUnder};
    ghost use Rattle.resolvo_queue.specs.Queue.{IsWellFormed, Queue, queue_of};

    ghost Value = { Queue D.NameId D.NameId.Set };

    ghost view = { λ q. queue_of q.tracked q.names.items q.hot_names q.woken };

    ghost invariant = { λ q. IsWellFormed D.NameId.Set.has
        (queue_of q.tracked q.names.items q.hot_names q.woken)
        × AreEntered D.NameId.Slots.is_too_large (StandsUnder D.NameId.Slots.value_at q.by_name) q.names.items };
}

impl<D: DependencyProvider> DecideQueue<D> {
    /// The queue without clauses, for the standard parameters of the scores. Takes no memory.
    pub fn new(alloc: D::Alloc) -> Self
        ensures new { IsNew D.NameId.Set.has result }
        ensures owed { (r : ARequirement) → owed result r ≡ 0 }
        ensures stands { (refs : References D.NameId D.SolvableId D.Alloc) → StandsOn refs result }
    {
        DecideQueue {
            tracked: TrackedClauses::new(alloc),
            names: NameLog::new(),
            by_name: ClausesByName::new(alloc),
            hot_names: <<D::NameId as SolverId<D::Alloc>>::Set as IdSet<D::NameId, D::Alloc>>::new(
                alloc,
            ),
            woken: 0,
        }
    }

    /// How many clauses there are.
    pub fn len(&self) -> usize
        ensures value { result ≡ length self.now.clauses }
        ensures few { result < 2 ^ 32 }
    {
        self.tracked.index.clauses.len()
    }

    /// Whether there are no clauses.
    pub fn is_empty(&self) -> bool
        ensures { IsTrue result ↔ (self.now.clauses ≡ []) }
    {
        self.len() == 0
    }

    /// Whether there are as many clauses as there may be.
    pub fn is_full(&self) -> bool
        ensures { IsTrue result ↔ (2 ^ 32 - 1 ≤ length self.now.clauses) }
    {
        self.len() >= MAX_CLAUSES
    }

    /// Tells whether scores are raised and lowered by the standard parameters, under which the queue looks at fewer
    /// clauses. The answers are the same.
    pub fn set_standard_activity_params(&mut self, standard: bool)
        ensures unchanged { IsUnchanged self.old self.new D.NameId.Set.has }
        ensures walks { SameValues (walks self.old) (walks self.new) }
        ensures owed { SameValues (owed self.old) (owed self.new) }
        ensures stands { StandsStill D.SolvableId D.Alloc self.old self.new }
    {
        self.tracked.only_hot = standard;
    }

    /// Puts a clause after those that are there. With it come the packages of its requirement's version sets, in order,
    /// and the value of its parent, which nothing depends on: the next decision looks at it anew.
    ///
    /// Refused, it changes nothing that an answer can show. Constant beside the names, the condition and the maps.
    pub fn register_clause(
        &mut self,
        parent: VariableId,
        requirement: Requirement,
        condition: Option<DisjunctionId>,
        clause_id: ClauseId,
        names: &[D::NameId],
        disjunctions: &Arena<DisjunctionId, Disjunction<D::Alloc>, D::Alloc>,
        parent_value: Option<bool>,
    ) -> Result<(), StoreError>
        requires { IfSome condition (λ d. d < length disjunctions.now) }
        ensures ok { OnOk result (IsRegistered D.NameId.Set.has
            (record { parent = parent; requirement = requirement; condition = condition; clause_id = clause_id })
            names.now self.old self.new) }
        ensures err { OnErr result (IsUnchanged self.old self.new D.NameId.Set.has) }
        ensures full { (result ≡ Err TooManyClauses) ↔ (2 ^ 32 - 1 ≤ length self.old.clauses) }
        ensures memory { IfErr result (λ e. e ≢ TooManyClauses → e ≡ OutOfMemory) }

        // Nothing is walked, whatever the result. One walk is owed of a requirement that is new; it may be owed also
        // where the clause was refused, and then isn't owed twice.
        ensures walks { SameValues (walks self.old) (walks self.new) }
        ensures owed { (r : ARequirement) → (owed self.new r ≡ owed self.old r)
            ⊎ ((r ≡ requirement) × (owed self.old r ≡ 0) × (owed self.new r ≡ 1)) }
        ensures owes_one { OnOk result (1 ≤ owed self.new requirement) }

        // What the queue's clauses name is there as before, where the requirement has lists.
        ensures stands { StandsWithListed D.SolvableId requirement disjunctions.now self.old self.new }
    {
        let _ = parent_value;
        if self.is_full() {
            return Err(StoreError::TooManyClauses);
        }
        let clause = RequiresClause {
            parent,
            requirement,
            condition,
            clause_id,
        };
        let number = self.tracked.index.clauses.len() as u32;
        self.by_name.enter(names, number)?;
        let is_hot = has_hot_name(&self.hot_names, names);
        let literals = condition_of(&condition, disjunctions);
        self.tracked.register(&clause, literals, is_hot)?;
        self.names = self.names.and(names);
        Ok(())
    }

    /// Tells that a package has a score. A name stays hot. Refused, it changes nothing that an answer can show. The
    /// first time for a name it is linear in the clauses that have it.
    pub fn mark_name_hot(&mut self, name: D::NameId) -> Result<(), StoreError>
        ensures ok { OnOk result (IsUpdate (D.NameId.Set.has self.old.hot) name true (D.NameId.Set.has self.new.hot)) }
        ensures err { OnErr result (SameValues (D.NameId.Set.has self.old.hot) (D.NameId.Set.has self.new.hot)) }
        ensures clauses { SameClauses self.old self.new }
        ensures synced { SameSync self.old self.new }
        ensures refused { IfErr result (IsGrowthRefusal (D.NameId.Set.is_too_large name)) }
        ensures too_large { IsTrue (D.NameId.Set.is_too_large name) → result ≡ Err IdSpace }
        ensures walks { SameValues (walks self.old) (walks self.new) }
        ensures owed { SameValues (owed self.old) (owed self.new) }
        ensures stands { StandsStill D.SolvableId D.Alloc self.old self.new }
    {
        self.heat(name)?;
        self.hot_names.insert(name)?;
        Ok(())
    }

    /// Makes the clauses hot that have the name, unless it is hot already. A name that no set can hold isn't refused
    /// here: no clause is found by it.
    fn heat(&mut self, name: D::NameId) -> Result<(), StoreError>
        ensures lacks { OnOk result (D.NameId.Set.is_too_large name ≡ false →
            ColdLack name self.new.names self.new.inside.clauses) }
        ensures clauses { SameClauses self.old self.new }
        ensures synced { SameSync self.old self.new }
        ensures hot { self.new.hot ≡ self.old.hot }
        ensures records { self.new.inside.requirements ≡ self.old.inside.requirements }
        ensures memory { IfErr result (λ e. e ≡ OutOfMemory) }
        ensures fits { IsTrue (D.NameId.Set.is_too_large name) → IsOk result }
        ensures stands { StandsStill D.SolvableId D.Alloc self.old self.new }
    {
        if self.hot_names.contains(name) {
            return Ok(());
        }
        self.tracked.heat_clauses(&self.by_name, name)
    }

    /// Brings the queue up to date with a trail, whose values the map has. The trail is that of the last accepted call
    /// below the floor; after a refused call the floor may be any.
    ///
    /// A refusal is remembered: no decision may be asked for until a later call is accepted. Linear in the decisions
    /// from the floor on, in both trails, and in the parents' clauses, the conditions and the requirements that have
    /// their variables; after a refused call in all clauses.
    pub fn sync(
        &mut self,
        floor: usize,
        trail: &[Decision],
        map: &DecisionMap<D::Alloc>,
    ) -> Result<(), StoreError>
        requires values { SameValues (values_of trail.now) (values_in map.now) }
        requires agrees { self.old.must_start_anew ≡ false → AgreesBelow floor trail.now self.old }
        ensures ok { OnOk result (HasTrail trail.now self.new) }
        ensures err { OnErr result (self.new.must_start_anew ≡ true) }
        ensures clauses { SameClauses self.old self.new }
        ensures hot { SameValues (D.NameId.Set.has self.old.hot) (D.NameId.Set.has self.new.hot) }
        ensures memory { IfErr result (λ e. e ≡ OutOfMemory) }
        ensures stands { StandsStill D.SolvableId D.Alloc self.old self.new }

        // Nothing is walked, whatever the result, and at most one walk more is owed of each requirement. Unless the
        // last sync was refused, none more is owed where no row has the variable of a decision from the floor on, in
        // either trail.
        ensures walks { SameValues (walks self.old) (walks self.new) }
        ensures owed { (r : ARequirement) → owed self.new r ≤ owed self.old r + 1 }
        ensures owed_still { let changed = changed_from floor trail.now self.old in
            self.old.must_start_anew ≡ false → OwesMoreAmong D.SolvableId D.Alloc changed self.old self.new }
    {
        let floor = floor.min(trail.len()).min(self.tracked.trail.len());
        self.tracked.sync(self.woken, floor, trail, map)
    }

    /// The decision to take where no clause is falsified, which [`DecideQueue::falsified`] tells: that of an eligible
    /// clause which no other one beats. The scores are the packages', and the largest of them is handed in.
    ///
    /// A refusal leaves the clauses, the trail and the hot names as they were, and the reader its walks. Linear in the
    /// clauses that came since the last call, in the literals of conditions in which variables changed, in the clauses
    /// under those that are met, in the queued clauses that turn out not to be eligible, which leave the queue, in the
    /// hot ones behind the first that is, and in the rows of their requirements of which nothing was known.
    pub fn next_decision<'q>(
        &mut self,
        map: &'q DecisionMap<D::Alloc>,
        reader: &mut RowReader<'_, D::Alloc>,
        disjunctions: &'q Arena<DisjunctionId, Disjunction<D::Alloc>, D::Alloc>,
        scores: &'q <D::NameId as SolverId<D::Alloc>>::Scores,
        largest: u64,
        provider: &'q D,
    ) -> Result<Option<QueueDecision>, StoreError>
        requires synced { IsSynced (values_in map.now) self.old }
        requires stands { StandsOn (references (D.universe provider.now) reader.old.lists disjunctions.now) self.old }
        requires walkable { All (CanWalk (references (D.universe provider.now) reader.old.lists disjunctions.now))
            self.old.clauses }
        requires named { AreNamed (D.universe provider.now) self.old }
        requires hot { OnlyHotScore D.NameId.Set.has (D.NameId.Scores.value_at scores.now) self.old }
        requires largest { IsLargest nat_cmp 0 (D.NameId.Scores.value_at scores.now) largest }
        requires none_falsified { let refs = references (D.universe provider.now) reader.old.lists disjunctions.now in
            falsified_in refs (values_in map.now) self.old ≡ None }
        ensures picked { let refs = references (D.universe provider.now) reader.old.lists disjunctions.now in
            let offers = offers_in refs (values_in map.now) self.old (D.NameId.Scores.value_at scores.now) in
            IfOk result (λ decision. decision ≡ option_map decided (pick offers)) }
        ensures none { let refs = references (D.universe provider.now) reader.old.lists disjunctions.now in
            IfOk result (λ decision. (decision ≡ None) ↔ HasNoneEligible refs (values_in map.now) self.old) }
        ensures unbeaten { let refs = references (D.universe provider.now) reader.old.lists disjunctions.now in
            let offers = offers_in refs (values_in map.now) self.old (D.NameId.Scores.value_at scores.now) in
            IfOk result (DecidesUnbeaten offers) }
        ensures memory { IfErr result (λ e. e ≡ OutOfMemory) }
        ensures unchanged { IsUnchanged self.old self.new D.NameId.Set.has }
        ensures lists { reader.new.lists ≡ reader.old.lists }
        ensures stands { StandsOn (references (D.universe provider.now) reader.old.lists disjunctions.now) self.new }

        // Whatever the result, the requirements that came to the reader's log were walked once each, and no walk more
        // is owed.
        ensures walks { WalksOnce self.old.inside.requirements self.new.inside.requirements reader.old.walked
            reader.new.walked }
        ensures owed { SameValues (owed self.old) (owed self.new) }
    {
        let question = Question {
            map,
            disjunctions,
            scores,
            largest,
            interner: provider,
        };
        wake_due(
            &mut self.tracked.queued,
            &mut self.tracked.noted,
            &self.tracked.index,
            self.woken,
            &question,
        )?;
        self.woken = self.tracked.index.clauses.len();
        decision_of(next_offer(&mut self.tracked, reader, &question))
    }
}
