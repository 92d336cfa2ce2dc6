//! The counters of falsified clauses, and how they follow the trail.
ghost use Rattle.std.specs.Prelude.{◌≡◌, ◌+◌, ◌^◌, ◌<◌, ◌≤◌, [], false, length, IsTrue, nat_lt};
ghost use Rattle.std.specs.Prelude.{All, IsSome, IfSome, IfOk, IfErr, OnOk};
ghost use Rattle.std.specs.Map.{lookup};
ghost use Rattle.typed_ids.specs.declared.error.StoreError.TheVariants.{OutOfMemory};
ghost use Rattle.providers.specs.Requirement.{same_requirement};
ghost use Rattle.decisions.specs.Trail.{undo_last, undo_until};
ghost use Rattle.clauses.specs.declared.disjunction.Disjunction.{Disjunction};
ghost use Rattle.falsified_clauses.specs.Clauses.{counted};
ghost use Rattle.falsified_clauses.specs.Counts.{CanAdd, Counts};
ghost use Rattle.falsified_clauses.specs.Falsified.{IsFirstFalsified};
ghost use Rattle.resolvo_store.specs.Counted.{AreCounted, CountsNothing, FollowsMore, FollowsOn, IsThere};
ghost use Rattle.resolvo_store.specs.Counted.{MakesReady, StillFollows, counted_now, false_literal};

use clauses::Disjunction;
use decisions::{Decision, DecisionTracker, Literal};
use falsified_clauses::{ClauseGroups, Demand, FalsifiedClauses};
use id_storage::Arena;
use providers::{DependencyProvider, RequirementMap};
use resolvo_queue::DecideQueue;
use std::alloc::Allocator;
use std::marker::Model;
use typed_ids::{DisjunctionId, StoreError};
use variables::VariableLists;

/// The counters of a store's requires clauses, how many clauses they have counted, the first ones, and how many entries
/// of the trail, the oldest. What came since is counted when somebody asks. What is taken back before that never is.
#[derive(Drop)]
pub(crate) struct TrailCounters<A: Allocator + Copy> {
    clauses: FalsifiedClauses<A>,
    known: usize,
    counted: usize,
}

impl<A: Allocator + Copy> Model for TrailCounters<A> {
    ghost use Rattle.resolvo_store.specs.Counted.{Counting};

    ghost Value = { Counting };

    ghost view = { λ f. record { clauses = f.clauses; known = f.known; counted = f.counted } };
}

impl<A: Allocator + Copy> TrailCounters<A> {
    /// No clause, and no entry is counted. Takes no memory.
    pub(super) fn new(alloc: A) -> Self
        ensures none { (result.known ≡ 0) × (result.counted ≡ 0) }
        ensures clauses { CountsNothing A result.clauses }
    {
        TrailCounters {
            clauses: FalsifiedClauses::new(alloc),
            known: 0,
            counted: 0,
        }
    }

    /// Counts the entries of the trail that aren't counted yet. Takes no memory.
    fn catch_up(&mut self, trail: &DecisionTracker<A>)
        ensures all { self.new.counted ≡ length trail.now.entries }
        ensures known { self.new.known ≡ self.old.known }
        ensures follows { FollowsOn A self.old trail.now self.new trail.now }
    {
        let decisions = trail.assignments();
        for index in self.counted..decisions.len() {
            self.clauses.make_false(false_literal(decisions[index]));
        }
        self.counted = decisions.len();
    }

    /// What [`FalsifiedClauses::prepare`] does, under the whole trail.
    fn prepare(
        &mut self,
        clause: Demand,
        lists: &RequirementMap<VariableLists<A>, A>,
        disjunctions: &Arena<DisjunctionId, Disjunction<A>, A>,
        trail: &DecisionTracker<A>,
    ) -> Result<ClauseGroups, StoreError>
        requires requirement { IsSome (lookup (same_requirement clause.requirement) lists.now) }
        requires condition { IfSome clause.condition (λ d. d < length disjunctions.now) }
        ensures same { StillFollows lists.now disjunctions.now trail.now self.old self.new }
        ensures ready { IfOk result (MakesReady lists.now disjunctions.now trail.now self.old self.new clause) }
        ensures known { (self.new.known ≡ self.old.known) × (self.new.counted ≡ length trail.now.entries) }
        ensures memory { IfErr result (λ e. e ≡ OutOfMemory) }
    {
        self.catch_up(trail);
        self.clauses
            .prepare(clause, lists, disjunctions, trail.map())
    }

    /// Adds the clause of which these are the groups, and whose parent has this first clause. Takes no memory.
    fn add(&mut self, groups: ClauseGroups, first_of_parent: u32)
        requires groups { CanAdd self.old.clauses groups }
        requires few { self.old.known < 2 ^ 32 }
        ensures known { (self.new.known ≡ self.old.known + 1) × (self.new.counted ≡ self.old.counted) }
        ensures follows { FollowsMore A self.old self.new groups first_of_parent }
    {
        self.clauses.add(groups, first_of_parent);
        self.known += 1;
    }

    /// Whether of this many clauses some aren't counted yet.
    fn is_behind(&self, clauses: usize) -> bool
        ensures { result ≡ nat_lt self.now.known clauses }
    {
        self.known < clauses
    }

    /// No longer counts the trail's newest entry, which is taken back next. Takes no memory.
    pub(super) fn uncount_newest(&mut self, trail: &DecisionTracker<A>)
        ensures known { self.new.known ≡ self.old.known }
        ensures follows { FollowsOn A self.old trail.now self.new (undo_last trail.now) }
    {
        let len = trail.assignments().len();
        if len > 0 && self.counted == len {
            self.uncount(trail);
        }
    }

    /// No longer counts the entries that an undo to this level takes back next. Takes no memory.
    pub(super) fn uncount_above(&mut self, trail: &DecisionTracker<A>, level: u32)
        requires { self.old.counted ≤ length trail.now.entries }
        ensures known { self.new.known ≡ self.old.known }
        ensures follows { FollowsOn A self.old trail.now self.new (undo_until level trail.now) }
    {
        while self.is_above(trail, level) {
            self.uncount(trail);
        }
    }

    /// Whether an undo to this level may take back the newest entry that is counted.
    fn is_above(&self, trail: &DecisionTracker<A>, level: u32) -> bool
        requires { self.now.counted ≤ length trail.now.entries }
        ensures some { IsTrue result → 0 < self.now.counted }
        ensures kept { result ≡ false → self.now.counted ≤ length (undo_until level trail.now).entries }
    {
        if self.counted == 0 {
            return false;
        }
        let newest = trail.assignments()[self.counted - 1];
        trail.level(newest.variable) > level
    }

    /// No longer counts the newest entry that is counted, of which there must be one.
    fn uncount(&mut self, trail: &DecisionTracker<A>)
        requires some { 0 < self.old.counted }
        requires within { self.old.counted ≤ length trail.now.entries }
        ensures counted { self.new.counted + 1 ≡ self.old.counted }
        ensures known { self.new.known ≡ self.old.known }
        ensures follows { FollowsOn A self.old trail.now self.new trail.now }
    {
        let index = self.counted - 1;
        let newest = trail.assignments()[index];
        self.clauses.make_undecided(false_literal(newest));
        self.counted = index;
    }
}

/// The number of the clause that is falsified under the whole trail and comes first. What came since it was asked last
/// is counted; refused, some of that may be.
pub(super) fn first_falsified<D: DependencyProvider>(
    counters: &mut TrailCounters<D::Alloc>,
    queue: &DecideQueue<D>,
    lists: &RequirementMap<VariableLists<D::Alloc>, D::Alloc>,
    disjunctions: &Arena<DisjunctionId, Disjunction<D::Alloc>, D::Alloc>,
    trail: &DecisionTracker<D::Alloc>,
) -> Result<Option<u32>, StoreError>
    requires there { All (IsThere lists.now disjunctions.now) queue.now.clauses }
    requires counted { AreCounted counters.old queue.now.clauses trail.now.entries lists.now disjunctions.now }
    ensures counted { AreCounted counters.new queue.now.clauses trail.now.entries lists.now disjunctions.now }
    ensures first { IfOk result (IsFirstFalsified
        (counted_now lists.now disjunctions.now trail.now queue.now.clauses)) }
    ensures memory { IfErr result (λ e. e ≡ OutOfMemory) }
{
    counters.catch_up(trail);
    while counters.is_behind(queue.len()) {
        count_next(counters, queue, lists, disjunctions, trail)?;
    }
    Ok(counters.clauses.first())
}

/// Counts the first clause that isn't counted yet.
fn count_next<D: DependencyProvider>(
    counters: &mut TrailCounters<D::Alloc>,
    queue: &DecideQueue<D>,
    lists: &RequirementMap<VariableLists<D::Alloc>, D::Alloc>,
    disjunctions: &Arena<DisjunctionId, Disjunction<D::Alloc>, D::Alloc>,
    trail: &DecisionTracker<D::Alloc>,
) -> Result<(), StoreError>
    requires some { counters.old.known < length queue.now.clauses }
    requires few { length queue.now.clauses < 2 ^ 32 }
    requires there { All (IsThere lists.now disjunctions.now) queue.now.clauses }
    requires counted { AreCounted counters.old queue.now.clauses trail.now.entries lists.now disjunctions.now }
    ensures counted { AreCounted counters.new queue.now.clauses trail.now.entries lists.now disjunctions.now }
    ensures more { OnOk result (counters.new.known ≡ counters.old.known + 1) }
    ensures all { counters.new.counted ≡ length trail.now.entries }
    ensures memory { IfErr result (λ e. e ≡ OutOfMemory) }
{
    let Some(clause) = queue.clause(counters.known) else {
        unreachable!()
    };
    let demand = Demand {
        parent: clause.parent,
        requirement: clause.requirement,
        condition: clause.condition,
    };
    let groups = counters.prepare(demand, lists, disjunctions, trail)?;
    counters.add(groups, queue.first_of(clause.parent));
    Ok(())
}

/// The literal that the decision makes false.
fn false_literal(decision: Decision) -> Literal
    ensures { result ≡ false_literal decision }
{
    Literal::new(decision.variable, decision.value)
}
