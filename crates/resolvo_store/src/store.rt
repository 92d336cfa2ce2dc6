//! The clause store: what it keeps, and its calls.
//!
//! A search calls its methods, which are in a file for each group:
//!
//! - `store/loading.rt`: `variable`, `helper`, `load` and `lists`, which make variables and load requirements;
//! - `store/adding.rt`: those that add clauses of the other kinds, from `root` to `learnt`;
//! - `store/registering.rt`: `disjunction` and `requires_clause`, which keep a condition's literals, and add a clause
//!   and register it for decisions;
//! - `store/tracking.rt`: `at_most_once`, which tracks a variable and adds the clauses of that;
//! - `store/scoring.rt`: `bump`, `decay` and `set_standard`, which change scores and how the queue may look at them;
//! - `store/assigning.rt`: `assign`, `undo_last`, `undo_until` and `next_unpropagated`, which change the trail;
//! - `store/watching.rt`: `rewatch` and `watchers`, which move a watch and tell who watches;
//! - `store/saturating.rt`: `saturate`, which assigns what unit clauses imply;
//! - `store/deciding.rt`: `decide`, which changes nothing that is seen, and its two halves as calls of their own;
//! - `store/counting.rt`: how the counters of falsified clauses follow the trail;
//! - `store/reading.rt`: what is read beside that;
//! - `store/known.rt`: tests of what calls name.
//!
//! Each of these is a command too: [`ClauseStore::step`] hands a [`Command`] to its method, and makes a [`Reply`] of
//! what the method answers. Each method's contract is the step of its command. So a method takes back what it changed
//! before it was refused, as `load` gives up the variables that it made; or it makes room first, as `requires_clause`
//! does before it registers its clause. `saturate` alone does neither: what it forced follows from the clauses, and
//! stays.
ghost use Rattle.std.specs.Prelude.{◌≡◌, map, length, vec_len, IfOk, IfErr};
ghost use Rattle.typed_ids.specs.declared.error.StoreError.TheVariants.{OutOfMemory};
ghost use Rattle.decisions.specs.Trail.{val};
ghost use Rattle.providers.specs.declared.requirement.Requirement.{Requirement as ARequirement};
ghost use Rattle.resolvo_store.specs.Command.{reply_of, IsRefused};

mod adding;
mod assigning;
mod counting;
mod deciding;
mod known;
mod loading;
mod reading;
mod registering;
mod saturating;
mod scoring;
mod tracking;
mod watching;

use crate::abstract_store::Abstract;
use crate::command::Command;
use crate::reply::Reply;
use crate::replying::{
    assignment_reply, clause_reply, conflict_reply, disjunction_reply, done_reply, loaded_reply,
    next_reply, tracked_reply, undone_reply, variable_reply, watchers_reply,
};
use crate::store::counting::TrailCounters;
use at_most_once::NameTrackers;
use clauses::Disjunction;
use decisions::{Decision, DecisionTracker};
use id_maps::{IdMap, IdSet, Scores, SolverId};
use id_storage::Arena;
use providers::{DependencyProvider, RequirementMap};
use resolvo_queue::DecideQueue;
use solver_cache::SolverCache;
use std::alloc::Allocator;
use std::marker::Model;
use typed_ids::{DisjunctionId, StoreError, VariableId};
use variables::VariableMap;
use watch_map::{ClauseList, Marks};

/// A clause store over the packages of a provider.
///
/// A contract speaks of the abstract store, `⟦<D as Abstract>⟧.store self.now`. Whatever a command is refused for,
/// the store is as it was; a `Saturate` alone keeps the entries that it added before memory was refused.
pub struct ClauseStore<D: DependencyProvider> {
    /// The provider, with its queries and answers.
    cache: SolverCache<D>,
    variables: VariableMap<D::NameId, D::SolvableId, D::Alloc>,
    /// The candidates' variables of each loaded requirement, best first, one list a version set.
    loaded: RequirementMap<Vec<Vec<VariableId, D::Alloc>, D::Alloc>, D::Alloc>,
    /// The literals of conditions, under which clauses require.
    disjunctions: Arena<DisjunctionId, Disjunction<D::Alloc>, D::Alloc>,
    /// All clauses. Those of the kind `Requires` are in the queue too, under their ids.
    clauses: ClauseList<D::NameId, D::Alloc>,
    queue: DecideQueue<D>,
    /// The clauses of the queue, by the same numbers, and which of them are falsified. No part of the abstract store.
    falsified: TrailCounters<D::Alloc>,
    trail: DecisionTracker<D::Alloc>,
    /// From where on the trail a `Saturate` goes on. No part of the abstract store.
    marks: Marks<D::Alloc>,
    /// For each name the variables of which at most one may be true.
    trackers: NameTrackers<D::NameId, D::Alloc>,
    /// How active each package was. The queue knows each name with a score as hot.
    scores: Scores<D::NameId, D::Alloc>,
    alloc: D::Alloc,
}

/// Lets go of all parts. It is written out, and not derived, so that a crate which lets go of a store proves one call,
/// and not those of all parts and of their parts.
impl<D: DependencyProvider + Drop> Drop for ClauseStore<D> {
    fn drop(self) {
        let ClauseStore {
            cache: _cache,
            variables: _variables,
            loaded: _loaded,
            disjunctions: _disjunctions,
            clauses: _clauses,
            queue: _queue,
            falsified: _falsified,
            trail: _trail,
            marks: _marks,
            trackers: _trackers,
            scores: _scores,
            alloc: _,
        } = self;
    }
}

impl<D: DependencyProvider> Model for ClauseStore<D> {
    ghost use Rattle.resolvo_store.specs.QueueState.{queue_state_of};
    ghost use Rattle.resolvo_store.specs.Store.{StoreState, store_of};
    ghost use Rattle.resolvo_store.specs.Lists.{lists_of_loaded, stored_disjunctions, IsInOrder};
    ghost use Rattle.solver_cache.specs.Functions.{gathered};

    ghost Value = { StoreState D D.NameId D.SolvableId D.NameId.Scores };

    ghost view = { λ a. record {
      provider = a.cache.provider;
      origins = a.variables;
      loaded = lists_of_loaded a.loaded;
      disjunctions = stored_disjunctions a.disjunctions;
      learnt = a.clauses.learnt;
      clauses = a.clauses.clauses;
      records = a.clauses.records;
      lists = a.clauses.lists;
      requires = a.queue.clauses;
      trail = a.trail.entries;
      place = a.trail.place;
      trackers = a.trackers;
      scores = a.scores.map;
      queue_state = queue_state_of a.queue a.trail;
    } };

    ghost invariant = { λ a. IsInOrder D.NameId.Set.has
        (store_of (gathered D.NameId.eq D.SolvableId.eq D.NameId.Slots.is_too_large D.SolvableId.Slots.is_too_large
        D.SolvableId.Set.is_too_large D.NameId.are_many D.universe D.answers) D.NameId.Scores.value_at (record {
          provider = a.cache.provider;
          origins = a.variables;
          loaded = lists_of_loaded a.loaded;
          disjunctions = stored_disjunctions a.disjunctions;
          learnt = a.clauses.learnt;
          clauses = a.clauses.clauses;
          records = a.clauses.records;
          lists = a.clauses.lists;
          requires = a.queue.clauses;
          trail = a.trail.entries;
          place = a.trail.place;
          trackers = a.trackers;
          scores = a.scores.map;
          queue_state = queue_state_of a.queue a.trail;
        })) a.loaded a.disjunctions a.cache a.queue a.falsified a.trail a.marks };
}

impl<D: DependencyProvider + Drop> ClauseStore<D> {
    ghost use Rattle.resolvo_store.specs.Command.{command_of};
    ghost use Rattle.resolvo_store.specs.Store.{new_store};
    ghost use Rattle.resolvo_store.specs.Step.{Step, Run};
    ghost use Rattle.resolvo_store.specs.ForbidsTwo.{ForbidsTwo};
    ghost use Rattle.resolvo_store.specs.Sound.{IsSound};
    ghost use Rattle.resolvo_store.specs.QueueState.{owed};

    /// A store that has the root's variable, and nothing else.
    pub fn new(alloc: D::Alloc, provider: D) -> Result<Self, StoreError>
        ensures provider { IfOk result (λ s. s.provider ≡ provider) }
        ensures ok { IfOk result (λ s. ⟦<D as Abstract>⟧.store s ≡ new_store (⟦<D as Abstract>⟧.store s).provider) }
        ensures sound { IfOk result (λ s. IsSound (⟦<D as Abstract>⟧.store s)) }
        ensures owed { IfOk result (λ s. (r : ARequirement) → owed s.queue_state r ≡ 0) }
        ensures err { IfErr result (λ e. e ≡ OutOfMemory) }
    {
        let variables = VariableMap::new(alloc)?;
        let clauses = ClauseList::new(alloc)?;
        Ok(ClauseStore {
            cache: SolverCache::new(alloc, provider),
            variables,
            loaded: RequirementMap::new(alloc),
            disjunctions: Arena::new(alloc),
            clauses,
            queue: DecideQueue::new(alloc),
            falsified: TrailCounters::new(alloc),
            trail: DecisionTracker::new(alloc),
            marks: Marks::new(alloc),
            trackers: NameTrackers::new(alloc),
            scores: Scores::new(alloc),
            alloc,
        })
    }

    /// The provider of the packages.
    pub fn provider(&self) -> &D
        ensures { result.now ≡ self.now.provider }
    {
        self.cache.provider()
    }

    /// Obeys a command by its method, and answers it. A refusal is a reply too: it changes nothing, but for a
    /// `Saturate`, which keeps what it forced.
    pub fn step(&mut self, command: &Command<D::NameId, D::SolvableId, D::Alloc>) -> Reply<D::Alloc>
        ensures step { Step (⟦<D as Abstract>⟧.store self.old) (command_of command.now)
            (reply_of result) (⟦<D as Abstract>⟧.store self.new) }
        ensures refused { IsRefused (reply_of result) →
            ⟦<D as Abstract>⟧.refused self.old (command_of command.now) self.new }
        ensures provider { self.new.provider ≡ self.old.provider }
        ensures queue_state { ⟦<D as Abstract>⟧.queue_step self.old (command_of command.now) (reply_of result)
            self.new }
        ensures was_sound { IsSound (⟦<D as Abstract>⟧.store self.old) }
        ensures sound { IsSound (⟦<D as Abstract>⟧.store self.new) }
        ensures at_most_one { (name : D.NameId) → ForbidsTwo (⟦<D as Abstract>⟧.store self.new) name }
    {
        // What is true of each store is true of this one: a look at a field tells it.
        let _cache = &self.cache;
        self.dispatch(command)
    }

    /// Hands a command to its method, and makes a reply of what it answers.
    fn dispatch(&mut self, command: &Command<D::NameId, D::SolvableId, D::Alloc>) -> Reply<D::Alloc>
        ensures step { ⟦<D as Abstract>⟧.step self.old (command_of command.now) (reply_of result) self.new }
        ensures provider { self.new.provider ≡ self.old.provider }
        ensures queue_state { ⟦<D as Abstract>⟧.queue_step self.old (command_of command.now) (reply_of result)
            self.new }
    {
        match command {
            Command::Variable(solvable) => variable_reply(self.variable(*solvable)),
            Command::Helper(origin) => variable_reply(self.helper(*origin)),
            Command::Load(requirement) => loaded_reply(self.load_copied(*requirement)),
            Command::Requires(parent, requirement, condition) => {
                clause_reply(self.requires_clause(*parent, *requirement, *condition))
            }
            Command::Root
            | Command::Constrains(_, _, _)
            | Command::ConstrainsExcluded(_, _, _)
            | Command::ConstrainsParent(_, _, _)
            | Command::Lock(_, _)
            | Command::Exclude(_, _)
            | Command::AnyOf(_, _) => self.add_named(command),
            Command::Learnt(literals) => clause_reply(self.learnt(literals)),
            Command::Assign(variable, value, clause, level) => {
                let decision = Decision::new(*variable, *value, *clause);
                assignment_reply(self.assign(decision, *level))
            }
            Command::UndoLast => undone_reply(self.undo_last()),
            Command::UndoUntil(level) => {
                self.undo_until(*level);
                Reply::Undone(None)
            }
            Command::Unpropagated => Reply::Next(self.next_unpropagated()),
            Command::Rewatch(clause, from, to) => done_reply(self.rewatch(*clause, *from, *to)),
            Command::Watchers(literal) => watchers_reply(self.watchers(*literal)),
            Command::Saturate(level) => conflict_reply(self.saturate(*level)),
            Command::Decide => next_reply(self.decide()),
            Command::Disjunction(literals, condition) => {
                disjunction_reply(self.disjunction(literals, *condition))
            }
            Command::AtMostOnce(name, variable) => tracked_reply(self.at_most_once(
                *name, *variable,
            )),
            Command::Bump(name, amount) => done_reply(self.bump(*name, *amount)),
            Command::Decay(numerator, denominator) => done_reply(self.decay(
                *numerator,
                *denominator,
            )),
            Command::Standard(standard) => {
                self.set_standard(*standard);
                Reply::Done
            }
        }
    }

    /// Obeys commands in turn, and answers each. The room for the replies comes first: where that is refused, no
    /// command was obeyed. Any later refusal is a reply, and the commands after it are obeyed. A refused command
    /// changes nothing, but for a `Saturate`, which keeps what it forced.
    pub fn run(
        &mut self,
        commands: &[Command<D::NameId, D::SolvableId, D::Alloc>],
    ) -> Result<Vec<Reply<D::Alloc>, D::Alloc>, StoreError>
        ensures ok { IfOk result (λ replies. Run (⟦<D as Abstract>⟧.store self.old) (map command_of commands.now)
            (map reply_of replies.items) (⟦<D as Abstract>⟧.store self.new)) }
        ensures provider { self.new.provider ≡ self.old.provider }
        ensures one_each { IfOk result (λ replies. vec_len replies ≡ length commands.now) }
        ensures err { IfErr result (λ e. (e ≡ OutOfMemory) × ⟦<D as Abstract>⟧.same self.old self.new) }
        ensures sound { IsSound (⟦<D as Abstract>⟧.store self.new) }
        ensures at_most_one { (name : D.NameId) → ForbidsTwo (⟦<D as Abstract>⟧.store self.new) name }
    {
        let mut replies = Vec::with_capacity(self.alloc, commands.len())?;
        for command in commands {
            let reply = self.step(command);
            replies.push_reserved(reply);
        }
        Ok(replies)
    }

    /// The value of a variable, if it has one: that of its entry on the trail. Takes constant time.
    pub fn value(&self, variable: VariableId) -> Option<bool>
        ensures value { result ≡ val (⟦<D as Abstract>⟧.store self.now).trail variable }
        ensures sound { IsSound (⟦<D as Abstract>⟧.store self.now) }
    {
        self.trail.assigned_value(variable)
    }
}
