//! The commands that add clauses of any kind but `Requires`.
ghost use Rattle.std.specs.Prelude.{◌≡◌, ◌<◌, true, false, length, Err, None, IsTrue, IfSome, IfOk, OnOk, OnErr, IfErr};
ghost use Rattle.typed_ids.specs.declared.error.StoreError.TheVariants.{IdSpace};
ghost use Rattle.typed_ids.specs.Refusals.{IsGrowthRefusal};
ghost use Rattle.decisions.specs.Trail.{val};
ghost use Rattle.clauses.specs.Clauses.{StoredLiterals, first_watches, is_conflict};
ghost use Rattle.watch_map.specs.Watching.{AreTwoOrNone};
ghost use Rattle.watch_map.specs.ClauseList.{contents, literals_watched, two_or_none, is_full, is_learnt_full};
ghost use Rattle.watch_map.specs.ClauseList.{with_learnt};
ghost use Rattle.resolvo_store.specs.Adding.{adding, is_direct, names_clause, names_known};
ghost use Rattle.resolvo_store.specs.Answers.{added};
ghost use Rattle.resolvo_store.specs.Command.{ClauseIs, command_of, reply_of};
ghost use Rattle.resolvo_store.specs.Refusals.{is_bad_learnt};
ghost use Rattle.resolvo_store.specs.Adding.{HasMore};

use crate::abstract_store::Abstract;
use crate::answers::Added;
use crate::command::Command;
use crate::reply::Reply;
use crate::replying::clause_reply;
use crate::store::ClauseStore;
use crate::store::known::{are_below, knows_literals};
use clauses::Clause;
use decisions::{DecisionTracker, Literal};
use providers::{DependencyProvider, Interner};
use std::alloc::Allocator;
use typed_ids::{DenseIndex, StoreError, StringId, VariableId, VersionSetId};
use watch_map::{ClauseList, WatchedLiterals};

impl<D: DependencyProvider + Drop> ClauseStore<D> {
    ghost use Rattle.resolvo_store.specs.Command.{Root, Constrains, ConstrainsExcluded, ConstrainsParent, Lock};
    ghost use Rattle.resolvo_store.specs.Command.{Exclude, AnyOf, Learnt};
    ghost use Rattle.resolvo_store.specs.Answers.{added, replied};

    /// Adds the clause that the root is true.
    pub fn root(&mut self) -> Result<Added, StoreError>
        ensures step { ⟦<D as Abstract>⟧.step self.old Root (replied added result) self.new }
        ensures provider { self.new.provider ≡ self.old.provider }
        ensures queue_state { self.new.queue_state ≡ self.old.queue_state }
    {
        self.add(Clause::InstallRoot)
    }

    /// Adds the clause that the parent, if true, forbids the other variable, which the version set doesn't hold.
    pub fn constrains(
        &mut self,
        parent: VariableId,
        forbidden: VariableId,
        set: VersionSetId,
    ) -> Result<Added, StoreError>
        ensures step { ⟦<D as Abstract>⟧.step self.old (Constrains parent forbidden set)
            (replied added result) self.new }
        ensures provider { self.new.provider ≡ self.old.provider }
        ensures queue_state { self.new.queue_state ≡ self.old.queue_state }
    {
        self.add(Clause::Constrains(parent, forbidden, set))
    }

    /// Adds the clause that a candidate outside the version set, if true, makes the variable true that stands for all
    /// of them.
    pub fn constrains_excluded(
        &mut self,
        candidate: VariableId,
        aux: VariableId,
        set: VersionSetId,
    ) -> Result<Added, StoreError>
        ensures step { ⟦<D as Abstract>⟧.step self.old (ConstrainsExcluded candidate aux set)
            (replied added result) self.new }
        ensures provider { self.new.provider ≡ self.old.provider }
        ensures queue_state { self.new.queue_state ≡ self.old.queue_state }
    {
        self.add(Clause::ConstrainsExcluded(candidate, aux, set))
    }

    /// Adds the clause that the parent, if true, forbids the variable that stands for all candidates outside the
    /// version set.
    pub fn constrains_parent(
        &mut self,
        parent: VariableId,
        aux: VariableId,
        set: VersionSetId,
    ) -> Result<Added, StoreError>
        ensures step { ⟦<D as Abstract>⟧.step self.old (ConstrainsParent parent aux set)
            (replied added result) self.new }
        ensures provider { self.new.provider ≡ self.old.provider }
        ensures queue_state { self.new.queue_state ≡ self.old.queue_state }
    {
        self.add(Clause::ConstrainsParent(parent, aux, set))
    }

    /// Adds the clause that, the first variable being locked, the other one isn't true where the root is.
    pub fn lock(&mut self, locked: VariableId, other: VariableId) -> Result<Added, StoreError>
        ensures step { ⟦<D as Abstract>⟧.step self.old (Lock locked other) (replied added result) self.new }
        ensures provider { self.new.provider ≡ self.old.provider }
        ensures queue_state { self.new.queue_state ≡ self.old.queue_state }
    {
        self.add(Clause::Lock(locked, other))
    }

    /// Adds the clause that the variable isn't true, for the reason that the string says.
    pub fn exclude(&mut self, variable: VariableId, reason: StringId) -> Result<Added, StoreError>
        ensures step { ⟦<D as Abstract>⟧.step self.old (Exclude variable reason) (replied added result) self.new }
        ensures provider { self.new.provider ≡ self.old.provider }
        ensures queue_state { self.new.queue_state ≡ self.old.queue_state }
    {
        self.add(Clause::Excluded(variable, reason))
    }

    /// Adds the clause that the first variable is true where the other one is.
    pub fn any_of(&mut self, selected: VariableId, other: VariableId) -> Result<Added, StoreError>
        ensures step { ⟦<D as Abstract>⟧.step self.old (AnyOf selected other) (replied added result) self.new }
        ensures provider { self.new.provider ≡ self.old.provider }
        ensures queue_state { self.new.queue_state ≡ self.old.queue_state }
    {
        self.add(Clause::AnyOf(selected, other))
    }

    /// Adds the clause that a command names whole. It is apart from `dispatch` so that no other command pays for it.
    #[inline(never)]
    pub(super) fn add_named(
        &mut self,
        command: &Command<D::NameId, D::SolvableId, D::Alloc>,
    ) -> Reply<D::Alloc>
        requires { names_clause (command_of command.now) ≡ true }
        ensures step { ⟦<D as Abstract>⟧.step self.old (command_of command.now) (reply_of result) self.new }
        ensures provider { self.new.provider ≡ self.old.provider }
        ensures queue_state { self.new.queue_state ≡ self.old.queue_state }
    {
        match clause_named(command) {
            Some(clause) => clause_reply(self.add(clause)),
            None => unreachable!(),
        }
    }

    /// Adds a clause that its command names whole: one that is neither registered for decisions, nor tracked, nor
    /// learnt.
    fn add(&mut self, clause: Clause<D::NameId>) -> Result<Added, StoreError>
        requires { is_direct clause ≡ true }
        ensures step { ⟦<D as Abstract>⟧.step self.old (adding clause) (replied added result) self.new }
        ensures provider { self.new.provider ≡ self.old.provider }
        ensures queue_state { self.new.queue_state ≡ self.old.queue_state }
    {
        if !knows_named(self.variables.count(), self.cache.provider(), clause) {
            return Err(StoreError::UnknownId);
        }
        let (watches, conflict) = first_watches(clause, &self.trail);
        let first = self.clauses.len();
        let answer = add_clause(&mut self.clauses, clause, watches, conflict);
        self.clauses
            .forget_false_from(first, &mut self.marks, &self.trail);
        answer
    }

    /// Adds a learnt clause with these literals.
    pub fn learnt(&mut self, literals: &[Literal]) -> Result<Added, StoreError>
        ensures step { ⟦<D as Abstract>⟧.step self.old (Learnt literals.now) (replied added result) self.new }
        ensures provider { self.new.provider ≡ self.old.provider }
        ensures queue_state { self.new.queue_state ≡ self.old.queue_state }
    {
        if !knows_literals(literals, self.variables.count()) {
            return Err(StoreError::UnknownId);
        }
        if is_bad_learnt(literals) {
            return Err(StoreError::BadLearnt);
        }
        let first = self.clauses.len();
        let answer = learn_clause(&mut self.clauses, literals);
        self.clauses
            .forget_false_from(first, &mut self.marks, &self.trail);
        answer
    }
}

/// The clause that a command names whole, if it does.
fn clause_named<N: Copy, S, A: Allocator>(command: &Command<N, S, A>) -> Option<Clause<N>>
    ensures named { IfSome result (λ clause. (is_direct clause ≡ true) × (adding clause ≡ command_of command.now)) }
    ensures none { result ≡ None → names_clause (command_of command.now) ≡ false }
{
    match command {
        Command::Root => Some(Clause::InstallRoot),
        Command::Constrains(parent, forbidden, set) => {
            Some(Clause::Constrains(*parent, *forbidden, *set))
        }
        Command::ConstrainsExcluded(candidate, aux, set) => {
            Some(Clause::ConstrainsExcluded(*candidate, *aux, *set))
        }
        Command::ConstrainsParent(parent, aux, set) => {
            Some(Clause::ConstrainsParent(*parent, *aux, *set))
        }
        Command::Lock(locked, other) => Some(Clause::Lock(*locked, *other)),
        Command::Exclude(variable, reason) => Some(Clause::Excluded(*variable, *reason)),
        Command::AnyOf(selected, other) => Some(Clause::AnyOf(*selected, *other)),
        _ => None,
    }
}

/// Whether all is known that the clause names. Variables are known below this number.
fn knows_named<D: DependencyProvider>(
    variables: usize,
    provider: &D,
    clause: Clause<D::NameId>,
) -> bool
    ensures { result ≡ names_known (D.universe provider.now) variables clause }
{
    match clause {
        Clause::InstallRoot => true,
        Clause::Constrains(first, second, set)
        | Clause::ConstrainsExcluded(first, second, set)
        | Clause::ConstrainsParent(first, second, set) => {
            are_below(first, second, variables) && provider.knows_version_set(set)
        }
        Clause::Lock(first, second) | Clause::AnyOf(first, second) => {
            are_below(first, second, variables)
        }
        Clause::Excluded(variable, reason) => {
            variable.to_index() < variables && provider.knows_string(reason)
        }
        Clause::Requires(_, _, _) | Clause::ForbidMultipleInstances(_, _, _) | Clause::Learnt(_) =>
            false,
    }
}

/// What a new clause that is named whole watches, and whether it is a conflict.
fn first_watches<N: Copy, A: Allocator + Copy>(
    clause: Clause<N>,
    trail: &DecisionTracker<A>,
) -> (Option<WatchedLiterals>, bool)
    requires { is_direct clause ≡ true }
    ensures watches { (k : StoredLiterals) →
        literals_watched result.0 ≡ first_watches k (val trail.now.entries) clause }
    ensures conflict { (k : StoredLiterals) → result.1 ≡ is_conflict k (val trail.now.entries) clause }
{
    match clause {
        Clause::Constrains(parent, forbidden, set) => {
            let (watches, conflict, _) = WatchedLiterals::constrains::<N, A>(
                parent, forbidden, set, trail,
            );
            (watches, conflict)
        }
        Clause::ConstrainsParent(parent, aux, set) => {
            let (watches, conflict, _) = WatchedLiterals::constrains_parent::<N, A>(
                parent, aux, set, trail,
            );
            (watches, conflict)
        }
        Clause::ConstrainsExcluded(candidate, aux, set) => {
            (
                WatchedLiterals::constrains_excluded::<N>(candidate, aux, set).0,
                false,
            )
        }
        Clause::Lock(locked, other) => (WatchedLiterals::lock::<N>(locked, other).0, false),
        Clause::AnyOf(selected, other) => (WatchedLiterals::any_of::<N>(selected, other).0, false),
        Clause::InstallRoot
        | Clause::Excluded(_, _)
        | Clause::Requires(_, _, _)
        | Clause::ForbidMultipleInstances(_, _, _)
        | Clause::Learnt(_) => (None, false),
    }
}

/// Whether these can't be the literals of a learnt clause: there is none, or the first of two or more is the last too.
fn is_bad_learnt(literals: &[Literal]) -> bool
    ensures { result ≡ is_bad_learnt literals.now }
{
    match literals {
        [] => true,
        [_] => false,
        [first, .., last] => first == last,
    }
}

/// Adds a clause that isn't of the kind `Requires`, with what it watches; the reply says whether it is a conflict.
fn add_clause<N: Copy, A: Allocator + Copy>(
    clauses: &mut ClauseList<N, A>,
    clause: Clause<N>,
    watches: Option<WatchedLiterals>,
    conflict: bool,
) -> Result<Added, StoreError>
    requires { AreTwoOrNone (two_or_none (literals_watched watches)) }
    ensures added { IfOk result (λ a. added a ≡ ClauseIs (length (contents clauses.old).clauses) conflict) }
    ensures ok { OnOk result (HasMore (contents clauses.old) clause watches (contents clauses.new)) }
    ensures err { OnErr result (contents clauses.new ≡ contents clauses.old) }
    ensures refused { IfErr result (IsGrowthRefusal (is_full (contents clauses.old))) }
    ensures ids_out { IsTrue (is_full (contents clauses.old)) → result ≡ Err IdSpace }
{
    let clause = clauses.add(clause, watches)?;
    Ok(Added {
        clause,
        is_conflict: conflict,
    })
}

/// Adds a learnt clause with these literals, of which there is one at least.
fn learn_clause<N: Copy, A: Allocator + Copy>(
    clauses: &mut ClauseList<N, A>,
    literals: &[Literal],
) -> Result<Added, StoreError>
    requires { 0 < length literals.now }
    ensures added { IfOk result (λ a. added a ≡ ClauseIs (length (contents clauses.old).clauses) false) }
    ensures ok { OnOk result (contents clauses.new ≡ with_learnt (contents clauses.old) literals.now) }
    ensures err { OnErr result (contents clauses.new ≡ contents clauses.old) }
    ensures refused { IfErr result (IsGrowthRefusal (is_learnt_full (contents clauses.old))) }
    ensures ids_out { IsTrue (is_learnt_full (contents clauses.old)) → result ≡ Err IdSpace }
{
    let clause = clauses.learn(literals)?;
    Ok(Added {
        clause,
        is_conflict: false,
    })
}
