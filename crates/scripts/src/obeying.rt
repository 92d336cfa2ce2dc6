//! Commands are obeyed as lines give them: each by the store's method, whose answer is written at once. All of it is
//! inlined behind each keyword, so a line pays for its own words and its own method alone.
ghost use Rattle.std.specs.Prelude.{option_map};
ghost use Rattle.resolvo_store.specs.Command.{Load, command_of};
ghost use Rattle.script_text.specs.Words.{words};
ghost use Rattle.script_text.specs.declared.statement.Line.TheVariants.{Says};
ghost use Rattle.scripts.specs.Commands.{ids_at, command_said, plain_command, score_command, seldom_command};
ghost use Rattle.scripts.specs.Commands.{between_command};
ghost use Rattle.scripts.specs.Transcript.{IsRead, ObeysGiven, ObeysLine};

use crate::answer_line::{
    push_added, push_assigned, push_decided, push_disjunction, push_done, push_obeyed,
    push_saturated, push_taken_back, push_tracked, push_variable, push_watched,
};
use crate::command_line::{
    any_of, assign, at_most_once, bare_command, bump, constrains, constrains_excluded,
    constrains_parent, decay, disjunction, exclude, helper, learnt, load, lock, requires_clause,
    rewatch, saturate, standard, undo_until, variable, watchers,
};
use crate::reply_line::{push_loaded, push_next, push_refused, push_undone};
use decisions::Decision;
use providers::{DependencyProvider, Requirement};
use resolvo_store::{Abstract, ClauseStore, Command};
use script_text::{LineFault, Statement, is_word};
use typed_ids::DenseIndex;

/// Obeys the command that a first word and those after it give, and puts the line of the reply after what waits. A line
/// that is skipped costs no call, since this isn't inlined. A number names the package, or the solvable, of this index.
/// Only `learnt` and `disjunction` lines take memory for their command.
#[inline(never)]
pub(crate) fn obey_words<D: DependencyProvider<NameId: DenseIndex, SolvableId: DenseIndex> + Drop>(
    alloc: D::Alloc,
    store: &mut ClauseStore<D>,
    keyword: &[u8],
    rest: &[u8],
    waiting: &mut Vec<u8>,
) -> Result<(), LineFault>
    ensures { ObeysGiven (⟦<D as Abstract>⟧.store store.old)
        (command_said (ids_at D.NameId.limit D.NameId.id_at D.SolvableId.limit D.SolvableId.id_at) keyword.now
        (words rest.now))
        waiting.old.items result waiting.new.items (⟦<D as Abstract>⟧.store store.new) }
{
    if is_word(keyword, b"learnt") {
        obey_read(store, learnt(alloc, rest), waiting)
    } else if is_word(keyword, b"disjunction") {
        obey_read(store, disjunction(alloc, rest), waiting)
    } else {
        obey_plain(store, Statement { keyword, rest }, waiting)
    }
}

/// Obeys the command that a statement gives, if it is one without a list.
#[inline(always)]
fn obey_plain<D: DependencyProvider<NameId: DenseIndex, SolvableId: DenseIndex> + Drop>(
    store: &mut ClauseStore<D>,
    said: Statement<'_>,
    waiting: &mut Vec<u8>,
) -> Result<(), LineFault>
    ensures { ObeysGiven (⟦<D as Abstract>⟧.store store.old)
        (plain_command (ids_at D.NameId.limit D.NameId.id_at D.SolvableId.limit D.SolvableId.id_at)
        said.entry.keyword.now (words said.entry.rest.now))
        waiting.old.items result waiting.new.items (⟦<D as Abstract>⟧.store store.new) }
{
    if is_word(said.keyword, b"assign") {
        obey_given(store, assign(said.rest), waiting)
    } else if is_word(said.keyword, b"requires") {
        obey_given(store, requires_clause(said.rest), waiting)
    } else if is_word(said.keyword, b"load") {
        obey_given(store, load(said.rest), waiting)
    } else if is_word(said.keyword, b"at-most-once") {
        obey_given(store, at_most_once(said.rest), waiting)
    } else if is_word(said.keyword, b"decide") {
        obey_given(store, bare_command(said.rest, Command::Decide), waiting)
    } else if is_word(said.keyword, b"unpropagated") {
        obey_given(
            store,
            bare_command(said.rest, Command::Unpropagated),
            waiting,
        )
    } else if is_word(said.keyword, b"undo-until") {
        obey_given(store, undo_until(said.rest), waiting)
    } else if is_word(said.keyword, b"rewatch") {
        obey_given(store, rewatch(said.rest), waiting)
    } else if is_word(said.keyword, b"watchers") {
        obey_given(store, watchers(said.rest), waiting)
    } else if is_word(said.keyword, b"saturate") {
        obey_given(store, saturate(said.rest), waiting)
    } else {
        obey_score(store, said, waiting)
    }
}

/// Obeys the command that a statement gives, if it is one of scores.
#[inline(always)]
fn obey_score<D: DependencyProvider<NameId: DenseIndex, SolvableId: DenseIndex> + Drop>(
    store: &mut ClauseStore<D>,
    said: Statement<'_>,
    waiting: &mut Vec<u8>,
) -> Result<(), LineFault>
    ensures { ObeysGiven (⟦<D as Abstract>⟧.store store.old)
        (score_command (ids_at D.NameId.limit D.NameId.id_at D.SolvableId.limit D.SolvableId.id_at)
        said.entry.keyword.now (words said.entry.rest.now))
        waiting.old.items result waiting.new.items (⟦<D as Abstract>⟧.store store.new) }
{
    if is_word(said.keyword, b"bump") {
        obey_given(store, bump(said.rest), waiting)
    } else if is_word(said.keyword, b"decay") {
        obey_given(store, decay(said.rest), waiting)
    } else if is_word(said.keyword, b"standard") {
        obey_given(store, standard(said.rest), waiting)
    } else {
        obey_seldom(store, said, waiting)
    }
}

/// Obeys the command that a statement gives, if it is one that is said seldom.
#[inline(always)]
fn obey_seldom<D: DependencyProvider<NameId: DenseIndex, SolvableId: DenseIndex> + Drop>(
    store: &mut ClauseStore<D>,
    said: Statement<'_>,
    waiting: &mut Vec<u8>,
) -> Result<(), LineFault>
    ensures { ObeysGiven (⟦<D as Abstract>⟧.store store.old)
        (seldom_command (ids_at D.NameId.limit D.NameId.id_at D.SolvableId.limit D.SolvableId.id_at)
        said.entry.keyword.now (words said.entry.rest.now))
        waiting.old.items result waiting.new.items (⟦<D as Abstract>⟧.store store.new) }
{
    if is_word(said.keyword, b"variable") {
        obey_given(store, variable(said.rest), waiting)
    } else if is_word(said.keyword, b"undo-last") {
        obey_given(store, bare_command(said.rest, Command::UndoLast), waiting)
    } else if is_word(said.keyword, b"helper") {
        obey_given(store, helper(said.rest), waiting)
    } else if is_word(said.keyword, b"exclude") {
        obey_given(store, exclude(said.rest), waiting)
    } else if is_word(said.keyword, b"root") {
        obey_given(store, bare_command(said.rest, Command::Root), waiting)
    } else {
        obey_between(store, said, waiting)
    }
}

/// Obeys the command that a statement gives, if it is a clause between two variables.
#[inline(always)]
fn obey_between<D: DependencyProvider<NameId: DenseIndex, SolvableId: DenseIndex> + Drop>(
    store: &mut ClauseStore<D>,
    said: Statement<'_>,
    waiting: &mut Vec<u8>,
) -> Result<(), LineFault>
    ensures { ObeysGiven (⟦<D as Abstract>⟧.store store.old)
        (between_command said.entry.keyword.now (words said.entry.rest.now))
        waiting.old.items result waiting.new.items (⟦<D as Abstract>⟧.store store.new) }
{
    if is_word(said.keyword, b"constrains") {
        obey_given(store, constrains(said.rest), waiting)
    } else if is_word(said.keyword, b"constrains-excluded") {
        obey_given(store, constrains_excluded(said.rest), waiting)
    } else if is_word(said.keyword, b"constrains-parent") {
        obey_given(store, constrains_parent(said.rest), waiting)
    } else if is_word(said.keyword, b"lock") {
        obey_given(store, lock(said.rest), waiting)
    } else if is_word(said.keyword, b"any-of") {
        obey_given(store, any_of(said.rest), waiting)
    } else {
        Err(LineFault::Unreadable)
    }
}

/// Obeys a command that was read, or tells why none was.
#[inline(always)]
fn obey_read<D: DependencyProvider + Drop>(
    store: &mut ClauseStore<D>,
    read: Result<Command<D::NameId, D::SolvableId, D::Alloc>, LineFault>,
    waiting: &mut Vec<u8>,
) -> Result<(), LineFault>
    ensures { (given : _) → IsRead given read → ObeysGiven (⟦<D as Abstract>⟧.store store.old) given
        waiting.old.items result waiting.new.items (⟦<D as Abstract>⟧.store store.new) }
{
    match read {
        Ok(command) => obey(store, command, waiting),
        Err(fault) => Err(fault),
    }
}

/// Obeys a command, if words gave one.
#[inline(always)]
fn obey_given<D: DependencyProvider + Drop>(
    store: &mut ClauseStore<D>,
    given: Option<Command<D::NameId, D::SolvableId, D::Alloc>>,
    waiting: &mut Vec<u8>,
) -> Result<(), LineFault>
    ensures { ObeysGiven (⟦<D as Abstract>⟧.store store.old) (option_map command_of given)
        waiting.old.items result waiting.new.items (⟦<D as Abstract>⟧.store store.new) }
{
    match given {
        Some(command) => obey(store, command, waiting),
        None => Err(LineFault::Unreadable),
    }
}

/// Obeys a command by the store's method, and puts the line of its answer after what waits.
#[inline(always)]
fn obey<D: DependencyProvider + Drop>(
    store: &mut ClauseStore<D>,
    command: Command<D::NameId, D::SolvableId, D::Alloc>,
    waiting: &mut Vec<u8>,
) -> Result<(), LineFault>
    ensures { ObeysLine (⟦<D as Abstract>⟧.store store.old) (Says (command_of command))
        waiting.old.items result waiting.new.items (⟦<D as Abstract>⟧.store store.new) }
{
    match command {
        Command::Load(requirement) => return obey_load(store, requirement, waiting),
        Command::Variable(solvable) => push_variable(waiting, store.variable(solvable))?,
        Command::Helper(origin) => push_variable(waiting, store.helper(origin))?,
        Command::Disjunction(l, c) => push_disjunction(waiting, store.disjunction(&l, c))?,
        Command::Requires(p, r, d) => push_added(waiting, store.requires_clause(p, r, d))?,
        Command::Root => push_added(waiting, store.root())?,
        Command::Constrains(parent, forbidden, set) => {
            push_added(waiting, store.constrains(parent, forbidden, set))?
        }
        Command::ConstrainsExcluded(candidate, aux, set) => {
            push_added(waiting, store.constrains_excluded(candidate, aux, set))?
        }
        Command::ConstrainsParent(parent, aux, set) => {
            push_added(waiting, store.constrains_parent(parent, aux, set))?
        }
        Command::Lock(locked, other) => push_added(waiting, store.lock(locked, other))?,
        Command::Exclude(variable, reason) => push_added(waiting, store.exclude(variable, reason))?,
        Command::AnyOf(selected, other) => push_added(waiting, store.any_of(selected, other))?,
        Command::Learnt(literals) => push_added(waiting, store.learnt(&literals))?,
        Command::AtMostOnce(n, v) => push_tracked(waiting, store.at_most_once(n, v))?,
        Command::Assign(variable, value, clause, level) => {
            let decision = Decision::new(variable, value, clause);
            push_assigned(waiting, store.assign(decision, level))?
        }
        Command::UndoLast => push_taken_back(waiting, store.undo_last())?,
        Command::UndoUntil(level) => {
            store.undo_until(level);
            push_undone(waiting, None)?
        }
        Command::Unpropagated => push_next(waiting, store.next_unpropagated())?,
        Command::Bump(name, amount) => push_done(waiting, store.bump(name, amount))?,
        Command::Decay(n, d) => push_done(waiting, store.decay(n, d))?,
        Command::Standard(standard) => {
            store.set_standard(standard);
            push_obeyed(waiting)?
        }
        Command::Rewatch(clause, from, to) => push_done(waiting, store.rewatch(clause, from, to))?,
        Command::Watchers(literal) => push_watched(waiting, store.watchers(literal))?,
        Command::Saturate(level) => push_saturated(waiting, store.saturate(level))?,
        Command::Decide => push_decided(waiting, store.decide())?,
    }
    Ok(())
}

/// Loads a requirement, and puts the line of the reply after what waits, from where its lists lie, with no copy. It
/// isn't inlined, so that no other command pays for it.
#[inline(never)]
fn obey_load<D: DependencyProvider + Drop>(
    store: &mut ClauseStore<D>,
    requirement: Requirement,
    waiting: &mut Vec<u8>,
) -> Result<(), LineFault>
    ensures { ObeysLine (⟦<D as Abstract>⟧.store store.old) (Says (Load requirement))
        waiting.old.items result waiting.new.items (⟦<D as Abstract>⟧.store store.new) }
{
    if let Some(lists) = store.lists(requirement) {
        push_loaded(waiting, lists)?;
        return Ok(());
    }
    if let Err(refusal) = store.load(requirement) {
        push_refused(waiting, refusal)?;
        return Ok(());
    }
    match store.lists(requirement) {
        Some(lists) => {
            push_loaded(waiting, lists)?;
            Ok(())
        }
        None => unreachable!(),
    }
}
