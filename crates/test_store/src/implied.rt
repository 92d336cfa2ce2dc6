//! What a `saturate` leaves of which a request is refused, looked at before it is given again: each entry that it put
//! on the trail is forced by its clause under the entries before it, and the watch lists are exact.
//!
//! Exact are lists in which each clause has its literal, and comes once; and each clause stands in two lists or in
//! none, as before. The new entries are taken back one by one, so that each is seen over those before it. Then the
//! command is given again, and must be answered as where nothing is refused.
use crate::answers::push_unlike;
use crate::few::refused_reply;
use crate::obeys::Obeys;
use crate::played::{Ids, output_of};
use crate::task::Task;
use crate::trial::Trial;
use decisions::{Decision, Literal};
use resolvo_store::{Command, Reply};
use std::alloc::{AllocError, Allocator, Global};
use typed_ids::{ClauseId, DenseIndex, StoreError, VariableId};

/// This many variables are compared; a trial has fewer.
const VARIABLES: usize = 64;

/// A saturation, of which a request is refused, behind the commands before it.
#[derive(Clone, Copy)]
pub(crate) struct Saturation<'s> {
    /// Its place among the commands.
    place: usize,
    /// The number of the request.
    number: u64,
    /// What it is answered where none is refused.
    wanted: &'s str,
}

/// Appends what a refused saturation doesn't leave as it should be, a line each. Answers whether the request came.
pub(crate) fn push_implied<N: Drop, S: Drop, A: Allocator, T: Obeys<N, S, A>>(
    store: &mut T,
    trial: &Trial<'_>,
    commands: &[Command<N, S, A>],
    wanted: Saturation<'_>,
    unlike: &mut String,
) -> Result<bool, StoreError> {
    let (before, rest) = commands.split_at(wanted.place.min(commands.len()));
    let Some(saturation) = rest.first() else {
        return Ok(false);
    };
    for command in before {
        drop(store.obey(command));
    }
    let before = inspect_at(store, trial.alloc)?;
    let (reply, is_reached) = refused_reply(store, saturation, trial.heap, wanted.number);
    drop(reply);
    push_left(store, trial.alloc, level_of(saturation), &before, unlike)?;
    push_again(store, saturation, wanted.wanted, unlike)?;
    Ok(is_reached)
}

/// Appends what isn't as it should be behind a saturation at a level; and takes its entries back.
fn push_left<N: Drop, S: Drop, A: Allocator, T: Obeys<N, S, A>>(
    store: &mut T,
    alloc: Global,
    level: u32,
    before: &Seen,
    unlike: &mut String,
) -> Result<(), StoreError> {
    let after = inspect_at(store, alloc)?;
    if !after.are_exact || after.places != before.places {
        unlike.push_str("the lists aren't exact\n")?;
    }
    let added = count_added(&before.values, &after.values);
    if !are_implied(store, level, added)? {
        unlike.push_str("an entry isn't forced\n")?;
    }
    if inspect_at(store, alloc)?.values != before.values {
        unlike.push_str("an entry from before is another\n")?;
    }
    Ok(())
}

/// Gives the saturation once more, and appends the answer where it isn't the wanted one. Which clause is false may
/// differ, since watches moved.
fn push_again<N, S, A: Allocator, T: Obeys<N, S, A>>(
    store: &mut T,
    saturation: &Command<N, S, A>,
    wanted: &str,
    unlike: &mut String,
) -> Result<(), AllocError> {
    let reply = store.obey(saturation);
    let line = format!(in *unlike.allocator(); "{reply}\n")?;
    let is_wanted = if matches!(reply, Reply::Conflict(_)) {
        wanted.starts_with("conflict")
    } else {
        line.as_str().trim_end() == wanted
    };
    if !is_wanted {
        unlike.push_str(line.as_str())?;
    }
    Ok(())
}

/// The level at which a saturation puts its entries.
fn level_of<N, S, A: Allocator>(command: &Command<N, S, A>) -> u32 {
    match command {
        Command::Saturate(level) => *level,
        _ => 0,
    }
}

/// What is seen of a store.
#[derive(Drop)]
struct Seen {
    /// The values of the first variables.
    values: Vec<Option<bool>>,
    /// In how many lists each clause stands.
    places: Vec<usize>,
    /// Whether each list has clauses alone that have its literal, each once, and each clause stands in two or in none.
    are_exact: bool,
}

fn inspect_at<N: Drop, S: Drop, A: Allocator, T: Obeys<N, S, A>>(
    store: &mut T,
    alloc: Global,
) -> Result<Seen, StoreError> {
    let mut seen = Seen {
        values: Vec::new(alloc),
        places: Vec::new(alloc),
        are_exact: true,
    };
    let looked = inspect(store, &mut seen);
    for places in &seen.places {
        seen.are_exact = seen.are_exact && (*places == 0 || *places == 2);
    }
    looked?;
    Ok(seen)
}

/// Looks at each clause, and at the first variables.
fn inspect<N: Drop, S: Drop, A: Allocator, T: Obeys<N, S, A>>(
    store: &mut T,
    seen: &mut Seen,
) -> Result<(), StoreError> {
    for place in 0..1000 {
        if store.literals(ClauseId::from_index(place))?.is_none() {
            break;
        }
        seen.places.push(0)?;
    }
    for index in 0..VARIABLES {
        let variable = VariableId::from_index(index);
        if !inspect_list(store, Literal::new(variable, false), seen)? {
            break;
        }
        inspect_list(store, Literal::new(variable, true), seen)?;
        seen.values.push(store.value(variable))?;
    }
    Ok(())
}

/// Counts the clauses of a literal's list; answers whether there is the variable.
fn inspect_list<N: Drop, S: Drop, A: Allocator, T: Obeys<N, S, A>>(
    store: &mut T,
    literal: Literal,
    seen: &mut Seen,
) -> Result<bool, StoreError> {
    let reply = store.obey(&Command::Watchers(literal));
    let Reply::Watchers(list) = &reply else {
        return Ok(false);
    };
    for (place, clause) in list.iter().enumerate() {
        let is_repeated = list.get(..place).unwrap_or(&[]).contains(clause);
        let is_own = match store.literals(*clause)? {
            Some(literals) => literals.contains(&literal),
            None => false,
        };
        seen.are_exact = seen.are_exact && is_own && !is_repeated;
        if let Some(places) = seen.places.get_mut(clause.to_index()) {
            *places = places.saturating_add(1);
        }
    }
    Ok(true)
}

/// How many variables have a value that had none before.
fn count_added(before: &[Option<bool>], after: &[Option<bool>]) -> usize {
    let mut added: usize = 0;
    for (was, is) in before.iter().zip(after) {
        if was.is_none() && is.is_some() {
            added = added.saturating_add(1);
        }
    }
    added
}

/// Takes back this many entries, the newest first; whether each was forced, and all are of this level. The answer tells
/// the level of the entry before, so that of the newest is left out.
fn are_implied<N: Drop, S: Drop, A: Allocator, T: Obeys<N, S, A>>(
    store: &mut T,
    level: u32,
    added: usize,
) -> Result<bool, StoreError> {
    let mut are_implied = true;
    for left in (0..added).rev() {
        let reply = store.obey(&Command::UndoLast);
        are_implied = match &reply {
            Reply::Undone(Some((entry, level_before))) => {
                are_implied && is_implied(store, *entry)? && (left == 0 || *level_before == level)
            }
            _ => false,
        };
    }
    Ok(are_implied)
}

/// Whether an entry is forced by its clause, where it is taken back: its literal is one of the clause's, and undecided,
/// and all others are false.
fn is_implied<N, S, A: Allocator, T: Obeys<N, S, A>>(
    store: &T,
    entry: Decision,
) -> Result<bool, StoreError> {
    let Some(literals) = store.literals(entry.derived_from)? else {
        return Ok(false);
    };
    let implied = Literal::new(entry.variable, !entry.value);
    let mut are_false = true;
    for literal in &literals {
        let is_false = store.value(literal.variable()) == Some(!literal.satisfying_value());
        are_false = are_false && (is_false || *literal == implied);
    }
    Ok(are_false && literals.contains(&implied) && store.value(entry.variable).is_none())
}

/// Refuses each request of the saturation of a place in turn, by steps, and puts what isn't left as it should be after
/// what waits. `answers` is what the trial is answered where none is refused.
pub(crate) fn write_implied(
    trial: &Trial<'_>,
    ids: Ids,
    (place, answers): (usize, &str),
    waiting: &mut Vec<u8>,
) -> Result<(), StoreError> {
    let wanted = answers.lines().nth(place).unwrap_or("");
    for number in 1..1000 {
        let saturation = Saturation {
            place,
            number,
            wanted,
        };
        let output = output_of(trial, ids, Task::Implied(saturation))?;
        let unlike = output.text.as_str();
        push_unlike("left by a refused saturation:\n", unlike, "", waiting)?;
        if !output.is_reached {
            return Ok(());
        }
    }
    Ok(waiting.extend_from_slice(b"too many requests of a saturation\n")?)
}
