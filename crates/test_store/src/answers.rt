//! What stores answer to all commands of a trial, and what they then tell.
use crate::obeys::Obeys;
use crate::played::Heap;
use resolvo_store::{Command, Reply};
use std::alloc::{AllocError, Allocator};
use typed_ids::{ClauseId, DenseIndex, StoreError};

/// Gives a store commands, and appends the line of each reply.
pub(crate) fn push_steps<N, S, A: Allocator, T: Obeys<N, S, A>>(
    store: &mut T,
    commands: &[Command<N, S, A>],
    output: &mut String,
) -> Result<(), AllocError> {
    for command in commands {
        push_reply(&store.obey(command), output)?;
    }
    Ok(())
}

/// The same, but `Standard` is set before each decision: as these two say, by turns. All settings are answered alike.
pub(crate) fn push_set_steps<N: Drop, S: Drop, A: Allocator, T: Obeys<N, S, A>>(
    store: &mut T,
    commands: &[Command<N, S, A>],
    (even, odd): (bool, bool),
    output: &mut String,
) -> Result<(), AllocError> {
    let mut is_odd = false;
    for command in commands {
        if let Command::Decide = command {
            let standard = Command::Standard(if is_odd { odd } else { even });
            drop(store.obey(&standard));
            is_odd = !is_odd;
        }
        push_reply(&store.obey(command), output)?;
    }
    Ok(())
}

/// Gives a store commands in one run, and appends the line of each reply.
pub(crate) fn push_run<N, S, A: Allocator, T: Obeys<N, S, A>>(
    store: &mut T,
    commands: &[Command<N, S, A>],
    output: &mut String,
) -> Result<(), StoreError> {
    let replies = store.obey_all(commands)?;
    Ok(push_replies(&replies, output)?)
}

/// Appends the lines of the replies.
pub(crate) fn push_replies<A: Allocator>(
    replies: &[Reply<A>],
    output: &mut String,
) -> Result<(), AllocError> {
    for reply in replies {
        push_reply(reply, output)?;
    }
    Ok(())
}

pub(crate) fn push_reply<A: Allocator>(
    reply: &Reply<A>,
    output: &mut String,
) -> Result<(), AllocError> {
    let line = format!(in *output.allocator(); "{reply}\n")?;
    output.push_str(line.as_str())
}

/// Appends what a store tells at its end, in a line each: the literals of all clauses, the next decision, and how often
/// the provider was asked for candidates and whether to stop.
pub(crate) fn push_end<N: Drop, S: Drop, A: Allocator, T: Obeys<N, S, A>>(
    store: &mut T,
    output: &mut String,
) -> Result<(), StoreError> {
    output.push_str("literals")?;
    for place in 0..1000 {
        if !push_literals(store, ClauseId::from_index(place), output)? {
            break;
        }
    }
    output.push_str("\nnext ")?;
    let next = store.obey(&Command::Decide);
    if matches!(next, Reply::Falsified(_)) {
        output.push_str("no decision\n")?;
    } else {
        push_reply(&next, output)?;
    }
    let counts = store.counts();
    let line = format!(in *output.allocator(); "asked {} {}\n", counts.candidates, counts.cancels)?;
    Ok(output.push_str(line.as_str())?)
}

/// Appends the literals of a clause behind a blank, each with its sign; answers whether it is known.
fn push_literals<N, S, A: Allocator, T: Obeys<N, S, A>>(
    store: &T,
    clause: ClauseId,
    output: &mut String,
) -> Result<bool, StoreError> {
    let Some(literals) = store.literals(clause)? else {
        return Ok(false);
    };
    output.push_str(" ")?;
    for literal in &literals {
        let sign = if literal.satisfying_value() { '+' } else { '-' };
        let word = format!(in *output.allocator(); "{sign}{}", literal.variable().to_index())?;
        output.push_str(word.as_str())?;
    }
    Ok(true)
}

/// Gives a store commands, and appends the texts of the clauses that it then has, a line each.
pub(crate) fn push_texts<N, S, A: Allocator + Copy, T: Obeys<N, S, A>>(
    store: &mut T,
    alloc: A,
    heap: Heap<'_>,
    commands: &[Command<N, S, A>],
    output: &mut String,
) -> Result<(), StoreError> {
    for command in commands {
        drop(store.obey(command));
    }
    for place in 0..1000 {
        let mut text = String::new(alloc);
        if push_text(store, heap, ClauseId::from_index(place), &mut text).is_err() {
            break;
        }
        output.push_str(text.as_str())?;
        output.push_str("\n")?;
    }
    Ok(())
}

/// Appends a clause's text, of which each request is refused in turn before: what that leaves is told with it.
fn push_text<N, S, A: Allocator, T: Obeys<N, S, A>>(
    store: &T,
    heap: Heap<'_>,
    clause: ClauseId,
    text: &mut String<A>,
) -> Result<(), StoreError> {
    for number in 1..1000 {
        heap.arm(number);
        let shown = store.display_clause(clause, text);
        let is_reached = !heap.is_armed();
        heap.arm(0);
        if !is_reached || shown.is_ok() {
            return shown;
        }
    }
    Err(StoreError::OutOfMemory)
}

/// Puts a text under a heading after what waits, where it isn't the wanted one.
pub(crate) fn push_unlike(
    heading: &str,
    seen: &str,
    wanted: &str,
    waiting: &mut Vec<u8>,
) -> Result<(), AllocError> {
    if seen == wanted {
        return Ok(());
    }
    waiting.extend_from_slice(heading.as_bytes())?;
    waiting.extend_from_slice(seen.as_bytes())
}
