//! Trials of which each request is refused in turn. Beside the store to which a request is refused there is a twin in
//! ample memory, to which the refused command isn't given: both must then tell the same. A command that takes no memory
//! must not meet a refusal. A refused `saturate` keeps what it forced: so it is compared where it is given again alone,
//! from there on; `implied` looks at what it leaves.
use crate::answers::{push_replies, push_reply, push_steps, push_unlike};
use crate::few::{Counts, is_refused, may_do_without, refused_reply};
use crate::free::is_free;
use crate::implied::write_implied;
use crate::obeys::Obeys;
use crate::played::{Heap, Ids, output_of};
use crate::task::Task;
use crate::trial::Trial;
use resolvo_store::Command;
use script_text::is_word;
use std::alloc::{AllocError, Allocator};
use typed_ids::StoreError;

/// What happens to a store.
#[derive(Clone, Copy)]
pub(crate) enum Fate {
    /// By steps, the command of a place is refused; then it is given once more.
    Again(Refusal),
    /// By steps, the command of a place is refused; it isn't given again.
    Over(Refusal),
    /// In one run, the request of this number is refused.
    Run(u64),
    /// The twin of a run that was refused as a whole: no command is given.
    Nothing,
}

/// Which command is refused.
#[derive(Clone, Copy)]
pub(crate) struct Refusal {
    place: usize,
    /// The number of the request that is refused to it; of the twin, to which it isn't given, none.
    number: Option<u64>,
}

impl Refusal {
    fn of(place: usize, number: u64) -> Refusal {
        Refusal {
            place,
            number: Some(number),
        }
    }

    fn twin(place: usize) -> Refusal {
        Refusal {
            place,
            number: None,
        }
    }
}

/// The line of a command that was refused memory.
const REFUSED: &str = "refused 1\n";

/// Appends what a store tells of its fate: the replies to the commands, and those to the probes, which tell what it is
/// like then. Answers whether the request came.
pub(crate) fn push_fate<N, S, A: Allocator, T: Obeys<N, S, A>>(
    store: &mut T,
    heap: Heap<'_>,
    (commands, probes): (&[Command<N, S, A>], &[Command<N, S, A>]),
    fate: Fate,
    output: &mut String,
) -> Result<bool, AllocError> {
    let is_reached = match fate {
        Fate::Again(refusal) => push_again(store, heap, (commands, probes), refusal, output)?,
        Fate::Over(refusal) => push_over(store, heap, commands, refusal, output)?,
        Fate::Run(number) => push_refused_run(store, heap, commands, number, output)?,
        Fate::Nothing => true,
    };
    push_steps(store, probes, output)?;
    Ok(is_reached)
}

/// By steps: the command of a place is refused, and then given once more. Answers whether the request came.
fn push_again<N, S, A: Allocator, T: Obeys<N, S, A>>(
    store: &mut T,
    heap: Heap<'_>,
    (commands, probes): (&[Command<N, S, A>], &[Command<N, S, A>]),
    refusal: Refusal,
    output: &mut String,
) -> Result<bool, AllocError> {
    let (before, after) = commands.split_at(refusal.place.min(commands.len()));
    push_steps(store, before, output)?;
    let is_reached = push_refused(store, heap, after, refusal.number, output)?;
    if !begin_with_saturation(after) {
        push_steps(store, probes, output)?;
    }
    push_steps(store, after, output)?;
    Ok(is_reached)
}

fn begin_with_saturation<N, S, A: Allocator>(commands: &[Command<N, S, A>]) -> bool {
    matches!(commands.first(), Some(Command::Saturate(_)))
}

/// By steps: the command of a place is refused, and not given again. Answers whether the request came.
fn push_over<N, S, A: Allocator, T: Obeys<N, S, A>>(
    store: &mut T,
    heap: Heap<'_>,
    commands: &[Command<N, S, A>],
    refusal: Refusal,
    output: &mut String,
) -> Result<bool, AllocError> {
    let (before, after) = commands.split_at(refusal.place.min(commands.len()));
    push_steps(store, before, output)?;
    let is_reached = push_refused(store, heap, after, refusal.number, output)?;
    push_steps(store, after.get(1..).unwrap_or(&[]), output)?;
    Ok(is_reached)
}

/// Gives the first of these commands, to which the request of a number is refused; where there is none, tells that it
/// was. Answers whether the request came.
fn push_refused<N, S, A: Allocator, T: Obeys<N, S, A>>(
    store: &mut T,
    heap: Heap<'_>,
    commands: &[Command<N, S, A>],
    number: Option<u64>,
    output: &mut String,
) -> Result<bool, AllocError> {
    let (Some(number), [command, ..]) = (number, commands) else {
        output.push_str(REFUSED)?;
        return Ok(true);
    };
    let (reply, is_reached) = refused_reply(store, command, heap, number);
    // A saturation that left its mark out, or a decision that told a falsified clause, is given again as one that was
    // refused, and must be answered alike then.
    if is_reached && may_do_without(command) && !is_refused(&reply) {
        output.push_str(REFUSED)?;
    } else {
        push_reply(&reply, output)?;
    }
    Ok(is_reached)
}

/// In one run, of which the request of a number is refused. Where the whole run was, nothing is told. Answers whether
/// the request came.
fn push_refused_run<N, S, A: Allocator, T: Obeys<N, S, A>>(
    store: &mut T,
    heap: Heap<'_>,
    commands: &[Command<N, S, A>],
    number: u64,
    output: &mut String,
) -> Result<bool, AllocError> {
    heap.arm(number);
    let answered = store.obey_all(commands);
    let is_reached = !heap.is_armed();
    heap.arm(0);
    if let Ok(replies) = &answered {
        push_replies(replies, output)?;
    }
    Ok(is_reached)
}

/// Refuses each request of a trial in turn, and puts what isn't told alike after what waits. `answers` is what it is
/// answered where none is.
pub(crate) fn write_each(
    trial: &Trial<'_>,
    ids: Ids,
    answers: &str,
    waiting: &mut Vec<u8>,
    counts: &mut Counts,
) -> Result<(), StoreError> {
    for (place, said) in trial.commands.iter().enumerate() {
        let count = write_steps(trial, ids, place, waiting)?;
        if count > 0 {
            counts.note(*said);
            push_taken(trial, answers, (place, said.keyword), waiting)?;
        }
        write_left(trial, ids, answers, (place, count), waiting)?;
    }
    write_runs(trial, ids, answers, waiting)
}

/// Tells where a command took memory that takes none.
fn push_taken(
    trial: &Trial<'_>,
    answers: &str,
    (place, keyword): (usize, &[u8]),
    waiting: &mut Vec<u8>,
) -> Result<(), AllocError> {
    if is_free(trial, answers, place) {
        waiting.extend_from_slice(b"took memory: ")?;
        waiting.extend_from_slice(keyword)?;
        waiting.push(b'\n')?;
    }
    Ok(())
}

/// Looks at what the refused command of a place leaves, which makes this many requests.
fn write_left(
    trial: &Trial<'_>,
    ids: Ids,
    answers: &str,
    (place, count): (usize, u64),
    waiting: &mut Vec<u8>,
) -> Result<(), StoreError> {
    if keeps_its_part(trial, place) {
        write_implied(trial, ids, (place, answers), waiting)
    } else if trial.is(b"over") {
        write_over(trial, ids, (place, count), waiting)
    } else {
        Ok(())
    }
}

/// Whether the command of a place keeps what it did where it is refused.
fn keeps_its_part(trial: &Trial<'_>, place: usize) -> bool {
    match trial.commands.get(place) {
        Some(said) => is_word(said.keyword, b"saturate"),
        None => false,
    }
}

/// What is told where there is no end of requests.
const ENDLESS: &[u8] = b"too many requests\n";

/// Refuses each request of the command of a place in turn, by steps. Answers how many it has.
fn write_steps(
    trial: &Trial<'_>,
    ids: Ids,
    place: usize,
    waiting: &mut Vec<u8>,
) -> Result<u64, StoreError> {
    let twin = output_of(trial, ids, Task::Each(Fate::Again(Refusal::twin(place))))?;
    for number in 1..1000 {
        let seen = output_of(
            trial,
            ids,
            Task::Each(Fate::Again(Refusal::of(place, number))),
        )?;
        if !seen.is_reached {
            return Ok(number.saturating_sub(1));
        }
        push_unlike(
            "refused a request:\n",
            seen.text.as_str(),
            twin.text.as_str(),
            waiting,
        )?;
    }
    waiting.extend_from_slice(ENDLESS)?;
    Ok(1000)
}

/// Refuses each of this many requests of the command of a place in turn, by steps; the command isn't given again.
fn write_over(
    trial: &Trial<'_>,
    ids: Ids,
    (place, count): (usize, u64),
    waiting: &mut Vec<u8>,
) -> Result<(), StoreError> {
    let twin = output_of(trial, ids, Task::Each(Fate::Over(Refusal::twin(place))))?;
    for before in 0..count {
        let refusal = Refusal::of(place, before.saturating_add(1));
        let seen = output_of(trial, ids, Task::Each(Fate::Over(refusal)))?;
        push_unlike(
            "refused a request, and not given again:\n",
            seen.text.as_str(),
            twin.text.as_str(),
            waiting,
        )?;
    }
    Ok(())
}

/// Refuses each request of a run in turn.
fn write_runs(
    trial: &Trial<'_>,
    ids: Ids,
    answers: &str,
    waiting: &mut Vec<u8>,
) -> Result<(), StoreError> {
    for number in 1..10000 {
        let seen = output_of(trial, ids, Task::Each(Fate::Run(number)))?;
        if !seen.is_reached {
            return Ok(());
        }
        write_run(trial, ids, seen.text.as_str(), answers, waiting)?;
    }
    Ok(waiting.extend_from_slice(ENDLESS)?)
}

/// What is told before what a run tells of which a request was refused.
const HEADING: &str = "refused a request in a run:\n";

/// Puts what a run tells of which a request was refused after what waits, where its twin tells something else.
fn write_run(
    trial: &Trial<'_>,
    ids: Ids,
    seen: &str,
    answers: &str,
    waiting: &mut Vec<u8>,
) -> Result<(), StoreError> {
    match place_of_refusal(seen) {
        Some(place) if keeps_its_part(trial, place) => Ok(()),
        Some(place) => write_refused(trial, ids, (seen, place), answers, waiting),
        None => write_unrefused(trial, ids, seen, waiting),
    }
}

/// The place of the first command that was refused memory.
fn place_of_refusal(seen: &str) -> Option<usize> {
    for (place, line) in seen.lines().enumerate() {
        if line == "refused 1" {
            return Some(place);
        }
    }
    None
}

/// The same, of a run whose command of a place was refused.
fn write_refused(
    trial: &Trial<'_>,
    ids: Ids,
    (seen, place): (&str, usize),
    answers: &str,
    waiting: &mut Vec<u8>,
) -> Result<(), StoreError> {
    let twin = Task::Each(Fate::Over(Refusal::twin(place)));
    let without = output_of(trial, ids, twin)?;
    push_unlike(HEADING, seen, without.text.as_str(), waiting)?;
    if is_free(trial, answers, place) {
        waiting.extend_from_slice(b"took memory in a run\n")?;
    }
    Ok(())
}

/// The same, where no command was refused: the whole run was, or a saturation left its mark out, which nothing else
/// shows.
fn write_unrefused(
    trial: &Trial<'_>,
    ids: Ids,
    seen: &str,
    waiting: &mut Vec<u8>,
) -> Result<(), StoreError> {
    let without = output_of(trial, ids, Task::Each(Fate::Nothing))?;
    if without.text.as_str() == seen {
        return Ok(());
    }
    let whole = output_of(trial, ids, Task::Each(Fate::Run(0)))?;
    Ok(push_unlike(HEADING, seen, whole.text.as_str(), waiting)?)
}
