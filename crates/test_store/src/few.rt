//! Trials in memory that refuses a request at every few commands, so that a `decide` is refused while its queue is
//! brought up to date. Other commands come before the next one then, undos among them.
use crate::answers::push_unlike;
use crate::free::takes_no_memory;
use crate::obeys::Obeys;
use crate::played::{Heap, Ids, output_of};
use crate::task::Task;
use crate::trial::Trial;
use resolvo_store::{Command, Reply};
use script_text::{Statement, is_word};
use std::alloc::{AllocError, Allocator};
use typed_ids::{DenseIndex, StoreError, VariableId};

/// The commands to which a request is to be refused somewhere: that to others comes too seldom.
const NAMES: [&str; 10] = [
    "load",
    "disjunction",
    "requires",
    "root",
    "learnt",
    "at-most-once",
    "assign",
    "bump",
    "watchers",
    "decide",
];

/// Which of `NAMES` were refused for want of memory: a bit each.
#[derive(Clone, Copy)]
pub(crate) struct Counts {
    are_refused: u32,
}

impl Counts {
    pub(crate) fn none() -> Counts {
        Counts { are_refused: 0 }
    }

    /// What was refused here or there.
    pub(crate) fn join(&mut self, other: Counts) {
        self.are_refused |= other.are_refused;
    }

    /// A command that says this was refused.
    pub(crate) fn note(&mut self, said: Statement<'_>) {
        for place in 0..10 {
            if is_word(said.keyword, NAMES[place].as_bytes()) {
                self.are_refused |= 1 << place;
            }
        }
    }

    /// Puts the names of those that were refused after what waits.
    pub(crate) fn push(self, waiting: &mut Vec<u8>) -> Result<(), AllocError> {
        waiting.extend_from_slice(b"refused somewhere:")?;
        for place in 0..10 {
            if self.are_refused & 1 << place > 0 {
                waiting.push(b' ')?;
                waiting.extend_from_slice(NAMES[place].as_bytes())?;
            }
        }
        waiting.push(b'\n')?;
        Ok(())
    }
}

/// Whether the reply is want of memory.
pub(crate) fn is_refused<A: Allocator>(reply: &Reply<A>) -> bool {
    matches!(reply, Reply::Refused(StoreError::OutOfMemory))
}

/// Whether the command may be answered though a request of it was refused: a saturation leaves its mark out then, and a
/// decision finds a falsified clause by the plain scan.
pub(crate) fn may_do_without<N, S, A: Allocator>(command: &Command<N, S, A>) -> bool {
    matches!(command, Command::Saturate(_) | Command::Decide)
}

/// The reply to a command of which the request of this number is refused, and whether that came.
pub(crate) fn refused_reply<N, S, A: Allocator, T: Obeys<N, S, A>>(
    store: &mut T,
    command: &Command<N, S, A>,
    heap: Heap<'_>,
    number: u64,
) -> (Reply<A>, bool) {
    heap.arm(number);
    let reply = store.obey(command);
    let is_reached = number > 0 && !heap.is_armed();
    heap.arm(0);
    (reply, is_reached)
}

/// Whether a request comes where it is read which clause is falsified, and which values the first variables have.
fn is_requested_where_read<N, S, A: Allocator, T: Obeys<N, S, A>>(
    store: &T,
    heap: Heap<'_>,
) -> bool {
    heap.arm(1);
    let _falsified = store.falsified();
    for index in 0..16 {
        let _value = store.value(VariableId::from_index(index));
    }
    let is_requested = !heap.is_armed();
    heap.arm(0);
    is_requested
}

/// Gives a store the commands of a trial, and appends what isn't one of the lines that are wanted of them. Answers
/// which commands were refused.
pub(crate) fn push_few<N, S, A: Allocator, T: Obeys<N, S, A>>(
    store: &mut T,
    trial: &Trial<'_>,
    commands: &[Command<N, S, A>],
    wanted: &str,
    unlike: &mut String,
) -> Result<Counts, AllocError> {
    let mut counts = Counts::none();
    let mut lines = wanted.lines();
    for (place, command) in commands.iter().enumerate() {
        let (Some(said), Some(line)) = (trial.commands.get(place), lines.next()) else {
            break;
        };
        let expected = Expected::of(said, line, wanted.len().wrapping_add(place));
        if push_step(store, trial.heap, command, expected, unlike)? {
            counts.note(*said);
        }
        if is_requested_where_read(store, trial.heap) {
            unlike.push_str("a reading asked for memory\n")?;
        }
    }
    Ok(counts)
}

/// What is known of a command before it is given.
#[derive(Clone, Copy)]
struct Expected<'e> {
    /// The line that is wanted of it where no request is refused.
    line: &'e str,
    /// The number of the request that is refused to it; 0 where none is.
    number: u64,
    /// Whether it takes no memory. Then the first request is refused, so that it shows whether one comes: none may.
    is_free: bool,
}

impl Expected<'_> {
    /// What is known of the command that says this. Which request is refused to it follows from the seed.
    fn of<'e>(said: &Statement<'_>, line: &'e str, seed: usize) -> Expected<'e> {
        let is_free = takes_no_memory(said, line);
        let number = if is_free {
            1
        } else {
            (seed as u64).wrapping_mul(3) % 8
        };
        Expected {
            line,
            number,
            is_free,
        }
    }
}

/// Gives a store a command of which a request is refused, and answers whether the command was. A `decide` that is
/// refused is left so; each other command is given once more then, since those behind it count on it. Appends what
/// isn't wanted.
fn push_step<N, S, A: Allocator, T: Obeys<N, S, A>>(
    store: &mut T,
    heap: Heap<'_>,
    command: &Command<N, S, A>,
    expected: Expected<'_>,
    unlike: &mut String,
) -> Result<bool, AllocError> {
    let (first, is_reached) = refused_reply(store, command, heap, expected.number);
    let is_refused = is_refused(&first);
    let is_left = is_refused && matches!(command, Command::Decide);
    let reply = if is_refused && !is_left {
        drop(first);
        store.obey(command)
    } else {
        first
    };
    let line = format!(in *unlike.allocator(); "{reply}")?;
    drop(reply);
    let is_wanted = is_left || line.as_str() == expected.line;
    let is_passed_over = is_reached && !is_refused && !may_do_without(command);
    // Where a clause is falsified, a decision may take memory, but is never refused.
    let is_withheld = is_refused && expected.line.starts_with("falsified");
    if !is_wanted || is_passed_over || is_withheld || (is_reached && expected.is_free) {
        unlike.push_str(line.as_str())?;
        unlike.push_str("\n")?;
    }
    Ok(is_refused)
}

/// Puts what isn't wanted of a trial in such memory after what waits.
pub(crate) fn write_few(
    trial: &Trial<'_>,
    answers: &str,
    waiting: &mut Vec<u8>,
    counts: &mut Counts,
) -> Result<(), StoreError> {
    let output = output_of(trial, Ids::Dense, Task::Few(answers))?;
    counts.join(output.refused);
    let unlike = output.text.as_str();
    push_unlike("where requests are refused:\n", unlike, "", waiting)?;
    Ok(())
}
