//! Commands that take no memory.
use crate::trial::Trial;
use script_text::{Statement, is_word};

/// Commands that take something back, hand an assignment out, or change what is there already.
const COMMANDS: [&str; 5] = [
    "undo-last",
    "undo-until",
    "unpropagated",
    "decay",
    "standard",
];

/// The lines of commands that find a value that is there, or a tracked variable.
const LINES: [&str; 3] = ["already", "clash", "tracked no 0"];

/// The lines of refusals that don't follow from the command and the store alone: those for want of memory or ids, and
/// where the provider stops.
const UNFORESEEN: [&str; 3] = ["refused 1", "refused 2", "refused 12"];

/// Whether a command that is to be answered by this line takes no memory: it is of a kind that takes none, or what it
/// asks for is there already, or it is refused for what it names.
pub(crate) fn takes_no_memory(said: &Statement<'_>, wanted: &str) -> bool {
    is_one_of(said.keyword, &COMMANDS)
        || is_one_of(wanted.as_bytes(), &LINES)
        || wanted.starts_with("refused") && !is_one_of(wanted.as_bytes(), &UNFORESEEN)
}

fn is_one_of(word: &[u8], words: &[&str]) -> bool {
    for one in words {
        if is_word(word, one.as_bytes()) {
            return true;
        }
    }
    false
}

/// Whether the command of a place takes no memory where the trial is answered so.
pub(crate) fn is_free(trial: &Trial<'_>, answers: &str, place: usize) -> bool {
    match (trial.commands.get(place), answers.lines().nth(place)) {
        (Some(said), Some(wanted)) => takes_no_memory(said, wanted),
        _ => false,
    }
}
