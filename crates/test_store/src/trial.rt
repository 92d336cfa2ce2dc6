//! Trials, cut out of a text, and how each is played.
use crate::answers::push_unlike;
use crate::cache::push_queried;
use crate::each::write_each;
use crate::few::{Counts, write_few};
use crate::played::{Heap, Ids, output_of};
use crate::task::Task;
use script_text::{Line, Statement, is_word, next_statement, next_word};
use std::alloc::{AllocError, Global};
use test_support::{Refusing, Stops};
use typed_ids::StoreError;

/// A trial: what stands behind the first word of its first line, what its catalogue lists, and its commands.
#[derive(Clone, Copy)]
pub(crate) struct Trial<'t> {
    /// The memory of what is told.
    pub(crate) alloc: Global,
    /// The memory of stores and caches.
    pub(crate) heap: Heap<'t>,
    pub(crate) words: &'t [u8],
    pub(crate) catalogue: &'t [Statement<'t>],
    pub(crate) commands: &'t [Statement<'t>],
    /// Commands that tell what a store is like, of a trial whose requests are each refused.
    pub(crate) probes: &'t [Statement<'t>],
}

impl Trial<'_> {
    /// Whether its first line has this word.
    pub(crate) fn is(&self, wanted: &[u8]) -> bool {
        let mut rest = self.words;
        for _ in 0..self.words.len() {
            let Some((word, others)) = next_word(rest) else {
                return false;
            };
            if is_word(word, wanted) {
                return true;
            }
            rest = others;
        }
        false
    }

    /// When the provider stops.
    pub(crate) fn stops(&self) -> Stops {
        if self.is(b"first") {
            Stops::AtFirst
        } else if self.is(b"second") {
            Stops::AtSecond
        } else if self.is(b"after") {
            Stops::AfterFirst
        } else if self.is(b"other") {
            Stops::EveryOther
        } else if self.is(b"always") {
            Stops::Always
        } else {
            Stops::Never
        }
    }
}

/// The places of the commands and of the probes among a trial's lines.
#[derive(Clone, Copy)]
struct Places {
    commands: usize,
    probes: usize,
}

/// Appends the lines up to the next trial, but for those that part them. Answers where the parts begin, and what comes
/// from the next trial on.
fn push_lines<'t>(
    lines: &mut Vec<Statement<'t>>,
    text: &'t [u8],
) -> Result<(Places, &'t [u8]), AllocError> {
    let mut places = Places {
        commands: 0,
        probes: usize::MAX,
    };
    let mut rest = text;
    for _ in 0..text.len() {
        let Some((Line::Says(said), others)) = next_statement(rest) else {
            break;
        };
        if is_word(said.keyword, b"trial") {
            break;
        }
        rest = others;
        if is_word(said.keyword, b"begin") {
            places.commands = lines.len();
        } else if is_word(said.keyword, b"probes") {
            places.probes = lines.len();
        } else {
            lines.push(said)?;
        }
    }
    Ok((places, rest))
}

/// The trial of these lines.
fn trial_of<'t>(
    alloc: Global,
    heap: Heap<'t>,
    words: &'t [u8],
    lines: &'t [Statement<'t>],
    places: Places,
) -> Trial<'t> {
    let (above, probes) = lines.split_at(places.probes.min(lines.len()));
    let (catalogue, commands) = above.split_at(places.commands.min(above.len()));
    Trial {
        alloc,
        heap,
        words,
        catalogue,
        commands,
        probes,
    }
}

/// Puts the answers of all trials of a text after what waits, and what came of the refusals.
pub(crate) fn push_answers(
    alloc: Global,
    text: &[u8],
    waiting: &mut Vec<u8>,
) -> Result<(), StoreError> {
    let heap = Refusing::new(alloc);
    let mut counts = Counts::none();
    let mut rest = text;
    for _ in 0..text.len() {
        let Some((Line::Says(first), below)) = next_statement(rest) else {
            break;
        };
        let mut lines = Vec::new(alloc);
        let (places, others) = push_lines(&mut lines, below)?;
        rest = others;
        let trial = trial_of(alloc, &heap, first.rest, &lines, places);
        push_answer(&trial, waiting, &mut counts)?;
    }
    Ok(counts.push(waiting)?)
}

/// Puts a trial's answers after what waits.
fn push_answer(
    trial: &Trial<'_>,
    waiting: &mut Vec<u8>,
    counts: &mut Counts,
) -> Result<(), StoreError> {
    waiting.extend_from_slice(b"trial ")?;
    waiting.extend_from_slice(trial.words)?;
    waiting.push(b'\n')?;
    if trial.is(b"cache") {
        push_queried(trial, waiting)
    } else if trial.is(b"texts") {
        let texts = output_of(trial, Ids::Dense, Task::Texts)?;
        Ok(waiting.extend_from_slice(texts.text.as_bytes())?)
    } else {
        let answers = output_of(trial, Ids::Dense, Task::Steps)?;
        waiting.extend_from_slice(answers.text.as_bytes())?;
        push_others(trial, answers.text.as_str(), waiting, counts)
    }
}

/// Plays the trial in all other ways, and puts what they tell after what waits where it isn't what the first one told.
fn push_others(
    trial: &Trial<'_>,
    answers: &str,
    waiting: &mut Vec<u8>,
    counts: &mut Counts,
) -> Result<(), StoreError> {
    push_ways(trial, answers, waiting)?;
    if trial.is(b"few") {
        write_few(trial, answers, waiting, counts)?;
    }
    if trial.is(b"each") {
        write_each(trial, Ids::Dense, answers, waiting, counts)?;
        write_each(trial, Ids::Sparse, answers, waiting, counts)?;
    }
    Ok(())
}

/// In one run, by sparse ids, and under each setting of `Standard` and both by turns.
fn push_ways(trial: &Trial<'_>, answers: &str, waiting: &mut Vec<u8>) -> Result<(), StoreError> {
    let (dense, sparse) = (Ids::Dense, Ids::Sparse);
    let run = ("in one run:\n", Task::Run);
    let steps = ("by sparse ids:\n", Task::Steps);
    let sparse_run = ("by sparse ids in one run:\n", Task::Run);
    let standard = ("by the standard setting:\n", Task::Set(true, true));
    let other = ("by the other setting:\n", Task::Set(false, false));
    let in_turn = ("by the settings in turn:\n", Task::Set(false, true));
    push_other(trial, dense, run, answers, waiting)?;
    push_other(trial, sparse, steps, answers, waiting)?;
    push_other(trial, sparse, sparse_run, answers, waiting)?;
    push_other(trial, dense, standard, answers, waiting)?;
    push_other(trial, dense, other, answers, waiting)?;
    push_other(trial, dense, in_turn, answers, waiting)
}

/// Puts what a store tells of a task under a heading after what waits, where it isn't this.
fn push_other(
    trial: &Trial<'_>,
    ids: Ids,
    (heading, task): (&str, Task<'_>),
    answers: &str,
    waiting: &mut Vec<u8>,
) -> Result<(), StoreError> {
    let seen = output_of(trial, ids, task)?;
    Ok(push_unlike(heading, seen.text.as_str(), answers, waiting)?)
}
