//! What caches answer to the questions of a trial. A question is a line:
//!
//! | line | what is asked for | answer |
//! |---|---|---|
//! | `candidates NAME` | the candidates of a package | `solvables 0 1 2`, of more than four the first four |
//! | `extras NAME` | the locked solvable; how many are excluded, and the first | `locked Some(1) excluded 1: Some(1)` |
//! | `matching SET` | those that a version set holds | `solvables 1 0` |
//! | `others SET` | those that it doesn't hold | `solvables 3` |
//! | `sorted SET` | those that it holds, best first | `solvables 0 1` |
//! | `required R` | those that meet a requirement, best first | `solvables 1 0 3` |
//! | `needs SOLVABLE` | whether it is known what a solvable needs | `known true` |
//! | `available SOLVABLE` | whether that is at hand | `available true` |
//!
//! A question about what isn't there is answered `unknown`, one that is refused `refused 1`, and one that is stopped
//! `cancelled 7`.
use crate::answers::push_unlike;
use crate::listed::number_of;
use crate::played::{Heap, provider_of};
use crate::trial::Trial;
use providers::{Candidates, Dependencies, DependencyProvider, Interner, Requirement};
use script_packages::requirement;
use script_text::{Statement, is_word, next_word};
use solver_cache::{CacheError, SolverCache};
use std::alloc::{AllocError, Allocator, Global};
use test_support::{Counting, Counts, Lists, Numbered};
use typed_ids::{NameId, SolvableId, StoreError, VersionSetId, VersionSetUnionId};

/// A question. Packages and solvables are told by their numbers.
#[derive(Clone, Copy)]
enum Question {
    Candidates(u32),
    Extras(u32),
    OfSet(VersionSetId, Part),
    OfUnion(VersionSetUnionId),
    Needs(u32),
    IsAvailable(u32),
}

/// Which candidates of a version set's package are asked for.
#[derive(Clone, Copy)]
enum Part {
    Matching,
    Others,
    Sorted,
    /// Those of the requirement of the version set alone.
    Required,
}

/// An answer, copied out. What asks a cache does no more, since a proof over the cache's own type is long.
#[derive(Clone, Copy)]
enum Seen {
    /// The number of solvables, and the first four of them.
    Solvables(usize, [u32; 4]),
    /// The locked solvable, how many are excluded, and the first of them.
    Extras(Option<u32>, usize, Option<u32>),
    IsKnown(bool),
    IsAvailable(bool),
    Refused(StoreError),
    Cancelled(u32),
    Unknown,
}

/// The question that a line asks.
fn question_of(said: Statement<'_>) -> Question {
    let number = number_of(said.rest);
    if is_word(said.keyword, b"candidates") {
        Question::Candidates(number)
    } else if is_word(said.keyword, b"extras") {
        Question::Extras(number)
    } else if is_word(said.keyword, b"needs") {
        Question::Needs(number)
    } else if is_word(said.keyword, b"available") {
        Question::IsAvailable(number)
    } else if is_word(said.keyword, b"matching") {
        Question::OfSet(VersionSetId(number), Part::Matching)
    } else if is_word(said.keyword, b"others") {
        Question::OfSet(VersionSetId(number), Part::Others)
    } else if is_word(said.keyword, b"sorted") {
        Question::OfSet(VersionSetId(number), Part::Sorted)
    } else {
        required(said.rest)
    }
}

/// The question for the candidates that meet a requirement; for those of no union where there is none.
fn required(line: &[u8]) -> Question {
    let word = match next_word(line) {
        Some((word, _)) => word,
        None => line,
    };
    match requirement(word) {
        Some(Requirement::Single(set)) => Question::OfSet(set, Part::Required),
        Some(Requirement::Union(union)) => Question::OfUnion(union),
        None => Question::OfUnion(VersionSetUnionId(u32::MAX)),
    }
}

/// A cache whose provider counts what it is asked. Packages and solvables are told by their numbers.
trait Queries {
    /// What is kept of a package: its candidates, or what else there is.
    fn candidates(&mut self, name: u32, is_extras: bool) -> Seen;

    fn of_set(&mut self, set: VersionSetId, part: Part) -> Seen;

    fn of_union(&mut self, union: VersionSetUnionId) -> Seen;

    fn needs(&mut self, solvable: u32) -> Seen;

    /// Whether it is said to be at hand what a solvable needs.
    fn is_at_hand(&self, solvable: u32) -> bool;

    /// How often the provider was asked.
    fn counts(&self) -> Counts;
}

impl<
    D: DependencyProvider<Cancel = u32, NameId: Numbered, SolvableId: Numbered> + Counting + Drop,
> Queries for SolverCache<D> {
    fn candidates(&mut self, name: u32, is_extras: bool) -> Seen {
        match self.cache_candidates(D::NameId::numbered(name)) {
            Ok(id) => shown_of(SolverCache::candidates(self, id), is_extras),
            Err(error) => unanswered(error),
        }
    }

    fn of_set(&mut self, set: VersionSetId, part: Part) -> Seen {
        if !self.provider().knows_version_set(set) {
            return Seen::Unknown;
        }
        let answer = match part {
            Part::Matching => self.cache_matching_candidates(set),
            Part::Others => self.cache_non_matching_candidates(set),
            Part::Sorted => self.cache_sorted_candidates_for_version_set(set),
            Part::Required => self.cache_sorted_candidates(Requirement::Single(set)),
        };
        match answer {
            Ok(id) => shown(self.list(id)),
            Err(error) => unanswered(error),
        }
    }

    fn of_union(&mut self, union: VersionSetUnionId) -> Seen {
        if !self.provider().knows_union(union) {
            return Seen::Unknown;
        }
        match self.cache_sorted_candidates(Requirement::Union(union)) {
            Ok(id) => shown(self.list(id)),
            Err(error) => unanswered(error),
        }
    }

    fn needs(&mut self, solvable: u32) -> Seen {
        let solvable = D::SolvableId::numbered(solvable);
        if !self.provider().knows_solvable(solvable) {
            return Seen::Unknown;
        }
        match self.cache_dependencies(solvable) {
            Ok(id) => Seen::IsKnown(matches!(self.dependencies(id), Dependencies::Known(_))),
            Err(error) => unanswered(error),
        }
    }

    fn is_at_hand(&self, solvable: u32) -> bool {
        self.are_dependencies_available_for(D::SolvableId::numbered(solvable))
    }

    fn counts(&self) -> Counts {
        self.provider().counts()
    }
}

/// Asks a cache a question.
fn ask<T: Queries>(cache: &mut T, question: Question) -> Seen {
    match question {
        Question::Candidates(name) => cache.candidates(name, false),
        Question::Extras(name) => cache.candidates(name, true),
        Question::OfSet(set, part) => cache.of_set(set, part),
        Question::OfUnion(union) => cache.of_union(union),
        Question::Needs(solvable) => cache.needs(solvable),
        Question::IsAvailable(solvable) => Seen::IsAvailable(cache.is_at_hand(solvable)),
    }
}

fn unanswered(error: CacheError<u32>) -> Seen {
    match error {
        CacheError::Store(refused) => Seen::Refused(refused),
        CacheError::Cancelled(value) => Seen::Cancelled(value),
    }
}

fn shown_of<S: Numbered, A: Allocator>(kept: &Candidates<S, A>, is_extras: bool) -> Seen {
    if !is_extras {
        return shown(&kept.candidates);
    }
    let locked = match kept.locked {
        Some(locked) => Some(locked.number()),
        None => None,
    };
    let excluded = match kept.excluded.first() {
        Some(first) => Some(first.0.number()),
        None => None,
    };
    Seen::Extras(locked, kept.excluded.len(), excluded)
}

fn shown<S: Numbered>(list: &[S]) -> Seen {
    let mut first = [0; 4];
    for (place, solvable) in first.iter_mut().zip(list) {
        *place = solvable.number();
    }
    Seen::Solvables(list.len(), first)
}

/// Appends the line of an answer.
fn push_seen(alloc: Global, seen: Seen, output: &mut String) -> Result<(), AllocError> {
    let line = match seen {
        Seen::Solvables(count, first) => return push_solvables(alloc, count, &first, output),
        Seen::Extras(locked, count, excluded) => {
            format!(in alloc; "locked {locked:?} excluded {count}: {excluded:?}\n")?
        }
        Seen::IsKnown(is_known) => format!(in alloc; "known {is_known}\n")?,
        Seen::IsAvailable(is_available) => format!(in alloc; "available {is_available}\n")?,
        Seen::Refused(refused) => format!(in alloc; "refused {}\n", refused.code())?,
        Seen::Cancelled(value) => format!(in alloc; "cancelled {value}\n")?,
        Seen::Unknown => format!(in alloc; "unknown\n")?,
    };
    output.push_str(line.as_str())
}

/// Appends how many solvables there are, and the first of them.
fn push_solvables(
    alloc: Global,
    count: usize,
    first: &[u32],
    output: &mut String,
) -> Result<(), AllocError> {
    output.push_str("solvables")?;
    for solvable in first.iter().take(count) {
        let word = format!(in alloc; " {solvable}")?;
        output.push_str(word.as_str())?;
    }
    output.push_str("\n")
}

/// What caches tell: their answers; whether the request came that was to be refused; and how often the provider was
/// asked.
type Output = (String, bool, Counts);

/// Which of the first eight solvables are said to be at hand, as the digits of a number.
fn at_hand<T: Queries>(cache: &T) -> u32 {
    let mut are_at_hand: u32 = 0;
    for solvable in 0..8 {
        if cache.is_at_hand(solvable) {
            are_at_hand |= 1 << solvable;
        }
    }
    are_at_hand
}

/// Asks a question again that was refused where these solvables were at hand before it. Tells which are at hand after
/// the refusal, unless all that were before are still, and none is that isn't after the second answer.
fn queried_again<T: Queries>(
    alloc: Global,
    cache: &mut T,
    question: Question,
    before: u32,
    output: &mut String,
) -> Result<Seen, AllocError> {
    let refused = at_hand(cache);
    let seen = ask(cache, question);
    if before & !refused != 0 || refused & !at_hand(cache) != 0 {
        let line = format!(in alloc; "at hand after a refusal: {refused:b}\n")?;
        output.push_str(line.as_str())?;
    }
    Ok(seen)
}

/// The answers to all questions in turn, of which the request of this number is refused. A refused question is asked
/// again, and its second answer stands.
fn answers_of<T: Queries>(
    cache: &mut T,
    trial: &Trial<'_>,
    number: u64,
) -> Result<Output, AllocError> {
    let mut output = String::new(trial.alloc);
    let mut is_reached = false;
    trial.heap.arm(number);
    for said in trial.commands {
        let question = question_of(*said);
        let before = at_hand(cache);
        let mut seen = ask(cache, question);
        if matches!(seen, Seen::Refused(StoreError::OutOfMemory)) {
            is_reached = true;
            seen = queried_again(trial.alloc, cache, question, before, &mut output)?;
        }
        push_seen(trial.alloc, seen, &mut output)?;
    }
    trial.heap.arm(0);
    Ok((output, is_reached, cache.counts()))
}

/// What a new cache tells over a provider.
fn output_over<
    D: DependencyProvider<Cancel = u32, NameId: Numbered, SolvableId: Numbered> + Counting + Drop,
>(counted: D::Alloc, provider: D, trial: &Trial<'_>, number: u64) -> Result<Output, AllocError> {
    let mut cache = SolverCache::new(counted, provider);
    let output = answers_of(&mut cache, trial, number);
    drop(cache);
    output
}

/// What a new cache tells over the trial's packages, where the request of this number is refused.
fn output(trial: &Trial<'_>, number: u64) -> Result<Output, StoreError> {
    let provider: Lists<NameId, SolvableId, Heap<'_>> = provider_of(trial.heap, trial)?;
    Ok(output_over(trial.heap, provider, trial, number)?)
}

/// Puts what a cache tells of a trial, and how often the provider was asked, after what waits; and where each request
/// is refused in turn, what is answered otherwise then.
pub(crate) fn push_queried(trial: &Trial<'_>, waiting: &mut Vec<u8>) -> Result<(), StoreError> {
    let (answers, _, counts) = output(trial, 0)?;
    waiting.extend_from_slice(answers.as_bytes())?;
    let (candidates, dependencies) = (counts.candidates, counts.dependencies);
    let line = format!(in trial.alloc; "asked {candidates} {dependencies} {}\n", counts.cancels)?;
    waiting.extend_from_slice(line.as_bytes())?;
    if trial.is(b"each") {
        push_refused(trial, answers.as_str(), waiting)?;
    }
    Ok(())
}

fn push_refused(trial: &Trial<'_>, answers: &str, waiting: &mut Vec<u8>) -> Result<(), StoreError> {
    for number in 1..1000 {
        let (seen, is_reached, _) = output(trial, number)?;
        if !is_reached {
            let line = if number > 4 {
                "each request was refused\n"
            } else {
                "too few requests\n"
            };
            return Ok(waiting.extend_from_slice(line.as_bytes())?);
        }
        push_unlike("refused a request:\n", seen.as_str(), answers, waiting)?;
    }
    Ok(waiting.extend_from_slice(b"too many requests\n")?)
}
