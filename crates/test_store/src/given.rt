//! Commands by the ids that a store has, as the statements of a trial give them.
use decisions::Literal;
use providers::Requirement;
use resolvo_store::{Command, HelperOrigin};
use script_packages::{id, requirement};
use script_text::{Statement, is_word, next_word, number};
use std::alloc::Allocator;
use test_support::Numbered;
use typed_ids::{DenseIndex, DisjunctionId, NameId, SolvableId, StoreError};

/// The commands that the statements give, in order.
pub(crate) fn commands_of<N: Numbered, S: Numbered, A: Allocator + Copy>(
    alloc: A,
    lines: &[Statement<'_>],
) -> Result<Vec<Command<N, S, A>, A>, StoreError> {
    let mut commands = Vec::new(alloc);
    for said in lines {
        commands.push(command_of(alloc, *said)?)?;
    }
    Ok(commands)
}

/// The command that a statement gives.
fn command_of<N: Numbered, S: Numbered, A: Allocator + Copy>(
    alloc: A,
    said: Statement<'_>,
) -> Result<Command<N, S, A>, StoreError> {
    let [first, second, _, _] = words_of(said.rest);
    if is_word(said.keyword, b"learnt") {
        Ok(Command::Learnt(literals_of(alloc, said.rest)?))
    } else if is_word(said.keyword, b"disjunction") {
        let (condition, literals) = next_word(said.rest).ok_or(StoreError::UnknownId)?;
        Ok(Command::Disjunction(literals_of(alloc, literals)?, index(condition)?))
    } else if is_word(said.keyword, b"variable") {
        Ok(Command::Variable(solvable(first)?))
    } else if is_word(said.keyword, b"helper") {
        Ok(Command::Helper(origin_of(first, second)?))
    } else if is_word(said.keyword, b"at-most-once") {
        Ok(Command::AtMostOnce(name(first)?, index(second)?))
    } else if is_word(said.keyword, b"bump") {
        Ok(Command::Bump(name(first)?, amount(second)?))
    } else if is_word(said.keyword, b"requires") || is_word(said.keyword, b"load") {
        requirement_command(said)
    } else {
        plain_command(said)
    }
}

/// The command that a statement gives, if it is one that names a requirement.
fn requirement_command<N, S, A: Allocator>(
    said: Statement<'_>,
) -> Result<Command<N, S, A>, StoreError> {
    let [first, second, third, _] = words_of(said.rest);
    if is_word(said.keyword, b"load") {
        return Ok(Command::Load(required(first)?));
    }
    let disjunction: Option<DisjunctionId> = id(third);
    Ok(Command::Requires(index(first)?, required(second)?, disjunction))
}

/// The command that a statement gives, if it is one of the trail, of scores or of watch lists.
fn plain_command<N, S, A: Allocator>(said: Statement<'_>) -> Result<Command<N, S, A>, StoreError> {
    let [first, second, third, fourth] = words_of(said.rest);
    if is_word(said.keyword, b"assign") {
        let value = is_word(second, b"true");
        Ok(Command::Assign(index(first)?, value, index(third)?, index(fourth)?))
    } else if is_word(said.keyword, b"undo-last") {
        Ok(Command::UndoLast)
    } else if is_word(said.keyword, b"undo-until") {
        Ok(Command::UndoUntil(index(first)?))
    } else if is_word(said.keyword, b"unpropagated") {
        Ok(Command::Unpropagated)
    } else if is_word(said.keyword, b"decay") {
        Ok(Command::Decay(amount(first)?, amount(second)?))
    } else if is_word(said.keyword, b"standard") {
        Ok(Command::Standard(is_word(first, b"true")))
    } else if is_word(said.keyword, b"rewatch") {
        let (from, to) = (literal(second)?, literal(third)?);
        Ok(Command::Rewatch(index(first)?, from, to))
    } else if is_word(said.keyword, b"watchers") {
        Ok(Command::Watchers(literal(first)?))
    } else if is_word(said.keyword, b"saturate") {
        Ok(Command::Saturate(index(first)?))
    } else if is_word(said.keyword, b"decide") {
        Ok(Command::Decide)
    } else {
        clause_command(said)
    }
}

/// The command that a statement gives, if it is a clause that it names whole.
fn clause_command<N, S, A: Allocator>(said: Statement<'_>) -> Result<Command<N, S, A>, StoreError> {
    if is_word(said.keyword, b"root") {
        return Ok(Command::Root);
    }
    let [first, second, third, _] = words_of(said.rest);
    let variable = index(first)?;
    if is_word(said.keyword, b"constrains") {
        Ok(Command::Constrains(variable, index(second)?, index(third)?))
    } else if is_word(said.keyword, b"constrains-excluded") {
        Ok(Command::ConstrainsExcluded(variable, index(second)?, index(third)?))
    } else if is_word(said.keyword, b"constrains-parent") {
        Ok(Command::ConstrainsParent(variable, index(second)?, index(third)?))
    } else if is_word(said.keyword, b"lock") {
        Ok(Command::Lock(variable, index(second)?))
    } else if is_word(said.keyword, b"exclude") {
        Ok(Command::Exclude(variable, index(second)?))
    } else if is_word(said.keyword, b"any-of") {
        Ok(Command::AnyOf(variable, index(second)?))
    } else {
        Err(StoreError::UnknownId)
    }
}

/// What a helper variable is to stand for.
fn origin_of<N: Numbered>(kind: &[u8], word: &[u8]) -> Result<HelperOrigin<N>, StoreError> {
    if is_word(kind, b"any-of") {
        Ok(HelperOrigin::AtLeastOne(name(word)?))
    } else if is_word(kind, b"violation") {
        Ok(HelperOrigin::ConstrainsViolation(index(word)?))
    } else {
        Ok(HelperOrigin::RequiresGate(required(word)?))
    }
}

/// The first four words of a text; one that isn't there is empty.
fn words_of(text: &[u8]) -> [&[u8]; 4] {
    let (first, rest) = word_of(text);
    let (second, rest) = word_of(rest);
    let (third, rest) = word_of(rest);
    [first, second, third, word_of(rest).0]
}

/// The first word of a text, and what is after it; both are empty if there is none.
fn word_of(text: &[u8]) -> (&[u8], &[u8]) {
    match next_word(text) {
        Some(split) => split,
        None => (b"", b""),
    }
}

/// The literals that the words of a text stand for.
fn literals_of<A: Allocator>(alloc: A, text: &[u8]) -> Result<Vec<Literal, A>, StoreError> {
    let mut literals = Vec::new(alloc);
    let mut rest = text;
    for _ in 0..text.len() {
        let Some((word, others)) = next_word(rest) else {
            break;
        };
        literals.push(literal(word)?)?;
        rest = others;
    }
    Ok(literals)
}

fn literal(word: &[u8]) -> Result<Literal, StoreError> {
    match word {
        [b'+', variable @ ..] => Ok(Literal::new(index(variable)?, false)),
        [b'-', variable @ ..] => Ok(Literal::new(index(variable)?, true)),
        _ => Err(StoreError::UnknownId),
    }
}

fn required(word: &[u8]) -> Result<Requirement, StoreError> {
    requirement(word).ok_or(StoreError::UnknownId)
}

fn name<N: Numbered>(word: &[u8]) -> Result<N, StoreError> {
    let name: NameId = index(word)?;
    Ok(N::numbered(name.number()))
}

fn solvable<S: Numbered>(word: &[u8]) -> Result<S, StoreError> {
    let solvable: SolvableId = index(word)?;
    Ok(S::numbered(solvable.number()))
}

fn index<I: DenseIndex>(word: &[u8]) -> Result<I, StoreError> {
    id(word).ok_or(StoreError::UnknownId)
}

fn amount(word: &[u8]) -> Result<u64, StoreError> {
    number(word).ok_or(StoreError::UnknownId)
}
