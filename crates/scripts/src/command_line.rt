//! The words of commands. All that reads them is inlined where a command is obeyed: so no command is made in memory.
ghost use Rattle.std.specs.Prelude.{◌≡◌, [], ◌∷◌, IfSome, MatchOption, option_and_then, option_map};
ghost use Rattle.script_packages.specs.Ids.{truth_of};
ghost use Rattle.script_text.specs.Numbers.{below, number_of};
ghost use Rattle.script_text.specs.Words.{words};
ghost use Rattle.resolvo_store.specs.Command.{command_of};
ghost use Rattle.scripts.specs.Commands.{ids_at, only_word, pair_of, pair_and_set_of, helper_origin_of};
ghost use Rattle.scripts.specs.Commands.{any_of_command, bare_command, constrains_command, constrains_excluded_command};
ghost use Rattle.scripts.specs.Commands.{constrains_parent_command, lock_command};
ghost use Rattle.scripts.specs.Commands.{variable_command, helper_command, load_command, disjunction_command};
ghost use Rattle.scripts.specs.Commands.{requires_command, assign_command};
ghost use Rattle.scripts.specs.Commands.{undo_command, exclude_command, learnt_command, rewatch_command};
ghost use Rattle.scripts.specs.Commands.{watchers_command, saturate_command};
ghost use Rattle.scripts.specs.Commands.{at_most_once_command, bump_command, decay_command, standard_command};
ghost use Rattle.scripts.specs.Transcript.{IsRead};

use crate::literal_words::{literal_of, literals};
use resolvo_store::{Command, HelperOrigin};
use script_packages::{id, id_of, requirement, requirement_of};
use script_text::{LineFault, is_word, next_marked, next_number, next_word};
use std::alloc::Allocator;
use typed_ids::{DenseIndex, VariableId, VersionSetId};

/// `learnt LIT ..`
#[inline(always)]
pub(crate) fn learnt<N, S, A: Allocator>(
    alloc: A,
    text: &[u8],
) -> Result<Command<N, S, A>, LineFault>
    ensures { IsRead (learnt_command (words text.now)) result }
{
    match literals(alloc, text) {
        Ok(literals) => Ok(Command::Learnt(literals)),
        Err(fault) => Err(fault),
    }
}

/// `disjunction CONDITION LIT ..`
#[inline(always)]
pub(crate) fn disjunction<N, S, A: Allocator>(
    alloc: A,
    text: &[u8],
) -> Result<Command<N, S, A>, LineFault>
    ensures { IsRead (disjunction_command (words text.now)) result }
{
    let Some((condition, text)) = next_number(text) else {
        return Err(LineFault::Unreadable);
    };
    let Some(condition) = id_of(&condition) else {
        return Err(LineFault::Unreadable);
    };
    match literals(alloc, text) {
        Ok(literals) => Ok(Command::Disjunction(literals, condition)),
        Err(fault) => Err(fault),
    }
}

/// The one word of a text.
#[inline(always)]
fn only_word(text: &[u8]) -> Option<&[u8]>
    ensures { option_map (λ w. w.now) result ≡ only_word (words text.now) }
{
    let (word, rest) = next_word(text)?;
    match next_word(rest) {
        Some(_) => None,
        None => Some(word),
    }
}

/// The id that the one word of a text stands for.
#[inline(always)]
fn only_id<I: DenseIndex>(text: &[u8]) -> Option<I>
    ensures { result ≡ option_and_then (λ w. option_map I.id_at (below I.limit (number_of w)))
        (only_word (words text.now)) }
{
    let (word, text) = next_number(text)?;
    match next_word(text) {
        Some(_) => None,
        None => id_of(&word),
    }
}

/// `V V`
#[inline(always)]
fn pair(text: &[u8]) -> Option<(VariableId, VariableId)>
    ensures { result ≡ pair_of (words text.now) }
{
    let (first, text) = next_number(text)?;
    let first = id_of(&first)?;
    let (second, text) = next_number(text)?;
    match next_word(text) {
        Some(_) => None,
        None => Some((first, id_of(&second)?)),
    }
}

/// `V V SET`
#[inline(always)]
fn pair_and_set(text: &[u8]) -> Option<(VariableId, VariableId, VersionSetId)>
    ensures { result ≡ pair_and_set_of (words text.now) }
{
    let (first, text) = next_number(text)?;
    let first = id_of(&first)?;
    let (second, text) = next_number(text)?;
    let (set, text) = next_number(text)?;
    match next_word(text) {
        Some(_) => None,
        None => Some((first, id_of(&second)?, id_of(&set)?)),
    }
}

/// `constrains V V SET`
#[inline(always)]
pub(crate) fn constrains<N, S, A: Allocator>(text: &[u8]) -> Option<Command<N, S, A>>
    ensures { option_map command_of result ≡ constrains_command (words text.now) }
{
    let (parent, forbidden, set) = pair_and_set(text)?;
    Some(Command::Constrains(parent, forbidden, set))
}

/// `constrains-excluded V V SET`
#[inline(always)]
pub(crate) fn constrains_excluded<N, S, A: Allocator>(text: &[u8]) -> Option<Command<N, S, A>>
    ensures { option_map command_of result ≡ constrains_excluded_command (words text.now) }
{
    let (candidate, aux, set) = pair_and_set(text)?;
    Some(Command::ConstrainsExcluded(candidate, aux, set))
}

/// `constrains-parent V V SET`
#[inline(always)]
pub(crate) fn constrains_parent<N, S, A: Allocator>(text: &[u8]) -> Option<Command<N, S, A>>
    ensures { option_map command_of result ≡ constrains_parent_command (words text.now) }
{
    let (parent, aux, set) = pair_and_set(text)?;
    Some(Command::ConstrainsParent(parent, aux, set))
}

/// `lock V V`
#[inline(always)]
pub(crate) fn lock<N, S, A: Allocator>(text: &[u8]) -> Option<Command<N, S, A>>
    ensures { option_map command_of result ≡ lock_command (words text.now) }
{
    let (locked, other) = pair(text)?;
    Some(Command::Lock(locked, other))
}

/// `any-of V V`
#[inline(always)]
pub(crate) fn any_of<N, S, A: Allocator>(text: &[u8]) -> Option<Command<N, S, A>>
    ensures { option_map command_of result ≡ any_of_command (words text.now) }
{
    let (selected, other) = pair(text)?;
    Some(Command::AnyOf(selected, other))
}

/// A command that is said without words.
#[inline(always)]
pub(crate) fn bare_command<N: Copy, S: Copy, A: Allocator>(
    text: &[u8],
    command: Command<N, S, A>,
) -> Option<Command<N, S, A>>
    ensures { option_map command_of result ≡ bare_command (command_of command) (words text.now) }
{
    match next_word(text) {
        Some(_) => None,
        None => Some(command),
    }
}

/// `variable SOLVABLE`
#[inline(always)]
pub(crate) fn variable<N: DenseIndex, S: DenseIndex, A: Allocator>(
    text: &[u8],
) -> Option<Command<N, S, A>>
    ensures { option_map command_of result
        ≡ variable_command (ids_at N.limit N.id_at S.limit S.id_at) (words text.now) }
{
    let solvable = only_id(text)?;
    Some(Command::Variable(solvable))
}

/// `helper any-of NAMEID`, `helper violation SET` or `helper gate R`
#[inline(always)]
pub(crate) fn helper<N: DenseIndex, S: DenseIndex, A: Allocator>(
    text: &[u8],
) -> Option<Command<N, S, A>>
    ensures { option_map command_of result
        ≡ helper_command (ids_at N.limit N.id_at S.limit S.id_at) (words text.now) }
{
    let (kind, text) = next_word(text)?;
    let (word, text) = next_word(text)?;
    match next_word(text) {
        Some(_) => None,
        None => Some(Command::Helper(helper_origin(kind, word)?)),
    }
}

/// What a helper variable is to stand for.
fn helper_origin<N: DenseIndex>(kind: &[u8], word: &[u8]) -> Option<HelperOrigin<N>>
    ensures { result ≡ helper_origin_of N.limit N.id_at kind.now word.now }
{
    if is_word(kind, b"any-of") {
        Some(HelperOrigin::AtLeastOne(id(word)?))
    } else if is_word(kind, b"violation") {
        Some(HelperOrigin::ConstrainsViolation(id(word)?))
    } else if is_word(kind, b"gate") {
        Some(HelperOrigin::RequiresGate(requirement(word)?))
    } else {
        None
    }
}

/// `load R`
#[inline(always)]
pub(crate) fn load<N, S, A: Allocator>(text: &[u8]) -> Option<Command<N, S, A>>
    ensures { option_map command_of result ≡ load_command (words text.now) }
{
    let (mark, required, text) = next_marked(text)?;
    match next_word(text) {
        Some(_) => None,
        None => Some(Command::Load(requirement_of(mark, &required)?)),
    }
}

/// `requires PARENT R` or `requires PARENT R DISJUNCTION`
#[inline(always)]
pub(crate) fn requires_clause<N, S, A: Allocator>(text: &[u8]) -> Option<Command<N, S, A>>
    ensures { option_map command_of result ≡ requires_command (words text.now) }
{
    let (parent, text) = next_number(text)?;
    let parent = id_of(&parent)?;
    let (mark, required, text) = next_marked(text)?;
    match next_number(text) {
        None => Some(Command::Requires(parent, requirement_of(mark, &required)?, None)),
        Some((disjunction, text)) => match next_word(text) {
            Some(_) => None,
            None => {
                let required = requirement_of(mark, &required)?;
                Some(Command::Requires(parent, required, Some(id_of(&disjunction)?)))
            }
        },
    }
}

/// `exclude V STRING`
#[inline(always)]
pub(crate) fn exclude<N, S, A: Allocator>(text: &[u8]) -> Option<Command<N, S, A>>
    ensures { option_map command_of result ≡ exclude_command (words text.now) }
{
    let (variable, text) = next_number(text)?;
    let (reason, text) = next_number(text)?;
    match next_word(text) {
        Some(_) => None,
        None => Some(Command::Exclude(id_of(&variable)?, id_of(&reason)?)),
    }
}

/// `at-most-once NAMEID V`
#[inline(always)]
pub(crate) fn at_most_once<N: DenseIndex, S: DenseIndex, A: Allocator>(
    text: &[u8],
) -> Option<Command<N, S, A>>
    ensures { option_map command_of result
        ≡ at_most_once_command (ids_at N.limit N.id_at S.limit S.id_at) (words text.now) }
{
    let (name, text) = next_number(text)?;
    let (variable, text) = next_number(text)?;
    match next_word(text) {
        Some(_) => None,
        None => Some(Command::AtMostOnce(id_of(&name)?, id_of(&variable)?)),
    }
}

/// `assign V BOOL CLAUSE LEVEL`
#[inline(always)]
pub(crate) fn assign<N, S, A: Allocator>(text: &[u8]) -> Option<Command<N, S, A>>
    ensures { option_map command_of result ≡ assign_command (words text.now) }
{
    let (variable, text) = next_number(text)?;
    let variable = id_of(&variable)?;
    let (value, text) = next_truth(text)?;
    let (clause, text) = next_number(text)?;
    let (level, text) = next_number(text)?;
    match next_word(text) {
        Some(_) => None,
        None => {
            let (value, clause) = (value.truth?, id_of(&clause)?);
            Some(Command::Assign(variable, value, clause, id_of(&level)?))
        }
    }
}

/// `undo-until LEVEL`
#[inline(always)]
pub(crate) fn undo_until<N, S, A: Allocator>(text: &[u8]) -> Option<Command<N, S, A>>
    ensures { option_map command_of result ≡ undo_command (words text.now) }
{
    let level = only_id(text)?;
    Some(Command::UndoUntil(level))
}

/// `bump NAMEID AMOUNT`
#[inline(always)]
pub(crate) fn bump<N: DenseIndex, S: DenseIndex, A: Allocator>(
    text: &[u8],
) -> Option<Command<N, S, A>>
    ensures { option_map command_of result
        ≡ bump_command (ids_at N.limit N.id_at S.limit S.id_at) (words text.now) }
{
    let (name, text) = next_number(text)?;
    let (amount, text) = next_number(text)?;
    match next_word(text) {
        Some(_) => None,
        None => Some(Command::Bump(id_of(&name)?, amount.number?)),
    }
}

/// `decay N D`
#[inline(always)]
pub(crate) fn decay<N, S, A: Allocator>(text: &[u8]) -> Option<Command<N, S, A>>
    ensures { option_map command_of result ≡ decay_command (words text.now) }
{
    let (numerator, text) = next_number(text)?;
    let (denominator, text) = next_number(text)?;
    match next_word(text) {
        Some(_) => None,
        None => Some(Command::Decay(numerator.number?, denominator.number?)),
    }
}

/// `standard BOOL`
#[inline(always)]
pub(crate) fn standard<N, S, A: Allocator>(text: &[u8]) -> Option<Command<N, S, A>>
    ensures { option_map command_of result ≡ standard_command (words text.now) }
{
    let standard = truth(only_word(text)?)?;
    Some(Command::Standard(standard))
}

/// `rewatch CLAUSE LIT LIT`
#[inline(always)]
pub(crate) fn rewatch<N, S, A: Allocator>(text: &[u8]) -> Option<Command<N, S, A>>
    ensures { option_map command_of result ≡ rewatch_command (words text.now) }
{
    let (clause, text) = next_number(text)?;
    let (from_sign, from, text) = next_marked(text)?;
    let (to_sign, to, text) = next_marked(text)?;
    match next_word(text) {
        Some(_) => None,
        None => {
            let (from, to) = (literal_of(from_sign, &from)?, literal_of(to_sign, &to)?);
            Some(Command::Rewatch(id_of(&clause)?, from, to))
        }
    }
}

/// `watchers LIT`
#[inline(always)]
pub(crate) fn watchers<N, S, A: Allocator>(text: &[u8]) -> Option<Command<N, S, A>>
    ensures { option_map command_of result ≡ watchers_command (words text.now) }
{
    let (sign, variable, text) = next_marked(text)?;
    match next_word(text) {
        Some(_) => None,
        None => Some(Command::Watchers(literal_of(sign, &variable)?)),
    }
}

/// `saturate LEVEL`
#[inline(always)]
pub(crate) fn saturate<N, S, A: Allocator>(text: &[u8]) -> Option<Command<N, S, A>>
    ensures { option_map command_of result ≡ saturate_command (words text.now) }
{
    let level = only_id(text)?;
    Some(Command::Saturate(level))
}

/// `true` or `false`
#[inline(always)]
fn truth(word: &[u8]) -> Option<bool>
    ensures { result ≡ truth_of word.now }
{
    if is_word(word, b"true") {
        Some(true)
    } else if is_word(word, b"false") {
        Some(false)
    } else {
        None
    }
}

/// A word, and the truth value that it writes, if it writes one.
#[derive(Clone, Copy)]
struct TruthWord<'a> {
    word: &'a [u8],
    truth: Option<bool>,
}

/// The first word of a text with the truth value that it writes, and what is after it; none where no word is left. One
/// that stands first and has a blank behind it is read with no search for its end.
#[inline(always)]
fn next_truth(text: &[u8]) -> Option<(TruthWord<'_>, &[u8])>
    ensures first { MatchOption result (words text.now ≡ []) (λ r. words text.now ≡ r.0.word.now ∷ words r.1.now) }
    ensures truth { IfSome result (λ r. r.0.truth ≡ truth_of r.0.word.now) }
{
    match text {
        [b't', b'r', b'u', b'e', b' ', rest @ ..] => {
            let (word, truth) = (b"true".as_slice(), Some(true));
            Some((TruthWord { word, truth }, rest))
        }
        [b'f', b'a', b'l', b's', b'e', b' ', rest @ ..] => {
            let (word, truth) = (b"false".as_slice(), Some(false));
            Some((TruthWord { word, truth }, rest))
        }
        _ => {
            let (word, rest) = next_word(text)?;
            let truth = truth(word);
            Some((TruthWord { word, truth }, rest))
        }
    }
}
