//! The lines of replies.
#![tactic(auto, using(crate::proofs::Beginnings::begins_more, crate::proofs::Beginnings::begins_whole))]

ghost use Rattle.std.specs.Prelude.{◌≡◌, ◌++◌, ◌∷◌, ◌<◌, ◌≤◌, codes, decimal, length, map, flat_map, take};
ghost use Rattle.resolvo_store.specs.Command.{LoadedAs, Next as NextIs, Refused, Undone};
ghost use Rattle.resolvo_store.specs.ReplyTexts.{field, list_text, others_text, lists_text, conflict_text};
ghost use Rattle.resolvo_store.specs.ReplyTexts.{decision_text, truth_text, words_text};
ghost use Rattle.scripts.specs.Replies.{Pushes, reply_text, unreadable_text};

use crate::digit_pairs::{four, pair};
use crate::line_text::{LONGEST, put, put_field};
use decisions::Decision;
use resolvo_queue::QueueDecision;
use std::alloc::{AllocError, Allocator};
use typed_ids::{ClauseId, DenseIndex, StoreError, VariableId};

/// Puts the line that tells a requirement's lists after the text.
pub(crate) fn push_loaded<A: Allocator>(
    text: &mut Vec<u8>,
    lists: &[Vec<VariableId, A>],
) -> Result<(), AllocError>
    ensures { Pushes result text.old.items text.new.items (reply_text (LoadedAs (map (λ l. l.items) lists.now))) }
{
    push_lists(text, lists)?;
    push_end(text)
}

/// Puts the line of a refusal after the text.
pub(crate) fn push_refused(text: &mut Vec<u8>, refusal: StoreError) -> Result<(), AllocError>
    ensures { Pushes result text.old.items text.new.items (reply_text (Refused refusal)) }
{
    push_line(text, b"refused", refusal.code() as usize)
}

/// Puts the line that names an unreadable line after the text.
pub fn push_unreadable(text: &mut Vec<u8>, number: u64) -> Result<(), AllocError>
    ensures { Pushes result text.old.items text.new.items (unreadable_text number) }
{
    text.extend_from_slice(b"line")?;
    push_behind(text, b' ', number)?;
    text.extend_from_slice(b" unreadable\n")
}

/// The end of a line.
#[inline(always)]
pub(crate) fn push_end(text: &mut Vec<u8>) -> Result<(), AllocError>
    ensures { Pushes result text.old.items text.new.items (codes "\n") }
{
    text.push(b'\n')?;
    Ok(())
}

/// A byte, and a number directly after it; one of up to five digits, as most are, is put with no call.
#[inline(always)]
fn push_behind(text: &mut Vec<u8>, byte: u8, number: u64) -> Result<(), AllocError>
    ensures { Pushes result text.old.items text.new.items (byte ∷ decimal number) }
{
    if number < 10 {
        text.push(byte)?;
        push_digit(text, number)
    } else if number < 100_000 {
        push_few_behind(text, byte, number)
    } else {
        push_many_behind(text, byte, number)
    }
}

/// A number of one digit.
#[inline(always)]
#[tactic(auto, using(std::proofs::lemmas::Fmt::decimal_digit, crate::proofs::Beginnings::begins_whole))]
fn push_digit(text: &mut Vec<u8>, number: u64) -> Result<(), AllocError>
    requires { number < 10 }
    ensures { Pushes result text.old.items text.new.items (decimal number) }
{
    text.push(b'0' + number as u8)?;
    Ok(())
}

/// A byte, and a number of more digits than one.
#[inline(never)]
fn push_many_behind(text: &mut Vec<u8>, byte: u8, number: u64) -> Result<(), AllocError>
    requires { 10 ≤ number }
    ensures { Pushes result text.old.items text.new.items (byte ∷ decimal number) }
{
    if number < 100_000 {
        push_few_behind(text, byte, number)
    } else if number < 100_000_000 {
        push_more_behind(text, byte, number)
    } else {
        push_many_behind(text, byte, number / 10_000)?;
        text.extend_from_slice(&four(number % 10_000))
    }
}

/// A text, a number after a blank, and the end of the line.
pub(crate) fn push_line(text: &mut Vec<u8>, name: &[u8], number: usize) -> Result<(), AllocError>
    ensures { Pushes result text.old.items text.new.items ((name.now ++ (32 ∷ decimal number)) ++ codes "\n") }
{
    text.extend_from_slice(name)?;
    push_behind(text, b' ', number as u64)?;
    push_end(text)
}

/// A clause, whether it is a conflict, and the end of the line.
pub(crate) fn push_clause(
    text: &mut Vec<u8>,
    clause: ClauseId,
    conflict: bool,
) -> Result<(), AllocError>
    ensures { Pushes result text.old.items text.new.items
        ((field (codes "clause ") clause ++ conflict_text conflict) ++ codes "\n") }
{
    text.extend_from_slice(b"clause")?;
    push_behind(text, b' ', clause.to_index() as u64)?;
    if conflict {
        text.extend_from_slice(b" conflict\n")
    } else {
        push_end(text)
    }
}

/// Puts the line that tells the assignment that was taken back last, if one is named.
pub(crate) fn push_undone(
    text: &mut Vec<u8>,
    last: Option<(Decision, u32)>,
) -> Result<(), AllocError>
    ensures { Pushes result text.old.items text.new.items (reply_text (Undone last)) }
{
    let Some((decision, level)) = last else {
        return text.extend_from_slice(b"undone\n");
    };
    let mut line = [0; LONGEST];
    let at = put_assignment(&mut line, b"undone ", decision);
    let at = put_field(&mut line, at, b" ", level as usize);
    push_ended(text, &mut line, at)
}

/// Puts the line that tells the assignment to propagate, or that there is none.
pub(crate) fn push_next(text: &mut Vec<u8>, decision: Option<Decision>) -> Result<(), AllocError>
    ensures { Pushes result text.old.items text.new.items (reply_text (NextIs decision)) }
{
    let Some(decision) = decision else {
        return text.extend_from_slice(b"next none\n");
    };
    let mut line = [0; LONGEST];
    let at = put_assignment(&mut line, b"next ", decision);
    push_ended(text, &mut line, at)
}

/// Puts a text at the beginning of a line, a variable directly after it, and its value and the clause that gave it,
/// each after a blank. Answers the place behind them.
#[inline(always)]
fn put_assignment(line: &mut [u8; LONGEST], name: &[u8], decision: Decision) -> usize
    requires { length name.now ≤ 8 }
    ensures end { result ≤ 55 }
    ensures line { take result line.new ≡
        field name.now decision.variable ++ (truth_text decision.value ++ field (codes " ") decision.derived_from) }
{
    let at = put_field(line, 0, name, decision.variable.to_index());
    let clause = decision.derived_from.to_index();
    if decision.value {
        put_field(line, at, b" true ", clause)
    } else {
        put_field(line, at, b" false ", clause)
    }
}

pub(crate) fn push_decision(text: &mut Vec<u8>, decision: &QueueDecision) -> Result<(), AllocError>
    ensures { Pushes result text.old.items text.new.items (decision_text decision.now ++ codes "\n") }
{
    let score = decision.package_activity as usize;
    let mut line = [0; LONGEST];
    let at = put_field(&mut line, 0, b"decided ", decision.candidate.to_index());
    let at = put_field(&mut line, at, b" by ", decision.required_by.to_index());
    let at = put_field(&mut line, at, b" clause ", decision.clause_id.to_index());
    let at = put_field(&mut line, at, b" score ", score);
    let at = put_field(&mut line, at, b" count ", decision.candidate_count);
    push_ended(text, &mut line, at)
}

/// Puts a line up to this place after the text, with its end.
#[inline(always)]
fn push_ended(text: &mut Vec<u8>, line: &mut [u8; LONGEST], at: usize) -> Result<(), AllocError>
    requires { at < 136 }
    ensures { Pushes result text.old.items text.new.items (take at line.old ++ codes "\n") }
{
    let end = put(line, at, b"\n");
    text.extend_from_slice(&line[..end])
}

/// `watchers`, and each clause after a blank, or `-` for none.
pub(crate) fn push_watchers(text: &mut Vec<u8>, clauses: &[ClauseId]) -> Result<(), AllocError>
    ensures { Pushes result text.old.items text.new.items (codes "watchers" ++ words_text clauses.now) }
{
    text.extend_from_slice(b"watchers")?;
    match clauses {
        [] => text.extend_from_slice(b" -"),
        _ => push_clauses(text, clauses),
    }
}

/// Each clause after a blank.
fn push_clauses(text: &mut Vec<u8>, clauses: &[ClauseId]) -> Result<(), AllocError>
    ensures { Pushes result text.old.items text.new.items (flat_map (field (codes " ")) clauses.now) }
{
    for clause in clauses {
        push_behind(text, b' ', clause.to_index() as u64)?;
    }
    Ok(())
}

/// `loaded`, and a word for each list.
fn push_lists<A: Allocator>(
    text: &mut Vec<u8>,
    lists: &[Vec<VariableId, A>],
) -> Result<(), AllocError>
    ensures { Pushes result text.old.items text.new.items
        (codes "loaded" ++ lists_text (map (λ l. l.items) lists.now)) }
{
    text.extend_from_slice(b"loaded")?;
    for list in lists {
        push_word(text, list)?;
    }
    Ok(())
}

/// A blank, and the word of a list: its variables, joined by commas, or `-` for none.
fn push_word(text: &mut Vec<u8>, list: &[VariableId]) -> Result<(), AllocError>
    ensures { Pushes result text.old.items text.new.items (codes " " ++ list_text list.now) }
{
    match list {
        [] => text.extend_from_slice(b" -"),
        [first, others @ ..] => {
            push_behind(text, b' ', first.to_index() as u64)?;
            push_others(text, others)
        }
    }
}

/// Each variable after a comma. Most of what a load writes is here.
fn push_others(text: &mut Vec<u8>, others: &[VariableId]) -> Result<(), AllocError>
    ensures { Pushes result text.old.items text.new.items (others_text others.now) }
{
    for variable in others {
        push_behind(text, b',', variable.to_index() as u64)?;
    }
    Ok(())
}

/// A byte, and a number of two to five digits, which are put at once.
#[inline(always)]
fn push_few_behind(text: &mut Vec<u8>, byte: u8, number: u64) -> Result<(), AllocError>
    requires more { 10 ≤ number }
    requires few { number < 100000 }
    ensures { Pushes result text.old.items text.new.items (byte ∷ decimal number) }
{
    if number < 100 {
        let [tens, ones] = pair(number);
        text.extend_from_slice(&[byte, tens, ones])
    } else if number < 1000 {
        let [tens, ones] = pair(number % 100);
        text.extend_from_slice(&[byte, b'0' + (number / 100) as u8, tens, ones])
    } else if number < 10_000 {
        let [thousands, hundreds, tens, ones] = four(number);
        text.extend_from_slice(&[byte, thousands, hundreds, tens, ones])
    } else {
        let [thousands, hundreds, tens, ones] = four(number % 10_000);
        let first = b'0' + (number / 10_000) as u8;
        text.extend_from_slice(&[byte, first, thousands, hundreds, tens, ones])
    }
}

/// A byte, and a number of six to eight digits, which are put at once.
#[inline(always)]
fn push_more_behind(text: &mut Vec<u8>, byte: u8, number: u64) -> Result<(), AllocError>
    requires more { 100000 ≤ number }
    requires few { number < 100000000 }
    ensures { Pushes result text.old.items text.new.items (byte ∷ decimal number) }
{
    let front = number / 10_000;
    let [thousands, hundreds, tens, ones] = four(number % 10_000);
    if front < 100 {
        let [first, second] = pair(front);
        text.extend_from_slice(&[byte, first, second, thousands, hundreds, tens, ones])
    } else if front < 1000 {
        let first = b'0' + (front / 100) as u8;
        let [second, third] = pair(front % 100);
        text.extend_from_slice(&[byte, first, second, third, thousands, hundreds, tens, ones])
    } else {
        let [first, second, third, fourth] = four(front);
        text.extend_from_slice(&[
            byte, first, second, third, fourth, thousands, hundreds, tens, ones,
        ])
    }
}
