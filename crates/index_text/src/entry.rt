//! Entries of a line.
ghost use Rattle.std.specs.Prelude.{◌≡◌, ◌<◌, ◌∷◌, IfOk, IfSome, option_map, length, codes};
ghost use Rattle.std.specs.Str.{bytes_eq};
ghost use Rattle.index_text.specs.Entries.{need_of, condition_in_parts, entry_of, alone, entries_of, is_entry, cut};
ghost use Rattle.index_text.specs.Entries.{entries_behind};
ghost use Rattle.index_text.specs.Plain.{plain_need, plain_lists, plain_entry, plain_entries};
ghost use Rattle.index_text.specs.PlainFormats.{plain_format};
ghost use Rattle.index_text.specs.Sets.{texts, parts_behind};

use crate::format::VersionFormat;
use crate::set::{Set, Sets, alternatives, read_set, read_sets};
use crate::words::first_part;
use script_text::is_word;
use std::alloc::{AllocError, Global};

/// What is needed.
#[derive(Drop)]
pub struct Need<'t> {
    /// One of these sets is enough.
    pub union: Sets<'t>,
    /// The need counts only if all sets of one of these lists hold. If there is no list, it always counts.
    pub condition: Vec<Sets<'t>>,
}

/// What a line says of its version.
#[derive(Drop)]
pub enum Entry<'t> {
    Needs(Need<'t>),
    /// No version of the package outside this set is picked.
    Limits(Set<'t>),
    /// The version is the best of its package.
    Favored,
    /// No other version of its package is picked.
    Locked,
}

/// Whether the word begins an entry.
#[inline(always)]
pub(crate) fn is_entry(word: &str) -> bool
    ensures { result ≡ is_entry word.now }
{
    let word = word.as_bytes();
    is_word(word, b"needs")
        || is_word(word, b"limits")
        || is_word(word, b"favored")
        || is_word(word, b"locked")
}

/// `UNION`, or `UNION if CONDITION`.
fn read_need<'t>(
    alloc: Global,
    format: &VersionFormat,
    words: &[&'t str],
) -> Result<Option<Need<'t>>, AllocError>
    ensures { IfOk result (λ found. option_map plain_need found ≡ need_of (plain_format format.now) (texts words.now)) }
{
    let (union, behind) = first_part(words, b"if");
    let Some(union) = read_sets(alloc, format, union, b"|")? else {
        return Ok(None);
    };
    let Some(condition) = read_condition(alloc, format, behind)? else {
        return Ok(None);
    };
    Ok(Some(Need { union, condition }))
}

/// What is behind an `if`, or no condition.
fn read_condition<'t>(
    alloc: Global,
    format: &VersionFormat,
    words: Option<&[&'t str]>,
) -> Result<Option<Vec<Sets<'t>>>, AllocError>
    ensures { IfOk result (λ found. option_map plain_lists found ≡
        condition_in_parts (plain_format format.now) (parts_behind (bytes_eq (codes "if")) words.entry)) }
{
    let Some(words) = words else {
        return Ok(Some(Vec::new(alloc)));
    };
    let (condition, behind) = first_part(words, b"if");
    if behind.is_some() {
        return Ok(None);
    }
    alternatives(alloc, format, condition)
}

/// An entry of these words, the first of which says its kind.
fn read_entry<'t>(
    alloc: Global,
    format: &VersionFormat,
    words: &[&'t str],
) -> Result<Option<Entry<'t>>, AllocError>
    ensures { IfOk result (λ found. option_map plain_entry found ≡
        entry_of (plain_format format.now) (texts words.now)) }
{
    let [keyword, words @ ..] = words else {
        return Ok(None);
    };
    let keyword = keyword.as_bytes();
    if is_word(keyword, b"needs") {
        return Ok(read_need(alloc, format, words)?.map(Entry::Needs));
    }
    if is_word(keyword, b"limits") {
        return Ok(read_set(alloc, format, words)?.map(Entry::Limits));
    }
    if is_word(keyword, b"favored") {
        return Ok(alone(Entry::Favored, words));
    }
    if is_word(keyword, b"locked") {
        return Ok(alone(Entry::Locked, words));
    }
    Ok(None)
}

/// The entry, if nothing is behind its keyword.
fn alone<'t>(entry: Entry<'t>, words: &[&str]) -> Option<Entry<'t>>
    ensures { option_map plain_entry result ≡ alone (plain_entry entry.entry) (texts words.now) }
{
    if words.is_empty() { Some(entry) } else { None }
}

/// The entries of these words. Most entries have three words or more.
pub(crate) fn entries<'t>(
    alloc: Global,
    format: &VersionFormat,
    words: &[&'t str],
) -> Result<Option<Vec<Entry<'t>>>, AllocError>
    ensures { IfOk result (λ found. option_map plain_entries found ≡
        entries_of (plain_format format.now) (texts words.now)) }
{
    let mut found = Vec::with_capacity(alloc, words.len() / 3)?;
    let mut rest = if words.is_empty() { None } else { Some(words) };
    'entries: while let Some(words) = rest {
        let (first, others) = first_entry(words);
        let Some(entry) = read_entry(alloc, format, first)? else {
            return Ok(None);
        };
        found.push(entry)?;
        rest = others;
    }
    Ok(Some(found))
}

/// The words of the first entry, and those from the next one on if there is one.
fn first_entry<'w, 't>(words: &'w [&'t str]) -> (&'w [&'t str], Option<&'w [&'t str]>)
    requires { 0 < length words.now }
    ensures first { cut is_entry (texts words.now) ≡ texts result.0.now ∷ entries_behind result.1 }
    ensures shorter { IfSome result.1 (λ rest. (0 < length rest.now) × (length rest.now < length words.now)) }
{
    for (i, word) in words.iter().enumerate() {
        if i > 0 && is_entry(word) {
            let (first, others) = words.split_at(i);
            return (first, Some(others));
        }
    }
    (words, None)
}
