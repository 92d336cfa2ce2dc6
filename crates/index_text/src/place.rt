//! Which word may come next at each place among a line's entries.
ghost use Rattle.std.specs.Prelude.{◌≡◌, IfOk};
ghost use Rattle.std.specs.Result.{result_err};
ghost use Rattle.index_text.specs.Expected.{behind_name, behind_entry, behind_keyword, behind_union, behind_condition};
ghost use Rattle.index_text.specs.Expected.{behind_range, behind_set, expected_at, is_junction, is_keyword};
ghost use Rattle.index_text.specs.Expected.{is_separator, place_behind};
ghost use Rattle.index_text.specs.PlainFormats.{plain_format};

use crate::entry::is_entry;
use crate::expected::Expected;
use crate::format::VersionFormat;
use crate::set::{BadRange, read_range};
use script_text::is_word;
use std::alloc::{AllocError, Global};

/// The two kinds of lines.
#[derive(Clone, Copy)]
pub(crate) enum LineKind {
    /// Its entries are needs only.
    Request,
    /// Its entries are of any kind.
    Version,
}

/// What a set is a part of.
#[derive(Clone, Copy)]
pub(crate) enum Part {
    Union,
    Condition,
    Limits,
}

/// A place between two words.
#[derive(Clone, Copy)]
pub(crate) enum Place {
    /// Before the first entry. In a version's line `excluded` or `unknown` may stand here too.
    First,
    /// Behind an entry that has ended: another one begins here, or the line ends.
    Entry,
    /// Before the name of a set.
    Name(Part),
    /// Between the name of a set and its range.
    Range(Part),
    /// Behind a set of a union.
    Union,
    /// Behind a set of a condition.
    Condition,
}

impl Place {
    /// The place behind this word, or what was expected instead.
    pub(crate) fn behind(
        self,
        alloc: Global,
        format: &VersionFormat,
        word: &str,
        kind: LineKind,
    ) -> Result<Result<Place, Expected>, AllocError>
        ensures { IfOk result (λ next. next ≡ place_behind (plain_format format.now) kind self word.now) }
    {
        match self {
            Place::Range(part) => Ok(behind_range(
                read_range(alloc, format, word.as_bytes())?,
                part,
            )),
            Place::Name(part) => Ok(behind_name(word, part).ok_or(Expected::Name)),
            Place::Union => Ok(behind_union(word, kind).ok_or(self.expected(kind))),
            Place::Condition => Ok(behind_condition(word, kind).ok_or(self.expected(kind))),
            Place::First | Place::Entry => Ok(behind_entry(word, kind).ok_or(self.expected(kind))),
        }
    }

    /// What may stand here.
    pub(crate) fn expected(self, kind: LineKind) -> Expected
        ensures { result ≡ expected_at kind self }
    {
        match (self, kind) {
            (Place::Name(_), _) => Expected::Name,
            (Place::Range(_), _) => Expected::Range,
            (Place::First, LineKind::Request) => Expected::Need,
            (Place::Entry, LineKind::Request) => Expected::Need,
            (Place::Union, LineKind::Request) => Expected::UnionOrNeed,
            (Place::Condition, LineKind::Request) => Expected::ConditionOrNeed,
            (Place::First, LineKind::Version) => Expected::State,
            (Place::Entry, LineKind::Version) => Expected::Entry,
            (Place::Union, LineKind::Version) => Expected::UnionOrEntry,
            (Place::Condition, LineKind::Version) => Expected::ConditionOrEntry,
        }
    }
}

/// The place behind a word that begins an entry. `None` if the word begins no entry.
fn behind_entry(word: &str, kind: LineKind) -> Option<Place>
    ensures { result ≡ behind_entry kind word.now }
{
    if is_word(word.as_bytes(), b"needs") {
        return Some(Place::Name(Part::Union));
    }
    match kind {
        LineKind::Request => None,
        LineKind::Version => behind_keyword(word),
    }
}

/// The same for any other word than `needs`, in a version's line.
fn behind_keyword(word: &str) -> Option<Place>
    ensures { result ≡ behind_keyword word.now }
{
    if is_word(word.as_bytes(), b"limits") {
        return Some(Place::Name(Part::Limits));
    }
    if is_entry(word) {
        Some(Place::Entry)
    } else {
        None
    }
}

/// The place behind a word that follows a set of a union: the word joins another set, begins the condition, or begins
/// the next entry.
fn behind_union(word: &str, kind: LineKind) -> Option<Place>
    ensures { result ≡ behind_union kind word.now }
{
    if is_word(word.as_bytes(), b"|") {
        return Some(Place::Name(Part::Union));
    }
    if is_word(word.as_bytes(), b"if") {
        return Some(Place::Name(Part::Condition));
    }
    behind_entry(word, kind)
}

/// The place behind a word that follows a set of a condition: the word joins another set, or begins the next entry.
fn behind_condition(word: &str, kind: LineKind) -> Option<Place>
    ensures { result ≡ behind_condition kind word.now }
{
    if is_junction(word) {
        return Some(Place::Name(Part::Condition));
    }
    behind_entry(word, kind)
}

/// Whether a word stands between two sets of a condition.
fn is_junction(word: &str) -> bool
    ensures { result ≡ is_junction word.now }
{
    let word = word.as_bytes();
    is_word(word, b"and") || is_word(word, b"or")
}

/// The place behind the name of a set. Words that begin an entry, or separate sets here, are no names.
fn behind_name(word: &str, part: Part) -> Option<Place>
    ensures { result ≡ behind_name part word.now }
{
    if is_keyword(word, part) {
        None
    } else {
        Some(Place::Range(part))
    }
}

/// Whether a word can't name a set here: it begins an entry, or separates sets.
fn is_keyword(word: &str, part: Part) -> bool
    ensures { result ≡ is_keyword part word.now }
{
    is_entry(word) || is_separator(word, part)
}

/// Whether a word is a keyword between sets of this part, or is `if`, which ends their list.
fn is_separator(word: &str, part: Part) -> bool
    ensures { result ≡ is_separator part word.now }
{
    let bytes = word.as_bytes();
    match part {
        Part::Union => is_word(bytes, b"|") || is_word(bytes, b"if"),
        Part::Condition => is_word(bytes, b"if") || is_junction(word),
        Part::Limits => false,
    }
}

/// The place behind the range of a set, or what was expected instead of the range.
fn behind_range(range: Result<(u32, u32), BadRange>, part: Part) -> Result<Place, Expected>
    ensures { result ≡ behind_range part (result_err range) }
{
    match range {
        Err(BadRange::NotARange) => Err(Expected::Range),
        Err(BadRange::Reversed) => Err(Expected::OrderedRange),
        Ok(_) => Ok(behind_set(part)),
    }
}

/// The place behind a set.
fn behind_set(part: Part) -> Place
    ensures { result ≡ behind_set part }
{
    match part {
        Part::Union => Place::Union,
        Part::Condition => Place::Condition,
        Part::Limits => Place::Entry,
    }
}
