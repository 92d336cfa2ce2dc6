//! The reader of an index's lines.
ghost use Rattle.std.specs.Prelude.{◌≡◌, IfOk, option_map, option_and_then, map};
ghost use Rattle.std.specs.List.{list_all};
ghost use Rattle.index_text.specs.Lines.{version_said, request_said, is_need, behind_format};
ghost use Rattle.index_text.specs.Plain.{plain_version, plain_entry, plain_entries};
ghost use Rattle.index_text.specs.PlainLines.{plain_line};
ghost use Rattle.index_text.specs.PlainFormats.{plain_format};
ghost use Rattle.index_text.specs.Sets.{texts};
ghost use Rattle.index_text.specs.Written.{format_of};

use crate::entry::{Entry, entries};
use crate::format::VersionFormat;
use crate::line::Line;
use crate::overlong::is_overlong;
use crate::version::{Version, version_of};
use crate::words::split_words;
use script_text::{is_word, text_of};
use std::alloc::{AllocError, Global};

/// Reads the lines of an index one by one.
#[derive(Drop)]
pub struct Reader<'t> {
    pub(crate) alloc: Global,
    /// How the versions of the index are written.
    pub(crate) format: VersionFormat,
    /// The words of the last line. Their room is used again.
    words: Vec<&'t str>,
}

impl<'t> Reader<'t> {
    /// A reader of an index of these lines.
    pub fn new(alloc: Global, lines: &[Line<'_>]) -> Result<Self, AllocError>
        ensures { IfOk result (λ reader. plain_format reader.format ≡ format_of (map plain_line lines.now)) }
    {
        Ok(Reader {
            alloc,
            format: VersionFormat::of(alloc, lines)?,
            words: Vec::new(alloc),
        })
    }

    /// How the versions of the index are written.
    pub fn into_format(self) -> VersionFormat
        ensures { result ≡ self.entry.format }
    {
        let Reader { format, .. } = self;
        format
    }

    /// The needs of a line that is a request; none if it is none.
    pub fn request(&mut self, line: &Line<'t>) -> Result<Option<Vec<Entry<'t>>>, AllocError>
        ensures is { IfOk result (λ found. option_map plain_entries found ≡
            option_and_then (request_said (plain_format self.old.format)) (plain_line line.now).words) }
        ensures format { self.new.format ≡ self.old.format }
    {
        let Some(said) = line.said else {
            return Ok(None);
        };
        if is_overlong(&said) || !is_word(said.keyword, b"request") {
            return Ok(None);
        }
        split_words(&mut self.words, said.rest)?;
        let words = behind_format(&self.format, &self.words);
        let Some(entries) = entries(self.alloc, &self.format, words)? else {
            return Ok(None);
        };
        if are_needs(&entries) {
            Ok(Some(entries))
        } else {
            Ok(None)
        }
    }

    /// The version that a line says; none if it says none.
    pub fn version(&mut self, line: &Line<'t>) -> Result<Option<Version<'t>>, AllocError>
        ensures is { IfOk result (λ found. option_map plain_version found ≡
            option_and_then (version_said (plain_format self.old.format)) (plain_line line.now).words) }
        ensures format { self.new.format ≡ self.old.format }
    {
        let Some(said) = line.said else {
            return Ok(None);
        };
        if is_overlong(&said) || is_word(said.keyword, b"request") {
            return Ok(None);
        }
        split_words(&mut self.words, said.rest)?;
        version_of(self.alloc, &self.format, text_of(said.keyword), &self.words)
    }
}

/// What is behind `request`, and behind `semver` if versions are written so.
fn behind_format<'w, 't>(format: &VersionFormat, words: &'w [&'t str]) -> &'w [&'t str]
    ensures { texts result.now ≡ behind_format (plain_format format.now) (texts words.now) }
{
    match (format, words) {
        (VersionFormat::Semver(_), [_, rest @ ..]) => rest,
        _ => words,
    }
}

/// Whether all entries are needs.
fn are_needs(entries: &[Entry<'_>]) -> bool
    ensures { result ≡ list_all is_need (map plain_entry entries.now) }
{
    for entry in entries {
        match entry {
            Entry::Needs(_) => {}
            _ => return false,
        }
    }
    true
}
