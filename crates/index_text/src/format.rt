//! How the versions of an index are written, and the number that stands for each.
ghost use Rattle.std.specs.Prelude.{◌≡◌, ◌++◌, ◌∷◌, [], IfOk, OnOk, OnErr, map, option_map, string_bytes, List};
ghost use Rattle.index_text.specs.Formats.{number_in, version_text, ends_of};
ghost use Rattle.index_text.specs.PlainLines.{plain_line};
ghost use Rattle.index_text.specs.PlainFormats.{plain_format, plain_keys, plain_ends};
ghost use Rattle.index_text.specs.Written.{format_of, says_semver, written_on, written_in, versions_in, with_versions};

use crate::line::Line;
use crate::overlong::is_overlong;
use crate::semver_versions::{SemverVersions, read_semver};
use crate::set::version;
use script_text::{is_word, next_word};
use semver::Version;
use std::alloc::{AllocError, Global};
use std::collections::BTreeSet;

/// How the versions of an index are written. Each version has a number; a newer version has a higher one.
#[derive(Drop)]
pub enum VersionFormat {
    /// As numbers, which stand for themselves.
    Numbers,
    /// As SemVer versions. A version's number is its place in the sorted list of all versions in the index.
    Semver(SemverVersions),
}

impl VersionFormat {
    /// How the versions of an index of these lines are written.
    pub fn of(alloc: Global, lines: &[Line<'_>]) -> Result<VersionFormat, AllocError>
        ensures { IfOk result (λ format. plain_format format ≡ format_of (map plain_line lines.now)) }
    {
        if !says_semver(lines) {
            return Ok(VersionFormat::Numbers);
        }
        let mut known = BTreeSet::new(alloc);
        for line in lines {
            add_line(alloc, &mut known, line)?;
        }
        Ok(VersionFormat::Semver(SemverVersions::new(known.into_iter().collect(alloc)?)))
    }

    /// The number of the version that is written as this word; none if it is none, or isn't in the index.
    #[inline(always)]
    pub fn number(&self, alloc: Global, word: &[u8]) -> Result<Option<u32>, AllocError>
        ensures { IfOk result (λ found. found ≡ number_in (plain_format self.now) word.now) }
    {
        match self {
            VersionFormat::Numbers => Ok(version(word)),
            VersionFormat::Semver(known) => known.number(alloc, word),
        }
    }

    /// Appends the text of the version of this number. After a refusal `out` is as it was.
    pub fn write(&self, number: u32, out: &mut String) -> Result<(), AllocError>
        ensures ok { OnOk result (string_bytes out.new ≡
            string_bytes out.old ++ version_text (plain_format self.now) number) }
        ensures err { OnErr result (string_bytes out.new ≡ string_bytes out.old) }
    {
        match self {
            VersionFormat::Numbers => Ok(out.push_str(&number.to_string(*out.allocator())?)?),
            VersionFormat::Semver(known) => match known.versions().get(number as usize) {
                Some(version) => Ok(out.push_str(&version.to_string(*out.allocator())?)?),
                None => Ok(()),
            },
        }
    }
}

/// Whether the first line begins with `request semver`.
fn says_semver(lines: &[Line<'_>]) -> bool
    ensures { result ≡ says_semver (map plain_line lines.now) }
{
    let [first, ..] = lines else {
        return false;
    };
    let Some(said) = first.said else {
        return false;
    };
    let Some((format, _)) = next_word(said.rest) else {
        return false;
    };
    is_word(said.keyword, b"request") && is_word(format, b"semver")
}

/// Adds the versions of a line, unless it has too many words: such a line is unreadable, whatever versions it has.
fn add_line(alloc: Global, known: &mut BTreeSet<Version>, line: &Line<'_>) -> Result<(), AllocError>
    ensures { OnOk result (plain_keys known.new ≡
        with_versions (plain_keys known.old) (written_on (plain_line line.now).words)) }
{
    let Some(said) = line.said else {
        return Ok(());
    };
    if is_overlong(&said) {
        return Ok(());
    }
    add_word(alloc, known, said.keyword)?;
    let mut rest = said.rest;
    while let Some((word, others)) = next_word(rest) {
        add_word(alloc, known, word)?;
        rest = others;
    }
    Ok(())
}

/// Adds the version that a word is, or those at both ends of a range. A word in any place counts.
fn add_word(alloc: Global, known: &mut BTreeSet<Version>, word: &[u8]) -> Result<(), AllocError>
    ensures { OnOk result (plain_keys known.new ≡ with_versions (plain_keys known.old) (written_in word.now)) }
{
    add_text(alloc, known, word)?;
    let Some((low, high)) = split_at_dots(word) else {
        return Ok(());
    };
    add_text(alloc, known, low)?;
    add_text(alloc, known, high)
}

/// Adds the version that is written as this text, if it is one.
fn add_text(alloc: Global, known: &mut BTreeSet<Version>, text: &[u8]) -> Result<(), AllocError>
    ensures { OnOk result (plain_keys known.new ≡ with_versions (plain_keys known.old) (versions_in (text.now ∷ []))) }
{
    if let Some(version) = read_semver(alloc, text)? {
        known.insert(version)?;
    }
    Ok(())
}

/// What is before the first `..` of a word, and what is behind it.
pub(crate) fn split_at_dots(word: &[u8]) -> Option<(&[u8], &[u8])>
    ensures { option_map plain_ends result ≡ ends_of word.now }
{
    for i in 0..word.len() {
        if word[i..].starts_with(b"..") {
            return Some((&word[..i], &word[i + 2..]));
        }
    }
    None
}
