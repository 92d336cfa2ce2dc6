//! What was expected where a line became unreadable.
ghost use Rattle.std.specs.Prelude.{◌≡◌};
ghost use Rattle.index_text.specs.Expected.{in_format, in_semver};
ghost use Rattle.index_text.specs.PlainFormats.{plain_format};

use crate::format::VersionFormat;
use std::fmt;

/// What was expected at a place of a line.
#[derive(Clone, Copy, PartialEq, Eq)]
pub enum Expected {
    /// A printed character of ASCII, or a blank.
    PrintedByte,
    /// A request line, before all others.
    RequestFirst,
    /// The version of the line: a number.
    Version,
    /// The version of the line: a SemVer version.
    SemverVersion,
    /// Behind a version: an entry, or a word that says that it may not be picked.
    State,
    /// The first word of an entry, in a version's line.
    Entry,
    /// The word `needs`: a request has no other entries.
    Need,
    /// The name of a package.
    Name,
    /// A range of numbers.
    Range,
    /// A range of SemVer versions.
    SemverRange,
    /// A range whose first bound isn't above the second one.
    OrderedRange,
    /// What may follow a set of a union, in a version's line.
    UnionOrEntry,
    /// The same in a request.
    UnionOrNeed,
    /// What may follow a set of a condition, in a version's line.
    ConditionOrEntry,
    /// The same in a request.
    ConditionOrNeed,
    /// The line's end: a line has no more words.
    LineEnd,
    /// Another version: the line of this number has this version already.
    DuplicateOf(u64),
}

impl Expected {
    /// The same expectation, as an index of this format words it.
    pub(crate) fn in_format(self, format: &VersionFormat) -> Expected
        ensures { result ≡ in_format (plain_format format.now) self }
    {
        match format {
            VersionFormat::Numbers => self,
            VersionFormat::Semver(_) => self.in_semver(),
        }
    }

    /// The same expectation, if versions are SemVer versions.
    fn in_semver(self) -> Expected
        ensures { result ≡ in_semver self }
    {
        match self {
            Expected::Version => Expected::SemverVersion,
            Expected::Range => Expected::SemverRange,
            other => other,
        }
    }
}

/// As `expected LOW..HIGH, as 1..3`.
impl fmt::Display for Expected {
    fn fmt<W: fmt::Write>(&self, f: &mut fmt::Formatter<W>) -> fmt::Result {
        let what = match self {
            Expected::PrintedByte => "a printed character of ASCII or a blank",
            Expected::RequestFirst => "a request line before all others",
            Expected::Version => "a version: a number below 2^32",
            Expected::SemverVersion => "a SemVer version, as 1.4.0",
            Expected::State => "`needs`, `limits`, `favored`, `locked`, `excluded` or `unknown`",
            Expected::Entry => "`needs`, `limits`, `favored` or `locked`",
            Expected::Need => "`needs`",
            Expected::Name => "a package's name",
            Expected::Range => "LOW..HIGH, as 1..3",
            Expected::SemverRange => "LOW..HIGH, as 1.0.0..2.0.0",
            Expected::OrderedRange => return f.write_str("LOW may not be above HIGH"),
            Expected::UnionOrEntry => "`|`, `if`, `needs`, `limits`, `favored` or `locked`",
            Expected::UnionOrNeed => "`|`, `if` or `needs`",
            Expected::ConditionOrEntry => "`and`, `or`, `needs`, `limits`, `favored` or `locked`",
            Expected::ConditionOrNeed => "`and`, `or` or `needs`",
            Expected::LineEnd => "the line's end: it has at most 2097152 words",
            Expected::DuplicateOf(line) => {
                return write!(f, "this version has a line already: line {line}");
            }
        };
        write!(f, "expected {what}")
    }
}
