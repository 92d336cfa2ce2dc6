//! Catalogue lines.
ghost use Rattle.std.specs.Prelude.{◌≡◌};
ghost use Rattle.script_text.specs.Lines.{IsPrinted};
ghost use Rattle.script_text.specs.Statements.{IsRestPrinted};
ghost use Rattle.script_text.specs.Words.{words};
ghost use Rattle.script_packages.specs.CatalogueLines.{plain_line, plain, entry_meant};
ghost use Rattle.script_packages.specs.CatalogueLines.{said_of, package_of, set_of, union_of, condition_of, string_of};
ghost use Rattle.script_packages.specs.CatalogueLines.{set_condition, operator_of, joined_condition, begin_of};

use crate::ids::{id, id_of};
use providers::{Condition, LogicalOperator};
use script_text::{Line, Statement, is_word, next_number, next_word, text_of};
use typed_ids::VersionSetId;

/// What a line up to `begin` says.
#[derive(Clone, Copy)]
pub(crate) enum CatalogueLine<'a> {
    /// The versions of a package, in the words of one text.
    Package { name: &'a str, versions: &'a [u8] },
    /// The version set of a package's versions from `low` to below `high`.
    Set { name: &'a str, low: u32, high: u32 },
    /// The version sets of a union, in the words of one text.
    Union { sets: &'a [u8] },
    Condition(Condition),
    String(&'a str),
    /// The catalogue ends here.
    Begin,
}

/// The entry of a line up to `begin`, by what the line says.
pub(crate) fn catalogue_line(said: Line<Statement<'_>>) -> Line<CatalogueLine<'_>>
    requires { IsRestPrinted said }
    ensures { plain_line result ≡ entry_meant said.entry }
{
    match said {
        Line::Skipped => Line::Skipped,
        Line::Unreadable => Line::Unreadable,
        Line::Says(said) => match entry(said) {
            Some(entry) => Line::Says(entry),
            None => Line::Unreadable,
        },
    }
}

/// What a statement says in the catalogue.
fn entry(said: Statement<'_>) -> Option<CatalogueLine<'_>>
    requires { IsPrinted said.rest.now }
    ensures { plain result ≡ said_of said.entry.keyword.now (words said.entry.rest.now) }
{
    if is_word(said.keyword, b"package") {
        package(said.rest)
    } else if is_word(said.keyword, b"set") {
        set(said.rest)
    } else if is_word(said.keyword, b"union") {
        union_line(said.rest)
    } else if is_word(said.keyword, b"condition") {
        condition(said.rest)
    } else if is_word(said.keyword, b"string") {
        string(said.rest)
    } else if is_word(said.keyword, b"begin") {
        begin(said.rest)
    } else {
        None
    }
}

/// `package NAME VERSION ..`; the versions, one of which may have a star behind it, are read as they are taken.
fn package(text: &[u8]) -> Option<CatalogueLine<'_>>
    requires { IsPrinted text.now }
    ensures { plain result ≡ package_of (words text.now) }
{
    let (name, versions) = next_word(text)?;
    match next_word(versions) {
        Some(_) => {
            let name = text_of(name);
            Some(CatalogueLine::Package { name, versions })
        }
        None => None,
    }
}

/// `set NAME LOW HIGH`
fn set(text: &[u8]) -> Option<CatalogueLine<'_>>
    requires { IsPrinted text.now }
    ensures { plain result ≡ set_of (words text.now) }
{
    let (name, text) = next_word(text)?;
    let (low, text) = next_number(text)?;
    let (high, text) = next_number(text)?;
    match next_word(text) {
        Some(_) => None,
        None => {
            let name = text_of(name);
            let (low, high) = (id_of(&low)?, id_of(&high)?);
            Some(CatalogueLine::Set { name, low, high })
        }
    }
}

/// `union SET ..`; the version sets are read as they are taken.
fn union_line(text: &[u8]) -> Option<CatalogueLine<'_>>
    ensures { plain result ≡ union_of (words text.now) }
{
    match next_word(text) {
        Some(_) => Some(CatalogueLine::Union { sets: text }),
        None => None,
    }
}

/// `condition set SET`, `condition and C C` or `condition or C C`
fn condition(text: &[u8]) -> Option<CatalogueLine<'_>>
    ensures { plain result ≡ condition_of (words text.now) }
{
    let (kind, text) = next_word(text)?;
    let (first, text) = next_word(text)?;
    match next_word(text) {
        None => Some(CatalogueLine::Condition(set_condition(kind, first)?)),
        Some((second, rest)) => match next_word(rest) {
            None => Some(CatalogueLine::Condition(joined_condition(kind, first, second)?)),
            Some(_) => None,
        },
    }
}

/// A version set as a condition.
fn set_condition(kind: &[u8], set: &[u8]) -> Option<Condition>
    ensures { result ≡ set_condition kind.now set.now }
{
    if is_word(kind, b"set") {
        let index = id(set)?;
        Some(Condition::Requirement(VersionSetId(index)))
    } else {
        None
    }
}

/// Two conditions as one.
fn joined_condition(kind: &[u8], left: &[u8], right: &[u8]) -> Option<Condition>
    ensures { result ≡ joined_condition (operator_of kind.now) left.now right.now }
{
    let operator = operator(kind)?;
    let (left, right) = (id(left)?, id(right)?);
    Some(Condition::Binary(operator, left, right))
}

fn operator(kind: &[u8]) -> Option<LogicalOperator>
    ensures { result ≡ operator_of kind.now }
{
    if is_word(kind, b"and") {
        Some(LogicalOperator::And)
    } else if is_word(kind, b"or") {
        Some(LogicalOperator::Or)
    } else {
        None
    }
}

/// `string WORD`
fn string(text: &[u8]) -> Option<CatalogueLine<'_>>
    requires { IsPrinted text.now }
    ensures { plain result ≡ string_of (words text.now) }
{
    let (word, text) = next_word(text)?;
    match next_word(text) {
        Some(_) => None,
        None => Some(CatalogueLine::String(text_of(word))),
    }
}

/// `begin`
fn begin(text: &[u8]) -> Option<CatalogueLine<'_>>
    ensures { plain result ≡ begin_of (words text.now) }
{
    match next_word(text) {
        Some(_) => None,
        None => Some(CatalogueLine::Begin),
    }
}
