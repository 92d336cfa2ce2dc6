//! Relations between packages.
ghost use Rattle.std.specs.Prelude.{◌≡◌, ◌≤◌, length, option_map};
ghost use Rattle.debian_text.specs.Plain.{plain_bound, plain_relation};
ghost use Rattle.std.specs.List.{prefix_len};
ghost use Rattle.debian_text.specs.Relations.{bound_in, bound_of, is_of_sign, operator_of, relation_named, relation_of};

use crate::cuts::{cut_at, trimmed, version, word};

/// A package, and which of its versions.
#[derive(Clone, Copy, Debug, PartialEq, Eq, Hash)]
pub struct Relation<'t> {
    pub name: &'t [u8],
    /// What is behind the colon of its name: an architecture, or `any`.
    pub qualifier: Option<&'t [u8]>,
    /// None if each version counts.
    pub bound: Option<Bound<'t>>,
}

/// How versions compare with one.
#[derive(Clone, Copy, Debug, PartialEq, Eq, Hash)]
pub struct Bound<'t> {
    pub operator: Operator,
    pub version: &'t [u8],
}

/// Where versions stand in Debian's order, beside one.
#[derive(Clone, Copy, Debug, PartialEq, Eq, Hash)]
pub enum Operator {
    /// `<<`
    Earlier,
    /// `<=`
    EarlierOrEqual,
    /// `=`
    Equal,
    /// `>=`
    LaterOrEqual,
    /// `>>`
    Later,
}

impl<'t> Relation<'t> {
    /// The relation that a text says, as `git`, `python3:any` or `git (>= 1:2.0)`; none if it says none.
    pub fn parse(text: &'t [u8]) -> Option<Relation<'t>>
        ensures { option_map plain_relation result ≡ relation_of text.now }
    {
        let Some((name, rest)) = cut_at(text, b'(') else {
            return named(text, None);
        };
        let Some(bound) = bound_in(rest) else {
            return None;
        };
        named(name, Some(bound))
    }
}

/// The relation of a package, perhaps with a qualifier behind it.
fn named<'t>(text: &'t [u8], bound: Option<Bound<'t>>) -> Option<Relation<'t>>
    ensures { option_map plain_relation result ≡ relation_named (option_map plain_bound bound.entry) text.now }
{
    let Some(name) = word(text) else {
        return None;
    };
    match cut_at(name, b':') {
        None => Some(Relation {
            name,
            qualifier: None,
            bound,
        }),
        Some((name, qualifier)) => {
            if name.is_empty() || qualifier.is_empty() {
                return None;
            }
            Some(Relation {
                name,
                qualifier: Some(qualifier),
                bound,
            })
        }
    }
}

/// The bound behind a `(`.
fn bound_in(text: &[u8]) -> Option<Bound<'_>>
    ensures { option_map plain_bound result ≡ bound_in text.now }
{
    match trimmed(text) {
        [bound @ .., b')'] => bound_of(bound),
        _ => None,
    }
}

/// The bound that a text says, as `>= 1:2.0`.
fn bound_of(text: &[u8]) -> Option<Bound<'_>>
    ensures { option_map plain_bound result ≡ bound_of text.now }
{
    let text = trimmed(text);
    let (sign, rest) = text.split_at(sign_len(text));
    let Some(operator) = operator_of(sign) else {
        return None;
    };
    let Some(version) = version(rest) else {
        return None;
    };
    Some(Bound { operator, version })
}

/// How many bytes of an operator a text begins with.
fn sign_len(text: &[u8]) -> usize
    ensures value { result ≡ prefix_len is_of_sign text.now }
    ensures fits { result ≤ length text.now }
{
    'bytes: for (i, byte) in text.iter().enumerate() {
        if !matches!(*byte, b'<'..=b'>') {
            return i;
        }
    }
    text.len()
}

/// The operator that a sign says. `<` and `>` are old for `<=` and `>=`.
fn operator_of(sign: &[u8]) -> Option<Operator>
    ensures { result ≡ operator_of sign.now }
{
    match sign {
        b"<<" => Some(Operator::Earlier),
        b"<" | b"<=" => Some(Operator::EarlierOrEqual),
        b"=" => Some(Operator::Equal),
        b">" | b">=" => Some(Operator::LaterOrEqual),
        b">>" => Some(Operator::Later),
        _ => None,
    }
}
