//! The texts of versions and of version sets, as bytes.
ghost use Rattle.std.specs.Prelude.{◌≡◌, ◌++◌, codes, option_map, IfOk, OnOk};
ghost use Rattle.debian_text.specs.Plain.{plain_bound, plain_relation};
ghost use Rattle.debian_provider.specs.Sets.{plain_set};
ghost use Rattle.debian_provider.specs.Texts as spec;

use crate::set::Set;
use debian_scenario::Package;
use debian_text::{Bound, Operator, Relation};
use std::alloc::{AllocError, Global};

/// A package's name and version.
pub(crate) fn package_text(alloc: Global, one: &Package<'_>) -> Result<Vec<u8>, AllocError>
    ensures { IfOk result (λ text. text.items ≡
        one.now.identity.name.now ++ codes " " ++ one.now.identity.version.now) }
{
    let mut text = Vec::new(alloc);
    text.extend_from_slice(one.identity.name)?;
    text.push(b' ')?;
    text.extend_from_slice(one.identity.version)?;
    Ok(text)
}

/// What a set says of the versions of a name, as `(>= 1:2.0)` or `as mail-transport-agent`; nothing if it has all of
/// them.
pub(crate) fn set_text(alloc: Global, name: &[u8], set: &Set<'_>) -> Result<Vec<u8>, AllocError>
    ensures { IfOk result (λ text. text.items ≡ spec.set_text name.now (plain_set set.now)) }
{
    let mut text = Vec::new(alloc);
    match set {
        Set::All => {}
        Set::Meeting(relation, _) => add_relation(&mut text, name, relation)?,
        Set::Spared(relation) => add_relation(&mut text, name, relation)?,
        Set::Beside(_) => text.extend_from_slice(b"(of another architecture)")?,
    }
    Ok(text)
}

/// Adds by which other name versions of this one are meant, and in which bound.
fn add_relation(text: &mut Vec<u8>, name: &[u8], relation: &Relation<'_>) -> Result<(), AllocError>
    ensures { OnOk result (text.new.items ≡
        text.old.items ++ spec.relation_text name.now (plain_relation relation.now)) }
{
    add_other_name(text, name, relation.name)?;
    add_bound(text, relation.bound)
}

/// Adds by which other name versions of this one are meant, as `as mail-transport-agent`.
fn add_other_name(text: &mut Vec<u8>, name: &[u8], other: &[u8]) -> Result<(), AllocError>
    ensures { OnOk result (text.new.items ≡ text.old.items ++ spec.other_name name.now other.now) }
{
    if other == name {
        return Ok(());
    }
    text.extend_from_slice(b"as ")?;
    text.extend_from_slice(other)?;
    text.push(b' ')?;
    Ok(())
}

/// Adds a bound, as `(>= 1:2.0)`.
fn add_bound(text: &mut Vec<u8>, bound: Option<Bound<'_>>) -> Result<(), AllocError>
    ensures { OnOk result (text.new.items ≡ text.old.items ++ spec.bound_text (option_map plain_bound bound.entry)) }
{
    let Some(bound) = bound else {
        return Ok(());
    };
    text.push(b'(')?;
    text.extend_from_slice(sign(bound.operator))?;
    text.push(b' ')?;
    text.extend_from_slice(bound.version)?;
    text.push(b')')?;
    Ok(())
}

/// As an operator is written.
fn sign(operator: Operator) -> &'static [u8]
    ensures { result.now ≡ spec.sign operator }
{
    match operator {
        Operator::Earlier => b"<<",
        Operator::EarlierOrEqual => b"<=",
        Operator::Equal => b"=",
        Operator::LaterOrEqual => b">=",
        Operator::Later => b">>",
    }
}
