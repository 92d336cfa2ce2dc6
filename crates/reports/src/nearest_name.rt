//! The nearest name: which package may be meant by a name that no package has.
ghost use Rattle.std.specs.Prelude.{◌≡◌, IfOk, length, string_bytes};
ghost use Rattle.std.specs.Str.{chars};
ghost use Rattle.reports.specs.Nearest.{first_at, furthest, has_versions, measured, nearest, nearest_within};
ghost use Rattle.reports.specs.Words.{text_of_name};

use crate::candidates::candidates_of;
use crate::words::write_name;
use resolvo_ids::StoreError;
use resolvo_pool::{DependencyProvider, Interner};
use strsim::osa_distance;

/// A name, and how many edits make it of a text.
#[derive(Clone, Copy)]
pub struct MeasuredName<N> {
    pub name: N,
    pub edits: usize,
}

/// The name of a package with versions that the fewest edits make of the text: the first one of several such names. An
/// edit leaves out, adds or changes a letter, or exchanges two neighbours. No more than three are made, and one for
/// three letters of the text.
pub fn nearest<P: DependencyProvider>(
    alloc: P::Alloc,
    provider: &P,
    names: &[P::NameId],
    text: &str,
) -> Result<Option<P::NameId>, StoreError>
    ensures { IfOk result (λ found. found ≡ nearest (P.universe provider.now) (P.texts provider.now)
        (P.answers provider.now) names.now text.now) }
{
    let measured = measured(alloc, provider, names, text)?;
    nearest_within(alloc, provider, &measured, furthest(text))
}

/// How many edits are made at most.
fn furthest(text: &str) -> usize
    ensures { result ≡ furthest text.now }
{
    (letters(text) / 3).min(3)
}

/// How many letters a text has.
fn letters(text: &str) -> usize
    ensures { result ≡ length (chars text.now) }
{
    text.chars().count()
}

/// How many edits make each name of the text.
fn measured<I: Interner>(
    alloc: I::Alloc,
    interner: &I,
    names: &[I::NameId],
    text: &str,
) -> Result<Vec<MeasuredName<I::NameId>, I::Alloc>, StoreError>
    ensures { IfOk result (λ found. found.items ≡
        measured (I.universe interner.now) (I.texts interner.now) text.now names.now) }
{
    let mut found = Vec::new(alloc);
    for name in names {
        let own = text_of(alloc, interner, *name)?;
        let edits = osa_distance(alloc, text, own.as_str())?;
        found.push(MeasuredName { name: *name, edits })?;
    }
    Ok(found)
}

/// The first of the names that the fewest edits make, no more than these.
fn nearest_within<P: DependencyProvider>(
    alloc: P::Alloc,
    provider: &P,
    names: &[MeasuredName<P::NameId>],
    edits: usize,
) -> Result<Option<P::NameId>, StoreError>
    ensures { IfOk result (λ found. found ≡ nearest_within (P.answers provider.now) names.now edits) }
{
    for fewer in 0..edits {
        let found = first_at(alloc, provider, names, fewer + 1)?;
        if found.is_some() {
            return Ok(found);
        }
    }
    Ok(None)
}

/// The first of the names that this number of edits makes.
fn first_at<P: DependencyProvider>(
    alloc: P::Alloc,
    provider: &P,
    names: &[MeasuredName<P::NameId>],
    edits: usize,
) -> Result<Option<P::NameId>, StoreError>
    ensures { IfOk result (λ found. found ≡ first_at (P.answers provider.now) names.now edits) }
{
    for other in names {
        if other.edits == edits && has_versions(alloc, provider, other.name)? {
            return Ok(Some(other.name));
        }
    }
    Ok(None)
}

/// Whether a package has versions.
pub(crate) fn has_versions<P: DependencyProvider>(
    alloc: P::Alloc,
    provider: &P,
    name: P::NameId,
) -> Result<bool, StoreError>
    ensures { IfOk result (λ has. has ≡ has_versions (P.answers provider.now) name) }
{
    let versions = candidates_of(alloc, provider, name)?;
    Ok(!versions.is_empty())
}

/// The text of a name.
pub(crate) fn text_of<I: Interner>(
    alloc: I::Alloc,
    interner: &I,
    name: I::NameId,
) -> Result<String<I::Alloc>, StoreError>
    ensures { IfOk result (λ text. string_bytes text ≡
        text_of_name (I.universe interner.now) (I.texts interner.now) name) }
{
    let mut text = String::new(alloc);
    write_name(interner, name, &mut text)?;
    Ok(text)
}
