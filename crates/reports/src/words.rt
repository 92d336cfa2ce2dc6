//! How reports name packages, versions and version sets.
ghost use Rattle.std.specs.Prelude.{◌≡◌, OnOk};
ghost use Rattle.resolvo_pool.specs.Texts.{IsAppended};
ghost use Rattle.reports.specs.Words.{text_of_name, text_of_solvable, text_of_requirement, text_of_set};
ghost use Rattle.reports.specs.Words.{text_of_string, text_of_version, text_of_others, text_of_each};
ghost use Rattle.reports.specs.Words.{text_of_all, text_of_count, text_of_last_and_count, text_of_last_version};
ghost use Rattle.reports.specs.Words.{without};

use resolvo_ids::{StoreError, StringId, VersionSetId};
use resolvo_pool::{Interner, Requirement};
use std::alloc::Allocator;

type Done = Result<(), StoreError>;

pub(crate) fn write_name<I: Interner>(
    interner: &I,
    name: I::NameId,
    text: &mut String<I::Alloc>,
) -> Done
    ensures { OnOk result (IsAppended text.old text.new
        (text_of_name (I.universe interner.now) (I.texts interner.now) name)) }
{
    if interner.knows_name(name) {
        interner.display_name(name, text)?;
    }
    Ok(())
}

pub(crate) fn write_solvable<I: Interner>(
    interner: &I,
    solvable: I::SolvableId,
    text: &mut String<I::Alloc>,
) -> Done
    ensures { OnOk result (IsAppended text.old text.new
        (text_of_solvable (I.universe interner.now) (I.texts interner.now) solvable)) }
{
    if interner.knows_solvable(solvable) {
        interner.display_solvable(solvable, text)?;
    }
    Ok(())
}

pub(crate) fn write_string<I: Interner>(
    interner: &I,
    string: StringId,
    text: &mut String<I::Alloc>,
) -> Done
    ensures { OnOk result (IsAppended text.old text.new
        (text_of_string (I.universe interner.now) (I.texts interner.now) string)) }
{
    if interner.knows_string(string) {
        interner.display_string(string, text)?;
    }
    Ok(())
}

pub(crate) fn write_requirement<I: Interner>(
    interner: &I,
    requirement: Requirement,
    text: &mut String<I::Alloc>,
) -> Done
    ensures { OnOk result (IsAppended text.old text.new
        (text_of_requirement (I.universe interner.now) (I.texts interner.now) requirement)) }
{
    match requirement {
        Requirement::Single(set) if interner.knows_version_set(set) => {
            requirement.display(interner, text)
        }
        Requirement::Union(union) if interner.knows_union(union) => {
            requirement.display(interner, text)
        }
        _ => Ok(()),
    }
}

/// Appends the name of a version set's package, and then the set.
pub(crate) fn write_set<I: Interner>(
    interner: &I,
    set: VersionSetId,
    text: &mut String<I::Alloc>,
) -> Done
    ensures { OnOk result (IsAppended text.old text.new
        (text_of_set (I.universe interner.now) (I.texts interner.now) set)) }
{
    write_requirement(interner, Requirement::Single(set), text)
}

/// Appends the text of a solvable; if that begins with the name of its package and a blank, only what follows.
pub(crate) fn write_version<I: Interner>(
    interner: &I,
    solvable: I::SolvableId,
    text: &mut String<I::Alloc>,
) -> Done
    ensures { OnOk result (IsAppended text.old text.new
        (text_of_version (I.universe interner.now) (I.texts interner.now) solvable)) }
{
    if !interner.knows_solvable(solvable) {
        return Ok(());
    }
    let mut name = String::new(*text.allocator());
    interner.display_name(interner.solvable_name(solvable), &mut name)?;
    name.push_str(" ")?;
    let mut whole = String::new(*text.allocator());
    interner.display_solvable(solvable, &mut whole)?;
    write_without(name.as_str(), whole.as_str(), text)
}

/// Appends `whole`; if it begins with `beginning`, only what follows.
#[tactic(auto, using(crate::proofs::TextLemmas::stripped, crate::proofs::TextLemmas::unstripped))]
fn write_without<A: Allocator>(beginning: &str, whole: &str, text: &mut String<A>) -> Done
    ensures { OnOk result (IsAppended text.old text.new (without beginning.now whole.now)) }
{
    match whole.strip_prefix(beginning) {
        Some(rest) => Ok(text.push_str(rest)?),
        None => Ok(text.push_str(whole)?),
    }
}

/// Appends versions: all of them if there are at most four, otherwise the first, the last, and how many there are.
pub(crate) fn write_all<I: Interner>(
    interner: &I,
    versions: &[I::SolvableId],
    text: &mut String<I::Alloc>,
) -> Done
    ensures { OnOk result (IsAppended text.old text.new
        (text_of_all (I.universe interner.now) (I.texts interner.now) versions.now)) }
{
    match versions {
        [] => Ok(()),
        [first, ..] => {
            write_version(interner, *first, text)?;
            write_others(interner, versions, text)
        }
    }
}

/// Appends the versions after the first one: all of them if there are at most three, otherwise the last one, and how
/// many there are with the first.
fn write_others<I: Interner>(
    interner: &I,
    versions: &[I::SolvableId],
    text: &mut String<I::Alloc>,
) -> Done
    ensures { OnOk result (IsAppended text.old text.new
        (text_of_others (I.universe interner.now) (I.texts interner.now) versions.now)) }
{
    match versions {
        [] => Ok(()),
        [_, others @ ..] if others.len() < 4 => write_each(interner, others, text),
        _ => write_last_and_count(interner, versions, text),
    }
}

/// Appends two dots, the last version, and how many there are.
fn write_last_and_count<I: Interner>(
    interner: &I,
    versions: &[I::SolvableId],
    text: &mut String<I::Alloc>,
) -> Done
    ensures { OnOk result (IsAppended text.old text.new
        (text_of_last_and_count (I.universe interner.now) (I.texts interner.now) versions.now)) }
{
    text.push_str(", .., ")?;
    write_last_version(interner, versions, text)?;
    write_count(versions.len(), text)
}

/// Appends the last version.
fn write_last_version<I: Interner>(
    interner: &I,
    versions: &[I::SolvableId],
    text: &mut String<I::Alloc>,
) -> Done
    ensures { OnOk result (IsAppended text.old text.new
        (text_of_last_version (I.universe interner.now) (I.texts interner.now) versions.now)) }
{
    match versions.last() {
        Some(last) => write_version(interner, *last, text),
        None => Ok(()),
    }
}

/// Appends how many versions there are.
fn write_count<A: Allocator + Copy>(count: usize, text: &mut String<A>) -> Done
    ensures { OnOk result (IsAppended text.old text.new (text_of_count count)) }
{
    let counted = format!(in *text.allocator(); " ({count} versions)")?;
    Ok(text.push_str(&counted)?)
}

/// Appends a comma and the version, for each version.
fn write_each<I: Interner>(
    interner: &I,
    versions: &[I::SolvableId],
    text: &mut String<I::Alloc>,
) -> Done
    ensures { OnOk result (IsAppended text.old text.new
        (text_of_each (I.universe interner.now) (I.texts interner.now) versions.now)) }
{
    for version in versions {
        text.push_str(", ")?;
        write_version(interner, *version, text)?;
    }
    Ok(())
}
