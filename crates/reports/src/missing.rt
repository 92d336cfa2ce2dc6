//! Why a version set has no candidate.
ghost use Rattle.std.specs.Prelude.{◌≡◌, true, IfOk, OnOk};
ghost use Rattle.resolvo_pool.specs.Texts.{IsAppended};
ghost use Rattle.reports.specs.LineTexts.{has_no_candidate, text_of_absence, text_of_empty, text_of_empty_sets};
ghost use Rattle.reports.specs.LineTexts.{text_of_if_empty};
ghost use Rattle.reports.specs.LineTexts.{text_of_further, text_of_missing, text_of_missing_set, text_of_missing_sets};
ghost use Rattle.reports.specs.LineTexts.{text_of_no_package, text_of_outside};

use crate::candidates::candidates_of;
use crate::words::{write_all, write_name};
use resolvo_ids::{StoreError, VersionSetId};
use resolvo_pool::{DependencyProvider, Interner, Requirement};

type Done = Result<(), StoreError>;

/// Appends for each version set of a requirement why it has no candidate.
pub(crate) fn write_missing<P: DependencyProvider>(
    provider: &P,
    requirement: Requirement,
    text: &mut String<P::Alloc>,
) -> Done
    ensures { OnOk result (IsAppended text.old text.new
        (text_of_missing (P.universe provider.now) (P.texts provider.now) (P.answers provider.now)
        requirement)) }
{
    match requirement {
        Requirement::Single(set) if provider.knows_version_set(set) => {
            write_missing_sets(provider, &[set], text)
        }
        Requirement::Union(union) if provider.knows_union(union) => {
            write_missing_sets(provider, provider.version_sets_in_union(union), text)
        }
        _ => Ok(()),
    }
}

/// Appends for each of these sets why it has no candidate.
fn write_missing_sets<P: DependencyProvider>(
    provider: &P,
    sets: &[VersionSetId],
    text: &mut String<P::Alloc>,
) -> Done
    ensures { OnOk result (IsAppended text.old text.new
        (text_of_missing_sets (P.universe provider.now) (P.texts provider.now) (P.answers provider.now)
        sets.now)) }
{
    match sets {
        [] => Ok(()),
        [first, others @ ..] => {
            text.push_str(", but ")?;
            write_missing_set(provider, *first, text)?;
            write_further(provider, others, text)
        }
    }
}

/// Appends the same for each further set.
fn write_further<P: DependencyProvider>(
    provider: &P,
    sets: &[VersionSetId],
    text: &mut String<P::Alloc>,
) -> Done
    ensures { OnOk result (IsAppended text.old text.new (text_of_further
        (P.universe provider.now) (P.texts provider.now) (P.answers provider.now) sets.now)) }
{
    for set in sets {
        text.push_str(" and ")?;
        write_missing_set(provider, *set, text)?;
    }
    Ok(())
}

/// Appends why a version set has no candidate.
fn write_missing_set<P: DependencyProvider>(
    provider: &P,
    set: VersionSetId,
    text: &mut String<P::Alloc>,
) -> Done
    ensures { OnOk result (IsAppended text.old text.new
        (text_of_missing_set (P.universe provider.now) (P.texts provider.now) (P.answers provider.now)
        set)) }
{
    if !provider.knows_version_set(set) {
        return Ok(());
    }
    let name = provider.version_set_name(set);
    let all = candidates_of(*text.allocator(), provider, name)?;
    write_absence(provider, set, &all, text)
}

/// Appends that there is no package, or that none of its versions is in the set.
fn write_absence<I: Interner>(
    interner: &I,
    set: VersionSetId,
    candidates: &[I::SolvableId],
    text: &mut String<I::Alloc>,
) -> Done
    requires { (I.universe interner.now).knows_set set ≡ true }
    ensures { OnOk result (IsAppended text.old text.new
        (text_of_absence (I.universe interner.now) (I.texts interner.now) set candidates.now)) }
{
    if candidates.is_empty() {
        write_no_package(interner, set, text)
    } else {
        write_outside(interner, set, candidates, text)
    }
}

/// Appends that there is no package.
fn write_no_package<I: Interner>(
    interner: &I,
    set: VersionSetId,
    text: &mut String<I::Alloc>,
) -> Done
    requires { (I.universe interner.now).knows_set set ≡ true }
    ensures { OnOk result (IsAppended text.old text.new
        (text_of_no_package (I.universe interner.now) (I.texts interner.now) set)) }
{
    text.push_str("there is no package ")?;
    write_name(interner, interner.version_set_name(set), text)
}

/// Appends that none of these versions is in the set.
fn write_outside<I: Interner>(
    interner: &I,
    set: VersionSetId,
    candidates: &[I::SolvableId],
    text: &mut String<I::Alloc>,
) -> Done
    requires { (I.universe interner.now).knows_set set ≡ true }
    ensures { OnOk result (IsAppended text.old text.new
        (text_of_outside (I.universe interner.now) (I.texts interner.now) set candidates.now)) }
{
    write_name(interner, interner.version_set_name(set), text)?;
    text.push_str(" has only ")?;
    write_all(interner, candidates, text)?;
    text.push_str(": none is in ")?;
    Ok(interner.display_version_set(set, text)?)
}

/// Appends for each version set of a union that has no candidate why.
pub(crate) fn write_empty<P: DependencyProvider>(
    provider: &P,
    requirement: Requirement,
    text: &mut String<P::Alloc>,
) -> Done
    ensures { OnOk result (IsAppended text.old text.new (text_of_empty
        (P.universe provider.now) (P.texts provider.now) (P.answers provider.now) requirement)) }
{
    match requirement {
        Requirement::Union(union) if provider.knows_union(union) => {
            write_empty_sets(provider, provider.version_sets_in_union(union), text)
        }
        _ => Ok(()),
    }
}

/// Appends for each of these sets that has no candidate why.
fn write_empty_sets<P: DependencyProvider>(
    provider: &P,
    sets: &[VersionSetId],
    text: &mut String<P::Alloc>,
) -> Done
    ensures { OnOk result (IsAppended text.old text.new (text_of_empty_sets
        (P.universe provider.now) (P.texts provider.now) (P.answers provider.now) sets.now)) }
{
    for set in sets {
        write_if_empty(provider, *set, text)?;
    }
    Ok(())
}

/// Appends why the set has no candidate, if it has none.
fn write_if_empty<P: DependencyProvider>(
    provider: &P,
    set: VersionSetId,
    text: &mut String<P::Alloc>,
) -> Done
    ensures { OnOk result (IsAppended text.old text.new (text_of_if_empty
        (P.universe provider.now) (P.texts provider.now) (P.answers provider.now) set)) }
{
    if !provider.knows_version_set(set) {
        return Ok(());
    }
    if !has_no_candidate(*text.allocator(), provider, set)? {
        return Ok(());
    }
    text.push_str(", and ")?;
    write_missing_set(provider, set, text)
}

/// Whether the version set has no candidate.
fn has_no_candidate<P: DependencyProvider>(
    alloc: P::Alloc,
    provider: &P,
    set: VersionSetId,
) -> Result<bool, StoreError>
    requires { (P.universe provider.now).knows_set set ≡ true }
    ensures { IfOk result (λ none. none ≡
        has_no_candidate (P.universe provider.now) (P.answers provider.now) set) }
{
    let all = candidates_of(alloc, provider, provider.version_set_name(set))?;
    Ok(
        provider
            .filter_candidates(alloc, &all, set, false)?
            .is_empty(),
    )
}
