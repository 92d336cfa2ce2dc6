//! The versions of a line, in ranges.
ghost use Rattle.std.specs.Prelude.{◌≡◌, [], true, false, All, IfOk, OnOk, drop, filter};
ghost use Rattle.resolvo_pool.specs.Texts.{IsAppended};
ghost use Rattle.reports.specs.Versions.{begins_with, begun, best_last, from, in_order, is_one, longer, next_range};
ghost use Rattle.reports.specs.Versions.{rest_of};
ghost use Rattle.reports.specs.Versions.{text_in_order, text_of_end, text_of_next, text_of_ranges, text_of_size};
ghost use Rattle.reports.specs.Versions.{text_of_known, text_of_versions, those_among, those_beside};

use crate::candidates::candidates_of;
use crate::words::{write_solvable, write_version};
use resolvo_ids::{SameId, StoreError};
use resolvo_pool::{DependencyProvider, Interner};
use std::alloc::Allocator;

type Done = Result<(), StoreError>;

/// How many versions a range has.
#[derive(Clone, Copy)]
pub enum Size {
    One,
    Two,
    More,
}

/// Versions that are neighbours among the candidates of their package.
#[derive(Clone, Copy)]
pub struct Range<S> {
    /// The last one so far.
    pub last: S,
    pub size: Size,
}

/// Appends versions of one package with its name, those that are known, with the best one last. Three and more that are
/// neighbours among the package's candidates are a range, as `app 1 to 3`.
pub(crate) fn write_versions<P: DependencyProvider>(
    provider: &P,
    versions: &[P::SolvableId],
    text: &mut String<P::Alloc>,
) -> Done
    ensures { OnOk result (IsAppended text.old text.new (text_of_versions
        (P.universe provider.now) (P.texts provider.now) P.SolvableId.eq (P.answers provider.now) versions.now)) }
{
    let known = known_of(*text.allocator(), provider, versions)?;
    write_known(provider, &known, text)
}

/// Those of the solvables that are known.
#[tactic(auto, using(std::proofs::lemmas::List::Elements::filter_passes))]
pub(crate) fn known_of<I: Interner>(
    alloc: I::Alloc,
    interner: &I,
    solvables: &[I::SolvableId],
) -> Result<Vec<I::SolvableId, I::Alloc>, StoreError>
    ensures are { IfOk result (λ found. found.items ≡ filter (I.universe interner.now).knows_solvable solvables.now) }
    ensures known { IfOk result (λ found. All (λ s. (I.universe interner.now).knows_solvable s ≡ true) found.items) }
{
    let all = solvables.iter().copied();
    Ok(all.filter(|s| interner.knows_solvable(*s)).collect(alloc)?)
}

/// Appends known versions of one package, with the best one last.
fn write_known<P: DependencyProvider>(
    provider: &P,
    known: &[P::SolvableId],
    text: &mut String<P::Alloc>,
) -> Done
    requires { All (λ s. (P.universe provider.now).knows_solvable s ≡ true) known.now }
    ensures { OnOk result (IsAppended text.old text.new (text_of_known
        (P.universe provider.now) (P.texts provider.now) P.SolvableId.eq (P.answers provider.now) known.now)) }
{
    let [first, ..] = known else {
        return Ok(());
    };
    let alloc = *text.allocator();
    let all = candidates_beside(alloc, provider, *first)?;
    let versions = in_order(alloc, &all, known)?;
    write_in_order(provider, &all, &versions, text)
}

/// All candidates of a version's package, the best one last.
fn candidates_beside<P: DependencyProvider>(
    alloc: P::Alloc,
    provider: &P,
    version: P::SolvableId,
) -> Result<Vec<P::SolvableId, P::Alloc>, StoreError>
    requires { (P.universe provider.now).knows_solvable version ≡ true }
    ensures { IfOk result (λ found. found.items ≡ best_last (P.answers provider.now)
        ((P.answers provider.now).candidates ((P.universe provider.now).solvable_name version))) }
{
    let mut all = candidates_of(alloc, provider, provider.solvable_name(version))?;
    provider.sort_candidates(alloc, &mut all)?;
    all.reverse();
    Ok(all)
}

/// The versions in the order of all, and behind them those that aren't among all.
fn in_order<S: SameId, A: Allocator + Copy>(
    alloc: A,
    all: &[S],
    versions: &[S],
) -> Result<Vec<S, A>, StoreError>
    ensures { IfOk result (λ found. found.items ≡ in_order S.eq all.now versions.now) }
{
    let mut found = those_among(alloc, all, versions)?;
    let mut others = those_beside(alloc, versions, all)?;
    found.append(&mut others)?;
    Ok(found)
}

/// Those that are among the others.
fn those_among<S: SameId, A: Allocator>(
    alloc: A,
    solvables: &[S],
    others: &[S],
) -> Result<Vec<S, A>, StoreError>
    ensures { IfOk result (λ found. found.items ≡ those_among S.eq others.now solvables.now) }
{
    let all = solvables.iter().copied();
    Ok(all.filter(|s| others.contains(s)).collect(alloc)?)
}

/// Those that aren't.
fn those_beside<S: SameId, A: Allocator>(
    alloc: A,
    solvables: &[S],
    others: &[S],
) -> Result<Vec<S, A>, StoreError>
    ensures { IfOk result (λ found. found.items ≡ those_beside S.eq others.now solvables.now) }
{
    let all = solvables.iter().copied();
    Ok(all.filter(|s| !others.contains(s)).collect(alloc)?)
}

/// Appends versions in their order among all.
fn write_in_order<I: Interner>(
    interner: &I,
    all: &[I::SolvableId],
    versions: &[I::SolvableId],
    text: &mut String<I::Alloc>,
) -> Done
    ensures { OnOk result (IsAppended text.old text.new (text_in_order
        (I.universe interner.now) (I.texts interner.now) I.SolvableId.eq all.now versions.now)) }
{
    let [first, others @ ..] = versions else {
        return Ok(());
    };
    write_solvable(interner, *first, text)?;
    write_ranges(interner, all, *first, others, text)
}

/// Appends the versions behind the first one.
fn write_ranges<I: Interner>(
    interner: &I,
    all: &[I::SolvableId],
    first: I::SolvableId,
    others: &[I::SolvableId],
    text: &mut String<I::Alloc>,
) -> Done
    ensures { OnOk result (IsAppended text.old text.new (text_of_ranges
        (I.universe interner.now) (I.texts interner.now) I.SolvableId.eq all.now
        (begun first) (rest_of I.SolvableId.eq false all.now [] first) others.now)) }
{
    let mut range = begun(first);
    let mut rest = rest_of(false, all, &[], first);
    for version in others {
        let continues = begins_with(rest, *version);
        write_next(interner, continues, range, *version, text)?;
        range = next_range(continues, range, *version);
        rest = rest_of(continues, all, rest, *version);
    }
    write_end(interner, range, text)
}

/// Whether the solvable comes first.
fn begins_with<S: SameId>(solvables: &[S], solvable: S) -> bool
    ensures { result ≡ begins_with S.eq solvables.now solvable }
{
    match solvables {
        [first, ..] => *first == solvable,
        [] => false,
    }
}

/// The candidates behind the next version, if it continues the range that has `rest` behind it, and if it begins one.
fn rest_of<'a, S: SameId>(continues: bool, all: &'a [S], rest: &'a [S], version: S) -> &'a [S]
    ensures { result.now ≡ rest_of S.eq continues all.now rest.now version }
{
    if continues {
        behind_first(rest)
    } else {
        behind_first(from(version, all))
    }
}

fn behind_first<S: SameId>(solvables: &[S]) -> &[S]
    ensures { result.now ≡ drop 1 solvables.now }
{
    match solvables {
        [_, others @ ..] => others,
        [] => &[],
    }
}

/// The solvables from the first place on at which this one stands.
fn from<S: SameId>(solvable: S, solvables: &[S]) -> &[S]
    ensures { result.now ≡ from S.eq solvable solvables.now }
{
    for (place, other) in solvables.iter().enumerate() {
        if *other == solvable {
            return &solvables[place..];
        }
    }
    &[]
}

/// The range with the next version, if it continues the range, and else the one that it begins.
fn next_range<S: Copy>(continues: bool, range: Range<S>, version: S) -> Range<S>
    ensures { result ≡ next_range continues range version }
{
    if continues {
        Range {
            last: version,
            size: longer(range.size),
        }
    } else {
        begun(version)
    }
}

fn begun<S: Copy>(version: S) -> Range<S>
    ensures { result ≡ begun version }
{
    Range {
        last: version,
        size: Size::One,
    }
}

fn longer(size: Size) -> Size
    ensures { result ≡ longer size }
{
    match size {
        Size::One => Size::Two,
        Size::Two | Size::More => Size::More,
    }
}

/// Appends what the next version adds, if it continues the range, and if it doesn't.
fn write_next<I: Interner>(
    interner: &I,
    continues: bool,
    range: Range<I::SolvableId>,
    version: I::SolvableId,
    text: &mut String<I::Alloc>,
) -> Done
    ensures { OnOk result (IsAppended text.old text.new (text_of_next
        (I.universe interner.now) (I.texts interner.now) continues range version)) }
{
    if continues {
        return Ok(());
    }
    write_end(interner, range, text)?;
    text.push_str(", ")?;
    write_version(interner, version, text)
}

/// Appends what stands behind a range's first version.
fn write_end<I: Interner>(
    interner: &I,
    range: Range<I::SolvableId>,
    text: &mut String<I::Alloc>,
) -> Done
    ensures { OnOk result (IsAppended text.old text.new (text_of_end
        (I.universe interner.now) (I.texts interner.now) range)) }
{
    match range.size {
        Size::One => Ok(()),
        Size::Two => {
            text.push_str(", ")?;
            write_version(interner, range.last, text)
        }
        Size::More => {
            text.push_str(" to ")?;
            write_version(interner, range.last, text)
        }
    }
}
