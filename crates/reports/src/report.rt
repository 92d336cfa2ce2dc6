//! The report: a line for each set of reasons that differ only in the version.
ghost use Rattle.std.specs.Prelude.{◌≡◌, [], length, OnOk};
ghost use Rattle.resolvo_pool.specs.Texts.{IsAppended, IsContinuedBy};
ghost use Rattle.reports.specs.Reports.{IsReport, between, lines_text, needed_by, others_text, package_of, room_after};
ghost use Rattle.reports.specs.Reports.{goes_on, room_of, says_of, text_with_names};

use crate::line::Line;
use crate::line_text::write_line;
use crate::meant::write_meant;
use crate::merging::merged;
use resolvo_ids::StoreError;
use resolvo_pool::{DependencyProvider, Interner, Requirement};
use solutions::Reason;

type Done = Result<(), StoreError>;

/// Appends a report of the reasons for which there is no solution: a line for each set of reasons that differ only in
/// the version. If there are more than twenty lines, up to three links of a chain of needs share a line of text.
pub fn write_report<P: DependencyProvider>(
    provider: &P,
    reasons: &[Reason<P::NameId, P::SolvableId>],
    text: &mut String<P::Alloc>,
) -> Result<(), StoreError>
    ensures { OnOk result (IsContinuedBy text.old text.new (IsReport P.Alloc (P.universe provider.now)
        (P.texts provider.now) P.NameId.eq P.SolvableId.eq (P.answers provider.now) [] reasons.now)) }
{
    write_report_with_names(provider, &[], reasons, text)
}

/// Appends the same report, in which a line that says that there is no package also asks whether the nearest one of
/// these names is meant. [`nearest`](crate::nearest_name::nearest) finds it.
pub fn write_report_with_names<P: DependencyProvider>(
    provider: &P,
    names: &[P::NameId],
    reasons: &[Reason<P::NameId, P::SolvableId>],
    text: &mut String<P::Alloc>,
) -> Result<(), StoreError>
    ensures { OnOk result (IsContinuedBy text.old text.new (IsReport P.Alloc (P.universe provider.now)
        (P.texts provider.now) P.NameId.eq P.SolvableId.eq (P.answers provider.now) names.now reasons.now)) }
{
    let lines = merged(*text.allocator(), provider, reasons)?;
    write_lines(provider, names, &lines, text)
}

/// Appends the lines.
fn write_lines<P: DependencyProvider>(
    provider: &P,
    names: &[P::NameId],
    lines: &[Line<P::NameId, P::SolvableId, P::Alloc>],
    text: &mut String<P::Alloc>,
) -> Done
    ensures { let universe = P.universe provider.now in OnOk result (IsAppended text.old text.new (lines_text
        (text_with_names universe (P.texts provider.now) P.SolvableId.eq (P.answers provider.now) names.now)
        (needed_by universe) (says_of P.NameId.eq universe) lines.now)) }
{
    let [first, others @ ..] = lines else {
        return Ok(());
    };
    write_line_with_names(provider, names, first, text)?;
    write_others(provider, names, first, others, text)
}

/// Appends the text of a line, without an end of line, and which one of the names is meant where there is no package.
pub fn write_line_with_names<P: DependencyProvider>(
    provider: &P,
    names: &[P::NameId],
    line: &Line<P::NameId, P::SolvableId, P::Alloc>,
    text: &mut String<P::Alloc>,
) -> Done
    ensures { OnOk result (IsAppended text.old text.new (text_with_names
        (P.universe provider.now) (P.texts provider.now) P.SolvableId.eq (P.answers provider.now)
        names.now line.now)) }
{
    write_line(provider, line, text)?;
    write_meant(provider, names, line.reason, text)
}

/// Appends the lines behind the first one.
fn write_others<P: DependencyProvider>(
    provider: &P,
    names: &[P::NameId],
    first: &Line<P::NameId, P::SolvableId, P::Alloc>,
    others: &[Line<P::NameId, P::SolvableId, P::Alloc>],
    text: &mut String<P::Alloc>,
) -> Done
    ensures { let universe = P.universe provider.now in let full = room_of (length others.now) in
        OnOk result (IsAppended text.old text.new (others_text
        (text_with_names universe (P.texts provider.now) P.SolvableId.eq (P.answers provider.now) names.now)
        (needed_by universe) (says_of P.NameId.eq universe) full full (needed_by universe first.now) others.now)) }
{
    let full = room_of(others.len());
    let mut room = full;
    let mut name = needed_by(provider, first);
    for line in others {
        let joins = goes_on(room, says_of(provider, name, line));
        text.push_str(between(joins))?;
        write_line_with_names(provider, names, line, text)?;
        room = room_after(joins, full, room);
        name = needed_by(provider, line);
    }
    Ok(text.push_str("\n")?)
}

/// How many further links of a chain fit into a line of text, if this many lines come behind the first one.
fn room_of(count: usize) -> usize
    ensures { result ≡ room_of count }
{
    if count >= 20 { 2 } else { 0 }
}

/// The room behind a line that joins the line of text before it, or begins a new one.
fn room_after(joins: bool, full: usize, room: usize) -> usize
    ensures { result ≡ room_after joins full room }
{
    if joins { room.saturating_sub(1) } else { full }
}

/// Whether a line joins the line of text before it.
fn goes_on(room: usize, is_link: bool) -> bool
    ensures { result ≡ goes_on room is_link }
{
    room > 0 && is_link
}

/// What stands before a line that joins the line of text before it, or begins a new one.
fn between(joins: bool) -> &'static str
    ensures { result.now ≡ between joins }
{
    if joins { "; " } else { "\n" }
}

/// The package that a line needs, if it needs a single version set; none for a union, which may name several.
fn needed_by<I: Interner>(
    interner: &I,
    line: &Line<I::NameId, I::SolvableId, I::Alloc>,
) -> Option<I::NameId>
    ensures { result ≡ needed_by (I.universe interner.now) line.now }
{
    match line.reason {
        Reason::Needs(_, need) => package_of(interner, need.requirement),
        _ => None,
    }
}

fn package_of<I: Interner>(interner: &I, requirement: Requirement) -> Option<I::NameId>
    ensures { result ≡ package_of (I.universe interner.now) requirement }
{
    match requirement {
        Requirement::Single(set) if interner.knows_version_set(set) => {
            Some(interner.version_set_name(set))
        }
        _ => None,
    }
}

/// Whether a line says something of versions of this package.
pub(crate) fn says_of<I: Interner>(
    interner: &I,
    name: Option<I::NameId>,
    line: &Line<I::NameId, I::SolvableId, I::Alloc>,
) -> bool
    ensures { result ≡ says_of I.NameId.eq (I.universe interner.now) name line.now }
{
    let Some(name) = name else {
        return false;
    };
    match line.versions.first() {
        Some(version) => {
            interner.knows_solvable(*version) && interner.solvable_name(*version) == name
        }
        None => false,
    }
}
