//! The lines of a report as a tree.
ghost use Rattle.std.specs.Prelude.{◌≡◌, map, IfOk, OnOk};
ghost use Rattle.std.specs.String.{string_bytes};
ghost use Rattle.resolvo_pool.specs.Texts.{IsContinuedBy};
ghost use Rattle.report_trees.specs.Forests.{edges_of};
ghost use Rattle.report_trees.specs.Growing.{lists};
ghost use Rattle.report_trees.specs.TreeTexts.{IsTree};
ghost use Rattle.report_trees.specs.Trees.{IsTreeOrReport};
ghost use Rattle.reports.specs.Graphs.{leads_to};
ghost use Rattle.reports.specs.Reports.{text_with_names};

use crate::tree_text::write_forest;
use reports::{Line, leads_to, merged, write_line_with_names, write_report_with_names};
use resolvo_ids::StoreError;
use resolvo_pool::DependencyProvider;
use solutions::Reason;

/// Of more lines than these, a report without a tree is shorter: it tells chains in fewer lines of text.
const MOST_LINES: usize = 20;

type Done = Result<(), StoreError>;

/// Appends a report of the reasons for which there is no solution as a tree: each line stands once, two blanks further
/// in than one that leads to it. A line to which others lead too has a number, and they refer to it. One of the names
/// is meant where there is no package. A report of more than twenty lines is no tree, but as
/// [`write_report_with_names`] writes it.
pub fn write_tree<P: DependencyProvider>(
    provider: &P,
    names: &[P::NameId],
    reasons: &[Reason<P::NameId, P::SolvableId>],
    text: &mut String<P::Alloc>,
) -> Result<(), StoreError>
    ensures { OnOk result (IsContinuedBy text.old text.new (IsTreeOrReport P.Alloc (P.universe provider.now)
        (P.texts provider.now) P.NameId.eq P.SolvableId.eq (P.answers provider.now) names.now reasons.now)) }
{
    let lines = merged(*text.allocator(), provider, reasons)?;
    if lines.len() > MOST_LINES {
        return write_report_with_names(provider, names, reasons, text);
    }
    write_lines(provider, names, &lines, text)
}

/// Appends the lines as a tree.
fn write_lines<P: DependencyProvider>(
    provider: &P,
    names: &[P::NameId],
    lines: &[Line<P::NameId, P::SolvableId, P::Alloc>],
    text: &mut String<P::Alloc>,
) -> Done
    ensures { let universe = P.universe provider.now in let answers = P.answers provider.now in
        OnOk result (IsContinuedBy text.old text.new (IsTree
        (edges_of (leads_to P.NameId.eq universe answers) lines.now)
        (map (text_with_names universe (P.texts provider.now) P.SolvableId.eq answers names.now) lines.now))) }
{
    let edges = edges_of(*text.allocator(), provider, lines)?;
    let texts = texts_of(*text.allocator(), provider, names, lines)?;
    Ok(write_forest(&edges, &texts, text)?)
}

/// For each line, to which lines it leads.
fn edges_of<P: DependencyProvider>(
    alloc: P::Alloc,
    provider: &P,
    lines: &[Line<P::NameId, P::SolvableId, P::Alloc>],
) -> Result<Vec<Vec<bool, P::Alloc>, P::Alloc>, StoreError>
    ensures { IfOk result (λ edges. lists edges.items ≡
        edges_of (leads_to P.NameId.eq (P.universe provider.now) (P.answers provider.now)) lines.now) }
{
    let mut edges = Vec::new(alloc);
    for line in lines {
        edges.push(edges_from(alloc, provider, line, lines)?)?;
    }
    Ok(edges)
}

/// To which lines a line leads.
fn edges_from<P: DependencyProvider>(
    alloc: P::Alloc,
    provider: &P,
    from: &Line<P::NameId, P::SolvableId, P::Alloc>,
    lines: &[Line<P::NameId, P::SolvableId, P::Alloc>],
) -> Result<Vec<bool, P::Alloc>, StoreError>
    ensures { IfOk result (λ edges. edges.items ≡
        map (leads_to P.NameId.eq (P.universe provider.now) (P.answers provider.now) from.now) lines.now) }
{
    let mut edges = Vec::new(alloc);
    for line in lines {
        edges.push(leads_to(alloc, provider, from, line)?)?;
    }
    Ok(edges)
}

/// What the lines say.
fn texts_of<P: DependencyProvider>(
    alloc: P::Alloc,
    provider: &P,
    names: &[P::NameId],
    lines: &[Line<P::NameId, P::SolvableId, P::Alloc>],
) -> Result<Vec<String<P::Alloc>, P::Alloc>, StoreError>
    ensures { IfOk result (λ texts. map string_bytes texts.items ≡ map (text_with_names
        (P.universe provider.now) (P.texts provider.now) P.SolvableId.eq (P.answers provider.now) names.now)
        lines.now) }
{
    let mut texts = Vec::new(alloc);
    for line in lines {
        let mut said = String::new(alloc);
        write_line_with_names(provider, names, line, &mut said)?;
        texts.push(said)?;
    }
    Ok(texts)
}
