//! The lines of a report as a graph, in Graphviz' language.
ghost use Rattle.std.specs.Prelude.{◌≡◌, ◌++◌, codes, OnOk};
ghost use Rattle.std.specs.Str.{chars};
ghost use Rattle.resolvo_pool.specs.Texts.{IsAppended, IsContinuedBy};
ghost use Rattle.reports.specs.Graphs.{IsGraph, edge_text, edges_from, edges_text, escaped, graph_text, leads_to};
ghost use Rattle.reports.specs.Graphs.{before_letter, node_text, nodes_text};
ghost use Rattle.reports.specs.LineTexts.{text_of_line};

use crate::edges::leads_to;
use crate::line::Line;
use crate::line_text::write_line;
use crate::merging::merged;
use resolvo_ids::StoreError;
use resolvo_pool::{DependencyProvider, Interner};
use solutions::Reason;
use std::alloc::Allocator;

type Done = Result<(), StoreError>;

/// Appends the reasons for which there is no solution as a graph in Graphviz' language: a node for each line of the
/// report, and an edge from each need to each line that says why what it needs can't be picked.
pub fn write_dot<P: DependencyProvider>(
    provider: &P,
    reasons: &[Reason<P::NameId, P::SolvableId>],
    text: &mut String<P::Alloc>,
) -> Result<(), StoreError>
    ensures { OnOk result (IsContinuedBy text.old text.new (IsGraph P.Alloc (P.universe provider.now)
        (P.texts provider.now) P.NameId.eq P.SolvableId.eq (P.answers provider.now) reasons.now)) }
{
    let lines = merged(*text.allocator(), provider, reasons)?;
    write_graph(provider, &lines, text)
}

/// Appends the graph of the lines.
fn write_graph<P: DependencyProvider>(
    provider: &P,
    lines: &[Line<P::NameId, P::SolvableId, P::Alloc>],
    text: &mut String<P::Alloc>,
) -> Done
    ensures { let universe = P.universe provider.now in let answers = P.answers provider.now in
        OnOk result (IsAppended text.old text.new (graph_text
        (text_of_line universe (P.texts provider.now) P.SolvableId.eq answers)
        (leads_to P.NameId.eq universe answers) lines.now)) }
{
    text.push_str("digraph reasons {\n  node [shape=box];\n")?;
    write_nodes(provider, lines, text)?;
    write_edges_and_end(provider, lines, text)
}

/// Appends the edges, and the end of the graph.
fn write_edges_and_end<P: DependencyProvider>(
    provider: &P,
    lines: &[Line<P::NameId, P::SolvableId, P::Alloc>],
    text: &mut String<P::Alloc>,
) -> Done
    ensures { OnOk result (IsAppended text.old text.new (edges_text
        (leads_to P.NameId.eq (P.universe provider.now) (P.answers provider.now)) lines.now 0 lines.now
        ++ codes "}\n")) }
{
    write_edges(provider, lines, text)?;
    Ok(text.push_str("}\n")?)
}

/// Appends a node for each line, named by its place.
fn write_nodes<P: DependencyProvider>(
    provider: &P,
    lines: &[Line<P::NameId, P::SolvableId, P::Alloc>],
    text: &mut String<P::Alloc>,
) -> Done
    ensures { OnOk result (IsAppended text.old text.new (nodes_text (text_of_line
        (P.universe provider.now) (P.texts provider.now) P.SolvableId.eq (P.answers provider.now)) 0 lines.now)) }
{
    for (place, line) in lines.iter().enumerate() {
        write_line_node(provider, place, line, text)?;
    }
    Ok(())
}

/// Appends the node of a line.
fn write_line_node<P: DependencyProvider>(
    provider: &P,
    place: usize,
    line: &Line<P::NameId, P::SolvableId, P::Alloc>,
    text: &mut String<P::Alloc>,
) -> Done
    ensures { OnOk result (IsAppended text.old text.new (node_text place (text_of_line
        (P.universe provider.now) (P.texts provider.now) P.SolvableId.eq (P.answers provider.now) line.now))) }
{
    let mut label = String::new(*text.allocator());
    write_line(provider, line, &mut label)?;
    write_node(place, label.as_str(), text)
}

/// Appends a node with this label.
fn write_node<A: Allocator + Copy>(place: usize, label: &str, text: &mut String<A>) -> Done
    ensures { OnOk result (IsAppended text.old text.new (node_text place label.now)) }
{
    let begin = format!(in *text.allocator(); "  n{place} [label=\"")?;
    text.push_str(&begin)?;
    write_escaped(label, text)?;
    Ok(text.push_str("\"];\n")?)
}

/// Appends a text as it stands between quotes: with a backslash before each quote and backslash.
fn write_escaped<A: Allocator>(label: &str, text: &mut String<A>) -> Done
    ensures { OnOk result (IsAppended text.old text.new (escaped (chars label.now))) }
{
    for letter in label.chars() {
        text.push_str(before_letter(letter))?;
        text.push(letter)?;
    }
    Ok(())
}

/// What stands before a letter between quotes.
fn before_letter(letter: char) -> &'static str
    ensures { result.now ≡ before_letter letter }
{
    if letter == '"' || letter == '\\' {
        "\\"
    } else {
        ""
    }
}

/// Appends the edges from each line.
fn write_edges<P: DependencyProvider>(
    provider: &P,
    lines: &[Line<P::NameId, P::SolvableId, P::Alloc>],
    text: &mut String<P::Alloc>,
) -> Done
    ensures { OnOk result (IsAppended text.old text.new (edges_text
        (leads_to P.NameId.eq (P.universe provider.now) (P.answers provider.now)) lines.now 0 lines.now)) }
{
    for (place, line) in lines.iter().enumerate() {
        write_edges_from(provider, place, line, lines, text)?;
    }
    Ok(())
}

/// Appends the edges from the line at this place.
fn write_edges_from<P: DependencyProvider>(
    provider: &P,
    from: usize,
    line: &Line<P::NameId, P::SolvableId, P::Alloc>,
    lines: &[Line<P::NameId, P::SolvableId, P::Alloc>],
    text: &mut String<P::Alloc>,
) -> Done
    ensures { OnOk result (IsAppended text.old text.new (edges_from
        (leads_to P.NameId.eq (P.universe provider.now) (P.answers provider.now)) from line.now 0 lines.now)) }
{
    for (place, other) in lines.iter().enumerate() {
        let leads = leads_to(*text.allocator(), provider, line, other)?;
        write_edge(leads, from, place, text)?;
    }
    Ok(())
}

/// Appends an edge between two places, if there is one.
fn write_edge<A: Allocator + Copy>(
    leads: bool,
    from: usize,
    to: usize,
    text: &mut String<A>,
) -> Done
    ensures { OnOk result (IsAppended text.old text.new (edge_text leads from to)) }
{
    if !leads {
        return Ok(());
    }
    let edge = format!(in *text.allocator(); "  n{from} -> n{to};\n")?;
    Ok(text.push_str(&edge)?)
}
