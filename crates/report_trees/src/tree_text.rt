//! The text of a forest.
ghost use Rattle.std.specs.Prelude.{◌≡◌, ℕ, false, List, ◌++◌, map, OnOk};
ghost use Rattle.std.specs.String.{string_bytes};
ghost use Rattle.report_trees.specs.Growing.{lists};
ghost use Rattle.report_trees.specs.TreeTexts.{IsTree, before_reference, indent, text_at, text_of_all, text_of_mark};
ghost use Rattle.report_trees.specs.TreeTexts.{text_of_number, text_of_reference, text_of_references, text_of_row};

use crate::growing::grown;
use crate::numbering::{numbered, refers};
use crate::row::{NumberedRow, Row};
use std::alloc::{AllocError, Allocator};

type Done = Result<(), AllocError>;

/// Appends a forest of the lines that lead to each other so, and have these texts.
pub(crate) fn write_forest<A: Allocator + Copy>(
    edges: &[Vec<bool, A>],
    texts: &[String<A>],
    text: &mut String<A>,
) -> Done
    ensures { OnOk result ((added : List ℕ) × (string_bytes text.new ≡ string_bytes text.old ++ added)
        × IsTree (lists edges.now) (map string_bytes texts.now) added) }
{
    let alloc = *text.allocator();
    let rows = grown(alloc, edges)?;
    let all = numbered(alloc, edges, &rows)?;
    write_rows(edges, texts, &all, text)
}

/// Appends the rows.
fn write_rows<A: Allocator + Copy>(
    edges: &[Vec<bool, A>],
    texts: &[String<A>],
    rows: &[NumberedRow],
    text: &mut String<A>,
) -> Done
    ensures { OnOk result (string_bytes text.new
        ≡ string_bytes text.old ++ text_of_all (lists edges.now) (map string_bytes texts.now) rows.now) }
{
    for row in rows {
        write_row(edges, texts, rows, *row, text)?;
    }
    Ok(())
}

/// Appends a row, as a line of text among all rows.
fn write_row<A: Allocator + Copy>(
    edges: &[Vec<bool, A>],
    texts: &[String<A>],
    all: &[NumberedRow],
    row: NumberedRow,
    text: &mut String<A>,
) -> Done
    ensures { OnOk result (string_bytes text.new
        ≡ string_bytes text.old ++ text_of_row (lists edges.now) (map string_bytes texts.now) all.now row) }
{
    write_indent(row.row.depth, text)?;
    write_line(texts, row.row.line, text)?;
    write_mark(row.number, text)?;
    write_references(edges, row.row, all, text)?;
    text.push_str("\n")
}

/// Appends two blanks for each step.
#[tactic(auto, using(crate::proofs::TreeLemmas::indent_more))]
fn write_indent<A: Allocator>(depth: usize, text: &mut String<A>) -> Done
    ensures { OnOk result (string_bytes text.new ≡ string_bytes text.old ++ indent depth) }
{
    let mut left = depth;
    while left > 0 {
        text.push_str("  ")?;
        left -= 1;
    }
    Ok(())
}

/// Appends the text of a line.
fn write_line<A: Allocator>(texts: &[String<A>], line: usize, text: &mut String<A>) -> Done
    ensures { OnOk result (string_bytes text.new
        ≡ string_bytes text.old ++ text_at (map string_bytes texts.now) line) }
{
    match texts.get(line) {
        Some(said) => text.push_str(said.as_str()),
        None => Ok(()),
    }
}

/// Appends a row's number, behind its line.
fn write_mark<A: Allocator + Copy>(number: Option<usize>, text: &mut String<A>) -> Done
    ensures { OnOk result (string_bytes text.new ≡ string_bytes text.old ++ text_of_mark number) }
{
    let Some(number) = number else {
        return Ok(());
    };
    let mark = format!(in *text.allocator(); " ({number})")?;
    text.push_str(&mark)
}

/// Appends the numbers of those rows to which a row refers.
fn write_references<A: Allocator + Copy>(
    edges: &[Vec<bool, A>],
    from: Row,
    rows: &[NumberedRow],
    text: &mut String<A>,
) -> Done
    ensures { OnOk result (string_bytes text.new
        ≡ string_bytes text.old ++ text_of_references (lists edges.now) from false rows.now) }
{
    let mut begun = false;
    for to in rows {
        let is = refers(edges, from, to.row);
        write_reference(is, begun, to.number, text)?;
        begun = begun || is;
    }
    Ok(())
}

/// Appends a reference, if there is one.
fn write_reference<A: Allocator + Copy>(
    is: bool,
    begun: bool,
    number: Option<usize>,
    text: &mut String<A>,
) -> Done
    ensures { OnOk result (string_bytes text.new ≡ string_bytes text.old ++ text_of_reference is begun number) }
{
    if !is {
        return Ok(());
    }
    text.push_str(before_reference(begun))?;
    write_number(number, text)
}

/// What stands before a row's first reference, and before a further one.
fn before_reference(begun: bool) -> &'static str
    ensures { result.now ≡ before_reference begun }
{
    if begun { ", " } else { "; see " }
}

fn write_number<A: Allocator + Copy>(number: Option<usize>, text: &mut String<A>) -> Done
    ensures { OnOk result (string_bytes text.new ≡ string_bytes text.old ++ text_of_number number) }
{
    let Some(number) = number else {
        return Ok(());
    };
    let digits = format!(in *text.allocator(); "{number}")?;
    text.push_str(&digits)
}
