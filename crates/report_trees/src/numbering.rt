//! Which rows refer to which, and the numbers of those to which others refer.
ghost use Rattle.std.specs.Prelude.{◌≡◌, ◌<◌, ◌^◌, IfOk};
ghost use Rattle.report_trees.specs.Growing.{lists};
ghost use Rattle.report_trees.specs.TreeTexts.{is_line, is_referred_to, next_number, number_if, numbered, refers};

use crate::edges::has_edge;
use crate::row::{NumberedRow, Row};
use std::alloc::{AllocError, Allocator};

/// The rows, with the numbers of those to which others refer.
pub(crate) fn numbered<A: Allocator + Copy>(
    alloc: A,
    edges: &[Vec<bool, A>],
    rows: &[Row],
) -> Result<Vec<NumberedRow, A>, AllocError>
    ensures { IfOk result (λ all. all.items ≡ numbered (lists edges.now) rows.now 1 rows.now) }
{
    let mut all = Vec::new(alloc);
    let mut next = 1;
    for row in rows {
        let is = is_referred_to(edges, rows, *row);
        all.push(NumberedRow {
            row: *row,
            number: number_if(is, next),
        })?;
        next = next_number(is, next);
    }
    Ok(all)
}

/// Whether a row of these refers to it.
fn is_referred_to<A: Allocator>(edges: &[Vec<bool, A>], rows: &[Row], to: Row) -> bool
    ensures { result ≡ is_referred_to (lists edges.now) rows.now to }
{
    for from in rows {
        if refers(edges, *from, to) {
            return true;
        }
    }
    false
}

/// Whether a row refers to another one: it leads there, and the other one doesn't stand right below it.
pub(crate) fn refers<A: Allocator>(edges: &[Vec<bool, A>], from: Row, to: Row) -> bool
    ensures { result ≡ refers (lists edges.now) from to }
{
    has_edge(edges, from.line, to.line) && !is_line(to.parent, from.line)
}

/// Whether it is this line.
fn is_line(other: Option<usize>, line: usize) -> bool
    ensures { result ≡ is_line other line }
{
    match other {
        Some(other) => other == line,
        None => false,
    }
}

/// A number, if there is one.
fn number_if(is: bool, next: usize) -> Option<usize>
    ensures { result ≡ number_if is next }
{
    if is { Some(next) } else { None }
}

/// The number behind it.
fn next_number(is: bool, next: usize) -> usize
    requires { next < 2 ^ 63 }
    ensures { result ≡ next_number is next }
{
    if is { next + 1 } else { next }
}
