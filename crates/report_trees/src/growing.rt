//! Lines grow together to trees.
ghost use Rattle.std.specs.Prelude.{◌≡◌, ◌≢◌, ℕ, ◌+◌, ◌≤◌, ◌<◌, ◌^◌, true, [], ◌∷◌, flat_map, length, map};
ghost use Rattle.std.specs.Prelude.{slice_index_or, IfOk, OnOk, MatchOption};
ghost use Rattle.report_trees.specs.Forests.{has_edge};
ghost use Rattle.report_trees.specs.Growing.{AreRows, IsGrowing, IsShallow, LeadNotTo, LeadsFrom};
ghost use Rattle.report_trees.specs.Growing.{grafted, lists, moved_below, single_trees};
ghost use Rattle.report_trees.specs.declared.row.Row.{Row};

use crate::edges::has_edge;
use crate::row::Row;
use std::alloc::{AllocError, Allocator};
use std::mem;

/// A row of a tree.
#[derive(Clone, Copy)]
struct Spot {
    /// The tree, by the line of its root.
    tree: usize,
    /// The row, by its place in the tree.
    row: usize,
}

/// The rows of a forest of the lines, which lead to each other so. A root is led to only by lines of its own tree.
pub(crate) fn grown<A: Allocator + Copy>(
    alloc: A,
    edges: &[Vec<bool, A>],
) -> Result<Vec<Row, A>, AllocError>
    ensures { IfOk result (λ rows. AreRows (has_edge (lists edges.now)) (length edges.now) rows.items) }
{
    let mut trees = single_trees(alloc, edges.len())?;
    for line in (0..edges.len()).rev() {
        attach(alloc, edges, &mut trees, line)?;
    }
    joined(alloc, &trees)
}

/// A tree for each line.
fn single_trees<A: Allocator + Copy>(
    alloc: A,
    count: usize,
) -> Result<Vec<Vec<Row, A>, A>, AllocError>
    ensures { IfOk result (λ trees. lists trees.items ≡ single_trees count) }
{
    let mut trees = Vec::new(alloc);
    for line in 0..count {
        let mut tree = Vec::new(alloc);
        tree.push(Row {
            line,
            depth: 0,
            parent: None,
        })?;
        trees.push(tree)?;
    }
    Ok(trees)
}

/// The rows of all trees.
fn joined<A: Allocator + Copy>(alloc: A, trees: &[Vec<Row, A>]) -> Result<Vec<Row, A>, AllocError>
    ensures { IfOk result (λ rows. rows.items ≡ flat_map (λ tree. tree.items) trees.now) }
{
    let mut rows = Vec::new(alloc);
    for tree in trees {
        rows.extend_from_slice(tree)?;
    }
    Ok(rows)
}

/// Puts the tree of a line right below the first row of another tree that leads to it, if there is one.
fn attach<A: Allocator + Copy>(
    alloc: A,
    edges: &[Vec<bool, A>],
    trees: &mut Vec<Vec<Row, A>, A>,
    line: usize,
) -> Result<(), AllocError>
    requires within { line < length trees.old.items }
    requires growing { IsGrowing (has_edge (lists edges.now)) (line + 1) (lists trees.old.items) }
    ensures growing { OnOk result (IsGrowing (has_edge (lists edges.now)) line (lists trees.new.items)) }
    ensures same_length { OnOk result (length trees.new.items ≡ length trees.old.items) }
{
    let Some(spot) = find(edges, trees, line) else {
        return Ok(());
    };
    let tree = mem::replace(&mut trees[line], Vec::new(alloc));
    let rows = grafted(alloc, &trees[spot.tree], spot.row, &tree)?;
    trees[spot.tree] = rows;
    Ok(())
}

/// The first row of another tree that leads to the line.
fn find<A: Allocator>(edges: &[Vec<bool, A>], trees: &[Vec<Row, A>], line: usize) -> Option<Spot>
    ensures { let leads = has_edge (lists edges.now) in MatchOption result
        ((tree : ℕ) → tree ≢ line → LeadNotTo leads line (slice_index_or (lists trees.now) tree []))
        (LeadsFrom leads line (lists trees.now)) }
{
    for (tree, rows) in trees.iter().enumerate() {
        if tree != line {
            if let Some(row) = find_row(edges, rows, line) {
                return Some(Spot { tree, row });
            }
        }
    }
    None
}

/// The first row that leads to the line, by its place.
fn find_row<A: Allocator>(edges: &[Vec<bool, A>], rows: &[Row], line: usize) -> Option<usize>
    ensures { let leads = has_edge (lists edges.now) in MatchOption result
        (LeadNotTo leads line rows.now)
        (λ place. (place < length rows.now)
        × ((row : Row) → leads (slice_index_or rows.now place row).line line ≡ true)) }
{
    rows.iter().position(|row| has_edge(edges, row.line, line))
}

/// The rows of a tree with a branch right below the row at this place.
fn grafted<A: Allocator + Copy>(
    alloc: A,
    tree: &[Row],
    place: usize,
    branch: &[Row],
) -> Result<Vec<Row, A>, AllocError>
    requires within { place < length tree.now }
    requires shallow_tree { IsShallow tree.now }
    requires shallow_branch { IsShallow branch.now }
    ensures { IfOk result (λ rows. rows.items ≡ grafted tree.now place branch.now) }
{
    let parent = tree[place];
    let (above, below) = tree.split_at(place + 1);
    let mut rows = Vec::new(alloc);
    rows.extend_from_slice(above)?;
    for row in branch {
        rows.push(moved_below(parent, *row))?;
    }
    rows.extend_from_slice(below)?;
    Ok(rows)
}

/// The row, when its tree comes right below this one.
fn moved_below(above: Row, row: Row) -> Row
    requires { row.depth + above.depth + 1 < 2 ^ 64 }
    ensures { result ≡ moved_below above row }
{
    Row {
        line: row.line,
        depth: row.depth + above.depth + 1,
        parent: row.parent.or(Some(above.line)),
    }
}
