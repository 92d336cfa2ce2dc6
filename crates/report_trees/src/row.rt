//! Rows of a tree.

/// A line of a report, and where it stands in a tree.
#[derive(Clone, Copy)]
pub(crate) struct Row {
    /// The line, by its place in the report.
    pub(crate) line: usize,
    /// How deep it stands: 0 for a root.
    pub(crate) depth: usize,
    /// The line right below which it stands.
    pub(crate) parent: Option<usize>,
}

/// A row, and its number, if others refer to it.
#[derive(Clone, Copy)]
pub(crate) struct NumberedRow {
    pub(crate) row: Row,
    pub(crate) number: Option<usize>,
}
