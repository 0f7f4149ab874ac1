//! Rows of a tree.

/// A row, by its position in the list of all rows, and how many rows stand over it in the tree.
#[derive(Clone, Copy, Debug, PartialEq, Eq)]
pub struct Branch {
    pub row: usize,
    pub depth: usize,
}
