//! A line and a column.

/// A place in a text as people count it: the first line is 1, and the first column of a line is 1.
///
/// A column counts the characters of its line, not its bytes.
#[derive(Clone, Copy, Debug, PartialEq, Eq, Hash)]
pub struct LineColumn {
    pub line: usize,
    pub column: usize,
}
