//! What a parse is given and what it gives.

use crate::{CstError, Tree};
use std::alloc::AllocError;

/// Out of memory: the one error of the calls that allocate.
pub type Memory = AllocError;

/// How much of a text a parse reads.
#[derive(Clone, Copy, Debug)]
pub struct Limits {
    /// The greatest level of nested selection sets, object values, list values and list types.
    pub recursion: usize,
    /// The greatest number of tokens, those that the grammar ignores included. `None` sets no limit.
    pub tokens: Option<usize>,
}

/// What a parse gives.
#[derive(Debug, Drop)]
pub struct Parsed {
    /// The tree of all that was read before the error, or of the whole text.
    pub tree: Tree,
    /// What ended the reading before the text's end, or there.
    pub error: Option<CstError>,
    /// The greatest level that was reached, one that passes the limit included.
    pub recursion_reached: usize,
    /// How many tokens were read, one that was refused included.
    pub tokens_reached: usize,
}

/// What a parse tells without giving a tree.
#[derive(Debug, Drop)]
pub struct Checked {
    /// What ended the reading before the text's end, or there.
    pub error: Option<CstError>,
    /// The greatest level that was reached, one that passes the limit included.
    pub recursion_reached: usize,
    /// How many tokens were read, one that was refused included.
    pub tokens_reached: usize,
}
