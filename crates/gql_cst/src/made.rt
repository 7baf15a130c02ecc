//! What reading a text with an output gives.

use crate::CstError;

/// What a text was read to, by an output.
#[derive(Drop)]
pub struct Made<O: Drop> {
    /// The output, with all that was read before the error, or with the whole text.
    pub out: O,
    /// What ended the reading before the text's end, or there.
    pub error: Option<CstError>,
    /// The greatest level that was reached, one that passes the limit included.
    pub recursion_reached: usize,
    /// How many tokens were read, one that was refused included.
    pub tokens_reached: usize,
}
