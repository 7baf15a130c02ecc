//! Pairs of fields.

/// Two fields by their numbers, the lower one first: are they compared in full, or by type alone?
#[derive(Clone, Copy, Debug, PartialEq, Eq, Hash)]
pub struct Pair {
    pub first: usize,
    pub second: usize,
    pub in_full: bool,
}
