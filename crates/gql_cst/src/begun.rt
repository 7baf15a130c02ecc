//! Where nodes begin.

/// A node that began.
#[derive(Clone, Copy, Debug)]
pub struct Begun {
    /// What the output marked there.
    pub mark: usize,
    /// Where the first token of the node begins in the text, which is not one that the grammar ignores.
    pub place: usize,
}
