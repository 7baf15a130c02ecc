//! The objects of the tests.

/// What type an object is of.
#[derive(Clone, Copy)]
pub enum Kind {
    Other,
    Leaf,
    /// A type that lacks a field of its interface.
    Narrow,
    /// A type that is an interface.
    Node,
    /// A type that no schema here defines.
    Stranger,
}

/// An object each of whose fields resolves to the same.
#[derive(Clone, Copy)]
pub enum Sample {
    Null,
    Truth,
    Number(u64),
    Word,
    /// An object of this type, each of whose fields is a number.
    Of(Kind),
    /// An object that holds such an object.
    Holds(Kind),
    /// An object that holds a curious one.
    Asks,
    Empty,
    /// A list whose second item is skipped, and whose third is a text.
    Gaps,
    /// A list whose second item fails.
    Breaks,
    /// A list of null, an object and an empty list.
    Mixed,
    Skips,
    Fails,
    Unknowing,
    /// An object that runs out of memory.
    Forgets,
    /// An object of the type `Leaf` that answers only where it is told what it should be.
    Curious,
}
