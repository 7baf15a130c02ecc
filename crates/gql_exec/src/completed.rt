//! What is made of a place.

/// What is made of a place (GraphQL October 2021, section 6.4.4).
#[derive(Drop)]
pub(crate) enum Completed<V> {
    /// A value, null among them.
    Value(V),
    /// The place is left out.
    LeftOut,
    /// A null that the place's type rules out, which is passed on to the place around it.
    NullPasses,
}
