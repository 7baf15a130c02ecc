//! What a call for an answer is given, but for its texts and its resolver.

use bytes::Bytes;

/// The name of the operation, the text of the variables, and whether introspection is on.
#[derive(Clone, Copy)]
pub(crate) struct Call<'c> {
    pub(crate) operation_name: Option<&'c str>,
    pub(crate) variables: &'c Bytes,
    pub(crate) introspection: bool,
}
