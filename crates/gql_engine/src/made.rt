//! What a response is wanted of: two texts, or what was made of them before.

use crate::meaning::Texts;
use crate::service::Service;

/// The texts of a schema and of a query, or what is at hand of them.
#[derive(Clone, Copy)]
pub(crate) enum Made<'m> {
    /// Nothing: the texts.
    Nothing {
        schema: &'m str,
        query: &'m str,
    },
    /// The schema.
    Schema {
        service: &'m Service,
        query: &'m str,
    },
    /// The schema, and the document against it.
    Both(Texts<'m>),
}
