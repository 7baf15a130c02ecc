//! What is wanted of two texts.

use jb_tree::Map;

/// The response to the operation of a name, or to the only one, with these values of its variables, and with introspection or
/// without it (GraphQL October 2021, section 6.1). The texts of the schema and of the document stand elsewhere.
#[derive(Clone, Copy)]
pub struct Wanted<'w> {
    /// The name of the operation, or none where it is the only one.
    pub operation_name: Option<&'w str>,
    /// The values that its variables are given, which are coerced.
    pub variables: &'w Map,
    /// Whether `__schema` and `__type` are answered.
    pub introspection: bool,
}
