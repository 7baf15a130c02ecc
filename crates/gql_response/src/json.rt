//! The names of JSON values in responses.

/// An object of JSON, as the data of a response.
pub type JsonMap = jb_tree::Map;

/// A JSON value.
pub type JsonValue = jb_tree::Value;
