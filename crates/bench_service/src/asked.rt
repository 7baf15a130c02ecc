//! The request that is answered.

use bytes::Bytes;
use jb_tree::{Map, Value};

/// What a request asks, as calls take it.
#[derive(Clone, Copy)]
pub struct Asked<'r> {
    pub schema: &'r str,
    pub query: &'r str,
    /// The JSON text of the object of the variables.
    pub variables: &'r Bytes,
    pub data: &'r Map,
    pub introspection: bool,
}

/// The member of this name, if it is a text. No clause says which: the stored output shows it.
pub fn text<'r>(request: &'r Map, name: &str) -> Option<&'r str> {
    match request.get(name) {
        Some(Value::String(text)) => Some(text.as_str()),
        _ => None,
    }
}

/// The member of this name, if it is an object. No clause says which: the stored output shows it.
pub fn object<'r>(request: &'r Map, name: &str) -> Option<&'r Map> {
    match request.get(name) {
        Some(value) => value.as_object(),
        None => None,
    }
}

/// Whether introspection is on. No clause says when.
pub fn introspection(request: &Map) -> bool {
    matches!(request.get("introspection"), Some(Value::Bool(true)))
}
