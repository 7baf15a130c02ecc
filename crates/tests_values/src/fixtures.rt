//! What several tests are made of, and how they show a value.

use jb_print::to_text;
use jb_tree::{ByteString, Memory, Text, Value};
use std::alloc::Global;

/// The JSON text of a value.
pub(crate) fn shown(alloc: Global, value: &Value) -> Result<Text, Memory> {
    to_text(alloc, value)
}

/// The key of a member.
pub(crate) fn key(alloc: Global, text: &str) -> Result<ByteString, Memory> {
    ByteString::from_text(alloc, text)
}
