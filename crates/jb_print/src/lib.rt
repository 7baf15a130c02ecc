//! Printing JSON values (RFC 8259): [`to_bytes`] and [`to_text`] without any white space, [`to_pretty`] over several
//! lines.
//!
//! The bytes are exactly those of the definitions in `specs/`: `compact`, `pretty`, and `quoted` for a string.
#![tactic(auto)]

mod compact;
mod pretty;
mod print;
mod text;

pub use jb_tree::Memory;
pub use print::{append_object, append_string, append_value, to_bytes, to_pretty, to_text};
