//! Reading JSON texts (RFC 8259, whole numbers only) into [`jb_tree::Value`].
//!
//! The reader goes from left to right and stops at the first fault. For each function a definition in `specs/` says,
//! for every list of bytes, what is read and what is left, or which fault stands where. The function is proved to give
//! exactly that, or to be out of memory. A string without an escape shares its bytes with the text.
#![tactic(auto)]

mod ascii;
mod cursor;
mod document;
mod escape;
mod fault;
pub mod laws;
mod number;
mod text;
mod token;
mod value;

pub use document::{from_bytes, from_bytes_whole, from_str};
pub use fault::{FaultKind, ReadFault};
pub use jb_tree::Memory;
