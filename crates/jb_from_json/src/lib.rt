//! Values made of those of the crate `serde_json`.
//!
//! [`FromJson`] gives a [`Value`](jb_tree::Value) the call `from_json`. It stands in a crate of its own, so that no other crate is
//! proved over `serde_json`.
#![tactic(auto)]

mod from_json;

pub use from_json::{FromJson, FromJsonFault};
pub use jb_text::Memory;
