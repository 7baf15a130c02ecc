//! Values of one's own types as JSON values, and back.
//!
//! A type that is [`ToValue`] says which value stands for it, one that is [`FromValue`] which values it reads, and
//! one that is [`MapKey`] which texts are its keys. Each refusal but that of memory is a [`ShapeError`], and comes
//! exactly where its cause holds, for the first part that does not fit.
#![tactic(auto)]

pub mod laws;
mod lists;
mod members;
mod numeral;
mod scalars;
mod shape_error;
mod shapes;
mod signed;
mod text_keys;
mod unsigned;
mod variants;
mod whole_keys;

pub use jb_tree::Memory;
pub use members::Members;
pub use shape_error::ShapeError;
pub use shapes::{FromValue, MapKey, ToValue, from_value, to_value};
pub use variants::{member, read_members, read_variant};
