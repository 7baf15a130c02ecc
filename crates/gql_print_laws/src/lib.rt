//! Laws of printing: what is written of a constant value is read as that value, and what is written of a schema's definitions is read as
//! definitions that say the same.
//!
//! The functions of [`laws`], [`schema_laws`] and [`examples`] do nothing when they run: their contracts are these laws, and what the
//! definitions say of a small schema.
#![tactic(auto)]

pub mod examples;
pub mod laws;
pub mod schema_laws;
