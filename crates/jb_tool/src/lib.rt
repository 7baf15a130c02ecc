//! The program that checks and prints JSON texts, over any source and sink.
#![tactic(auto)]

pub mod program;
mod reply;
mod style;

pub use jb_tree::Memory;
pub use program::{run, run_in_memory};
pub use style::Style;
