//! The program that tells whether texts are sentences of GraphQL's grammar, over any source and sink.
#![tactic(auto)]

pub mod program;
mod reply;
mod start;

pub use gql_cst::Memory;
pub use program::run;
pub use start::Start;
