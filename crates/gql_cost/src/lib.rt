//! Responses whose size is bounded before they are made.
//!
//! A short query can ask for a very long answer. The cost of an operation is how many nodes its data can have at most, where no list
//! has more than so many items; a server sets a [`CostLimit`] once, and answers within it: what costs more is refused before it is
//! executed, and with a cause of its own, [`LimitedError::TooCostly`]. So where lists have no more items than the limit says, no
//! response has more nodes than it says (GraphQL October 2021, sections 6 and 7).
//!
//! - [`CostLimit::answer`] asks a service, [`CostLimit::answer_prepared`] a query that was prepared.
//! - [`CostLimit::cost`] is the cost alone, of an operation that is ready to be executed.
//! - [`run_cost`] is a program, over any source and sink.
//!
//! The functions of [`laws`] do nothing when they run: their contracts say that data have at most as many nodes as their cost.
#![tactic(auto)]

mod answering;
pub mod bound_laws;
mod command;
mod cost_limit;
mod costing;
pub mod examples;
pub mod laws;
mod limited_error;
pub mod program;
mod responding;
mod walk;
mod words;

pub use cost_limit::CostLimit;
pub use costing::{CostFault, cost};
pub use gql_collect::Steps;
pub use gql_engine::phases::Wanted;
pub use gql_engine::{
    DataObject, Map, Prepared, Question, Refused, Service, refusal_of_diagnostics,
};
pub use jb_io::{ANSWERED, MISUSED, NO_MEMORY, REFUSED, SINK_FAILED, SOURCE_FAILED, TOO_LONG};
pub use jb_text::Memory;
pub use limited_error::LimitedError;
pub use program::run_cost;
