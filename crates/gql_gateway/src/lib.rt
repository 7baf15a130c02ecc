//! A gateway: what a request asks of its schema is answered here, and the rest at another place.
//!
//! The root fields named `__typename`, `__schema` and `__type` ask for the schema alone (GraphQL October 2021, section 4), so whoever
//! has its text can answer them. [`gateway_answer`] does so, has a [`Remote`] execute what is left of the operation, and joins both
//! responses. A [`LocalRemote`] executes on a resolver; the response is then the one that [`answer`](gql_engine::answer) gives with
//! introspection on, where that has data. [`run_gateway`] is a program, over any source and sink.
//!
//! The pieces are here too, for whoever wants something else in between: [`divide`] does it all with an operation of a document,
//! [`concrete_part`] is what is left of one, [`root_keys`] tells for each response key where it is answered, and [`join`] joins two
//! responses.
//!
//! The functions of [`laws`] do nothing when they run: their contracts say that a gateway over a [`LocalRemote`] changes nothing.
#![tactic(auto)]

mod answering;
mod command;
mod dividing;
mod gateway_error;
mod joining;
pub mod laws;
mod meta_name;
mod part;
pub mod part_laws;
pub mod program;
mod remote;
mod responding;
mod root_key;
mod side;

pub use answering::gateway_answer;
pub use dividing::{DivideFault, Division, MOST_SELECTIONS, divide};
pub use gateway_error::GatewayError;
pub use gql_engine::executable::Operation;
pub use gql_engine::response::JsonMap;
pub use gql_engine::{
    AnswerError, DataObject, ExecutableDocument, ExecutionResponse, Schema, Valid,
};
pub use jb_io::{ANSWERED, MISUSED, NO_MEMORY, REFUSED, SINK_FAILED, SOURCE_FAILED, TOO_LONG};
pub use joining::join;
pub use part::concrete_part;
pub use program::run_gateway;
pub use remote::{LocalRemote, Remote, RemoteError};
pub use root_key::{RootKey, root_keys};
