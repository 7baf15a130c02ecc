//! Execution of requests (GraphQL October 2021, section 6).
//!
//! An [`Execution`] is of one document on one schema. It is told which operation is meant and what its variables are, and
//! then [`Execution::execute_sync`] asks a resolver for each field that the operation selects, completes what it is given
//! by the type of the field, and lists an error for each fault.
//!
//! With introspection on (section 4), a user's objects and those of introspection are objects of one kind: [`Introspected`] is an
//! [`ObjectValue`](gql_resolvers::ObjectValue) over those of a user. On the root type of queries it answers `__schema` and
//! `__type`, and any other field as the object that it stands for.
#![tactic(auto)]

mod asking;
mod completed;
mod executed;
mod executing;
mod execution;
mod faults;
pub mod field_laws;
mod ground;
mod introspected;
pub mod laws;
mod output;
mod partial;
mod path;
mod place;
mod running;
mod standing;
mod text_output;
mod tree_output;
mod written_response;

pub use asking::{Asked, is_introspection};
pub use executing::Executing;
pub use execution::Execution;
pub use gql_collect::{
    Grouped, Pieces, Steps, check_max_depth, coerce_variable_values, collect_fields,
};
pub use gql_introspection::MetaObject;
pub use gql_resolvers::{
    FieldError, ObjectValue, RequestInfo, ResolveError, ResolveInfo, ResolvedValue,
};
pub use introspected::Introspected;
pub use jb_text::Memory;
pub use output::Output;
pub use partial::partial_execute;
pub use path::{Path, Step};
pub use place::{Place, item_of};
pub use text_output::{OpenList, OpenObject, TextOutput};
pub use tree_output::TreeOutput;
pub use written_response::WrittenResponse;
