//! A checker of responses: whether what someone answered to a GraphQL request is explained by the schema, the request and the
//! resolvers (GraphQL October 2021, sections 6.4.4 and 7.1).
//!
//! A response is explained where each of its errors is a true fault of its place, and its data are as they were resolved, but for
//! nulls that listed errors bring. So a team can hold another server's responses against its own resolvers, or its own server's in
//! its tests, whatever that server runs on.
//!
//! - [`check_prepared`] gives the [`Verdict`] on a response to what is wanted of a query that was read once.
//! - [`check_response`] gives it of an operation whose variables are coerced.
//! - [`run_checker`] is a program, over any source and sink.
//!
//! The functions of [`laws`] do nothing when they run: their contracts say that what this engine answers is explained.
#![tactic(auto)]

mod checking;
mod command;
pub mod laws;
pub mod program;
mod verdict_line;

pub use checking::check_prepared;
pub use gql_response_check::{Memory, Verdict, check_response};
pub use jb_io::{ANSWERED, MISUSED, NO_MEMORY, REFUSED, SINK_FAILED, SOURCE_FAILED, TOO_LONG};
pub use program::run_checker;
