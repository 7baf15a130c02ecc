//! Responses to GraphQL requests, and their errors: printed as JSON, and read back; and why a request gets none.
//!
//! A response prints `errors` where there are any, and then `data` (GraphQL October 2021, section 7.1). Printing goes
//! straight to the text, and the text is exactly the compact JSON of the value that `specs/` says.
#![tactic(auto)]

mod error_parts;
mod execution_response;
mod fault;
mod graphql_error;
mod json;
mod location;
mod parts;
mod path;
mod printed;
mod request_error;

pub use execution_response::ExecutionResponse;
pub use fault::ResponseFault;
pub use graphql_error::GraphQLError;
pub use jb_text::Memory;
pub use json::{JsonMap, JsonValue};
pub use path::ResponseDataPathSegment;
pub use request_error::RequestError;
