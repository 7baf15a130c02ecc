//! Schemas read back from introspection.
//!
//! A server tells its schema in answer to [`FULL_QUERY`] (GraphQL October 2021, section 4). [`client_schema`] reads such an answer,
//! writes the schema as a text (section 3), and reads that text as any schema is read. It also says whether the schema of the text
//! gives the answer's data again, when it is introspected. [`run_client_schema`] is the program that does this, over any source and
//! sink.
//!
//! What is not read is told by its cause: bytes that are no JSON text, the first part of the answer that is not what the query asks for,
//! or what is wrong with the schema.
//!
//! ```
//! let made = client_schema(alloc, &answer)?;
//! // made.text is "schema { query: Query }\ntype Query { f: Int }\n", made.same is true
//! ```
#![tactic(auto)]

mod again;
mod answer;
mod constant;
mod deprecation;
mod full_query;
mod kind;
mod location;
mod making;
mod path;
pub mod program;
mod read_directive;
mod read_enum_value;
mod read_field;
mod read_input;
mod read_schema;
mod read_type;
mod reading;
mod reference;
mod reply;
mod reports;

pub use full_query::FULL_QUERY;
pub use jb_tree::Memory;
pub use making::{ClientFault, ClientSchema, client_schema};
pub use program::run_client_schema;
