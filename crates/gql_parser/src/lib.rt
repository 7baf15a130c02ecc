//! Parsers: GraphQL texts in, documents, schemas and types out; and texts as schemas and documents whose rules all hold.
//!
//! A [`Parser`] reads the text of a file within limits on its nesting and its tokens. It gives what the text stands for
//! (GraphQL October 2021, section 2 and, for definitions of types, section 3), or diagnostics with their places. Afterwards
//! it tells how far it read.
//!
//! Work is done in phases, and the first that finds something ends it. First the text is read: one fault of the syntax, or
//! one limit that is passed, is told. Then, where a schema, an executable document or a set of fields is asked for, it is
//! built, and every fault of the build is told. Of these calls `parse_mixed_validate` alone checks rules.
//!
//! ```
//! let mut parser = Parser::new().token_limit(1_000);
//! let mut ids = FileIds::new();
//! let schema = parser.parse_schema(alloc, "type Query { name: String }", "schema.graphql", &mut ids)?;
//! // schema.get_object("Query") is Some, parser.tokens_reached() is 12
//! ```
//!
//! [`schema_of_text`] reads the text of a schema, builds it with the built-in definitions and checks the rules on schemas
//! (sections 2 and 3). [`document_of_text`] reads the text of a document, builds it against a schema and checks the rules on
//! documents (sections 2 and 5). What a text means, and what is wrong with one that means nothing, are two definitions, and each
//! call gives exactly that.
//!
//! The functions of [`laws`] do nothing when they run. By their contracts a text means one schema, and against a schema one
//! document, at most, and none where something is wrong with it; and a document that a text means can be executed, since no
//! fragment leads back to itself and each operation has the root type of its kind.
//!
//! [`Parser::parse_mixed_validate`] reads a text that is a schema and a document in one, builds both and checks the rules on both
//! (sections 2, 3 and 5). The first phase that finds something ends it: the reading; both builds; the rules on schemas; the rules
//! on documents.
//!
//! ```
//! let mut parser = Parser::new();
//! let mut ids = FileIds::new();
//! let text = "type Query { name: String } query { name }";
//! let (schema, document) = parser.parse_mixed_validate(alloc, text, "mixed.graphql", &mut ids)?;
//! // schema.as_ref().get_object("Query") is Some
//! ```
#![tactic(auto)]

mod document_reading;
mod file;
mod file_read;
pub mod laws;
mod mixed_both;
mod mixed_built;
mod mixed_ruled;
mod parse_ast;
mod parse_executable;
mod parse_field_set;
mod parse_mixed;
mod parse_schema;
mod parse_type;
mod parser;
mod schema_reading;
mod stopped;

pub use document_reading::{document_of_text, document_of_text_with};
pub use jb_text::Memory;
pub use parser::Parser;
pub use schema_reading::schema_of_text;
