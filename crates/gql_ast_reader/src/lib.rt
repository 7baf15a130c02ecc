//! Syntax trees made in one pass: as a parser reads a text, with no concrete tree between.
//!
//! [`read_definitions`] drives an output of the parser of `gql_cst`. For each node that is open it keeps a row: of each thing that the
//! conversion of a concrete tree ([`Convert`](gql_ast_base::Convert)) would look for among the node's children, what it would
//! find there. Where the node ends, what its row keeps makes what the node stands for, and that comes in the row around it. So
//! reading is a fold over the tree that is not made, and its definitions are those that the conversion gives of that tree.
//!
//! ```
//! let read = read_definitions(Source::new(alloc, "{ name }", file_id), &limits)?;
//! // read.error is None, and read.definitions has one operation
//! ```
#![tactic(auto)]

mod deliver;
mod found;
mod handing;
mod make_directive;
mod make_extension;
mod make_field;
mod make_operation;
mod make_root_operation;
mod make_schema;
mod make_selection;
mod make_type;
mod make_type_definition;
mod make_type_extension;
mod make_value;
mod make_variable;
mod maker;
mod open_row;
mod open_rows;
mod own_parts;
mod part;
mod place;
mod read;
mod row;
mod told;
mod word;

pub use read::{Read, read_definitions};
