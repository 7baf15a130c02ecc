//! Introspection: the objects of the library's own that tell of a schema (GraphQL October 2021, section 4).
//!
//! [`MetaObject`] is an [`ObjectValue`](gql_resolvers::ObjectValue) of seven kinds. What each of its fields gives stands in
//! a table, a file a kind in `specs/` and one of the same name here. [`schema_field`] and [`type_field`] are the fields
//! `__schema` and `__type` of the root type of queries, from which all these objects come.
#![tactic(auto)]

mod asked;
mod deprecation;
mod directive_def;
mod enum_value_def;
mod field_def;
mod input_value_def;
mod items;
pub mod laws;
mod leaves;
mod meta_object;
mod named_types;
mod root_fields;
mod schema_meta;
mod shown;
mod type_def;
mod wrapped;

pub use jb_text::Memory;
pub use meta_object::MetaObject;
pub use root_fields::{schema_field, type_field};
