//! Schemas: the types and tables that they are made of, how they are built, and the built-in definitions that each has.
//!
//! A [`SchemaBuilder`] takes documents and builds a [`Schema`] of all their definitions and extensions and of the built-in
//! ones (GraphQL October 2021, section 3). Where something is wrong it answers the schema without that, and a list of each
//! fault with its place.
//!
//! The definitions that each schema has without saying so (sections 3.5, 3.13 and 4.2) are made of rows, which say where in
//! [`BUILT_IN_TEXT`] each part of them stands.
#![tactic(auto)]

mod built_in_definitions;
mod built_in_field_rows;
mod built_in_fields;
mod built_in_making;
mod built_in_row;
mod built_in_rows;
mod built_in_schema;
mod built_in_table;
mod built_in_text;
mod judged;
mod schema_builder;

pub use built_in_text::{BUILT_IN_PATH, BUILT_IN_TEXT};
pub use gql_schema_types::{
    EnumType, ExtendedType, Implementers, ImplementersMap, InputObjectType, InterfaceType,
    MetaFields, Named, ObjectType, ScalarType, Schema, SchemaDefinition, Table, UnionType,
};
pub use jb_text::Memory;
pub use schema_builder::SchemaBuilder;
