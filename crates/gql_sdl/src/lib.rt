//! Schemas as texts of the schema definition language (GraphQL October 2021, section 3).
//!
//! A [`ShownSchema`] is what introspection shows of a schema (section 4): its root types, its types and its directives, with their
//! descriptions, defaults and deprecations, and without the places that they were read from. [`print_schema`] writes the definitions
//! that say it, each in a line of its own; [`print_type_definition`] and [`print_directive_definition`] write one of them.
//!
//! Directives that are applied to definitions are no part of what introspection shows, but for three: `@deprecated`, `@specifiedBy` and
//! `@oneOf`.
//!
//! ```
//! let text = print_schema(alloc, &shown)?;
//! // "schema { query: Query }\ntype Query { f: Int }\n"
//! ```
#![tactic(auto)]

mod default_value;
mod deprecation;
mod description;
mod directive;
mod enum_value;
mod field;
mod input;
mod printed;
mod references;
mod schema;
mod shown;
mod text;
mod type_definition;

pub use directive::print_directive_definition;
pub use jb_text::Memory;
pub use schema::print_schema;
pub use shown::{
    Deprecation, ShownDirective, ShownEnumValue, ShownField, ShownInput, ShownSchema, ShownType,
    TypeKind,
};
pub use type_definition::print_type_definition;
