//! What the rules of GraphQL schemas and documents share: how a broken rule is told, which names are defined, what a type
//! refers to, what stands behind another of its name, and how things in a list are found by their names; and the rules on values,
//! arguments and directives, which hold in both alike (GraphQL October 2021, sections 5.4, 5.6 and 5.7).
//!
//! A rule's definition is a list of diagnostics, and each function here adds exactly the ones of its definition last to a
//! list. A literal and each value inside it is a node with the type that is wanted there, if one is known, and each rule on
//! literals is a list of diagnostics of one such node. A rule has a file of its own here and in `specs/`, named after it.
#![tactic(auto)]

mod arguments;
mod by_name;
mod directives;
mod fault;
mod int_coercion_error;
mod known;
mod literals;
mod one_of_value;
mod required_argument;
mod required_field;
mod seconds;
mod type_shape;
mod undefined_argument;
mod undefined_directive;
mod undefined_enum_value;
mod undefined_input_value;
mod unique_argument;
mod unique_directive;
mod unique_input_value;
mod unsupported_location;
mod unsupported_value_type;
mod value_types;
mod written;

pub use arguments::{Call, list_arguments};
pub use by_name::ByName;
pub use directives::list_directives;
pub use fault::{list_fault, list_long_chain, list_name};
pub use jb_text::Memory;
pub use known::{Defined, is_defined, is_known};
pub use literals::list_literal;
pub use one_of_value::{has_one_key, list_one_of_literal};
pub use seconds::{Counted, EachCounts, Placed};
pub use type_shape::is_required;
pub use unique_argument::list_unique_argument;
pub use unique_input_value::list_unique_definitions;
pub use written::is_written;
