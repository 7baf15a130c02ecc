//! The rules on the parts of a GraphQL schema: its root types, its directives, its types, the interfaces that these list and what
//! they are made of (GraphQL October 2021, section 3).
//!
//! Each rule is a list of diagnostics of one node, as a name, a field or a type; what is wrong with a schema is what its nodes
//! say, one behind another. A type and an interface that it lists are looked at field by field of the interface, and argument by
//! argument (sections 3.6 and 3.7). A rule has a file of its own here and in `specs/`, named after it.
#![tactic(auto)]

mod duplicate_root_operation_type;
mod empty_field_set;
mod empty_input_value_set;
mod empty_member_set;
mod empty_value_set;
mod extra_required_implementation_field_argument;
mod fields;
mod input_type;
mod input_values;
mod interface_fields;
mod interfaces;
mod invalid_implementation_field_argument_type;
mod invalid_implementation_field_type;
mod missing_interface_field;
mod missing_interface_field_argument;
mod object_types;
mod one_of_field;
mod output_type;
mod query_root_operation_type;
mod reserved_name;
mod root_operation_object_type;
mod schema_rules;
mod subtypes;
mod transitive_implemented_interfaces;
mod types;
mod undefined_definition;
mod union_member_object_type;

pub use interfaces::list_interfaces;
pub use jb_text::Memory;
pub use schema_rules::{list_directive_definitions, list_schema_definition};
pub use types::list_types;
