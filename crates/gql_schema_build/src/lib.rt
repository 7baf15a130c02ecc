//! How a schema is built of definitions and extensions, and what is wrong with these.
//!
//! A [`TypeSystem`] has the definitions and extensions of documents, sorted by what they are; [`build_schema`] makes a schema of
//! them and of the built-in ones. What the schema is, is a definition apart from the way to it, and so is each fault: a
//! rule has a file of its own here and in `specs/`, named after it.
//!
//! A definition with what an extension adds is again a definition, with longer lists: `merge` adds what each extension gives to the
//! definition of its name. `kinds_built` makes the type of a single definition, kind by kind: it has of each name the first part,
//! and each other part of that name is a fault.
#![tactic(auto)]

mod build;
mod built;
mod built_in;
mod built_in_scalar_type_redefinition;
mod considered;
mod directive_definition_collision;
mod directive_table;
mod distinct;
mod duplicate_implements_interface_in_interface;
mod duplicate_implements_interface_in_object;
mod duplicate_root_operation;
mod enum_value_name_collision;
mod executable_definition;
mod extend;
mod fault;
mod input_field_name_collision;
mod interface_field_name_collision;
mod kinds_built;
mod lists;
mod merge;
mod object_field_name_collision;
mod orphan_schema_extension;
mod orphan_type_extension;
mod parts_listed;
mod schema_definition;
mod schema_definition_collision;
mod type_definition;
mod type_definition_collision;
mod type_extension;
mod type_extension_kind_mismatch;
mod type_kind;
mod type_system;
mod type_table;
mod union_member_name_collision;

pub use build::build_schema;
pub use built_in::BuiltIn;
pub use executable_definition::list_executable_definitions;
pub use jb_text::Memory;
pub use type_definition::TypeDefinition;
pub use type_extension::TypeExtension;
pub use type_kind::TypeKind;
pub use type_system::TypeSystem;
