//! How executable documents are built of operations and fragments against a schema, and what is wrong with these.
//!
//! An [`ExecutableDocumentBuilder`] takes documents and builds an [`ExecutableDocument`](gql_document_types::ExecutableDocument)
//! of their operations and fragments (GraphQL October 2021, section 2.2), in which each field has its definition.
//! [`build_field_set`] does so with selections alone. [`distinct_definitions`] asks for no schema: it lists what is wrong with
//! definitions whatever it is. What the document is, is a definition apart from the way to it, and so is each fault: a rule has
//! a file of its own here and in `specs/`, named after it.
#![tactic(auto)]

mod ambiguous_anonymous_operation;
mod build;
mod built_fragments;
mod built_operations;
mod built_selections;
mod distinct;
mod executable_definitions;
mod executable_document_builder;
mod fault;
mod field_set;
mod fragment_name_collision;
mod fragment_tree;
mod judged;
mod operation_faults;
mod operation_name_collision;
mod root_selections;
mod selection_faults;
mod subscription_uses_conditional_selection;
mod subscription_uses_introspection;
mod subscription_uses_multiple_fields;
mod subselection_on_enum_type;
mod subselection_on_scalar_type;
mod type_kind;
mod type_system_definition;
mod undefined_field;
mod undefined_root_operation;
mod undefined_type_in_inline_fragment_type_condition;
mod undefined_type_in_named_fragment_type_condition;

pub use distinct::distinct_definitions;
pub use executable_definitions::ExecutableDefinitions;
pub use executable_document_builder::ExecutableDocumentBuilder;
pub use field_set::build_field_set;
pub use gql_document_types::{
    ExecutableDocument, ExpandFault, Field, FieldSet, Fragment, FragmentSpread, InlineFragment,
    Operation, Selection, SelectionSet, expand_fragments,
};
pub use jb_text::Memory;
