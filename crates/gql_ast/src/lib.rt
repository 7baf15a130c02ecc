//! GraphQL documents as syntax trees, made from the concrete trees of their texts.
//!
//! [`Document::from_cst`] makes a document of the concrete tree of a file's text, and [`Convert`] makes any one of the
//! syntax trees of a concrete tree. What a concrete tree stands for is a definition, kind by kind of its nodes; the
//! conversion gives exactly that. `None` comes where the tree is of another kind or lacks a required part, and such
//! members of a list are left out. The location of a tree runs from its first to its last token, not counting those
//! that the grammar ignores.
//!
//! The trees are those of section 2 and, for definitions of types, section 3 of GraphQL October 2021. They are plain
//! data with public fields; [`Copying`] copies each of them, and [`print_value`] and [`print_type`] write values and
//! types as GraphQL texts.
#![tactic(auto)]

mod definition;
mod document;
mod extension;
mod field_definition;
mod operation;
mod schema_definition;
mod selection;
mod type_definition;
mod type_text;
mod value_text;

pub use definition::Definition;
pub use document::Document;
pub use extension::{
    EnumTypeExtension, InputObjectTypeExtension, InterfaceTypeExtension, ObjectTypeExtension,
    ScalarTypeExtension, SchemaExtension, UnionTypeExtension,
};
pub use field_definition::{EnumValueDefinition, FieldDefinition, InputValueDefinition};
pub use gql_ast_base::{
    Argument, Boxed, Convert, Copying, Directive, Name, NameFault, OperationType, Source, TypeRef,
    Value, ValueKind,
};
pub use jb_text::Memory;
pub use operation::{FragmentDefinition, OperationDefinition, VariableDefinition};
pub use schema_definition::{
    DirectiveDefinition, DirectiveLocation, SchemaDefinition, location_word,
};
pub use selection::{Field, FragmentSpread, InlineFragment, Selection};
pub use type_definition::{
    EnumTypeDefinition, InputObjectTypeDefinition, InterfaceTypeDefinition, ObjectTypeDefinition,
    ScalarTypeDefinition, UnionTypeDefinition,
};
pub use type_text::print_type;
pub use value_text::print_value;
