//! What introspection shows of a schema: section 4.2 of GraphQL October 2021, and `isOneOf` of the edition of September 2025.

use gql_ast::DirectiveLocation;
use gql_ast_base::{Name, TypeRef};
use jb_text::{ByteString, Listed, Text};

/// The kind of a type that has a name (section 4.2.2).
#[derive(Clone, Copy, Debug, PartialEq, Eq)]
pub enum TypeKind {
    Scalar,
    Object,
    Interface,
    Union,
    Enum,
    InputObject,
}

/// That something is deprecated, and why, where that is told (section 3.13.3).
#[derive(Drop)]
pub struct Deprecation {
    pub reason: Option<ByteString>,
}

/// An argument or a field of an input object (section 4.2.4).
#[derive(Drop)]
pub struct ShownInput {
    pub description: Option<ByteString>,
    pub name: Name,
    pub ty: TypeRef,
    /// The text of the constant value that stands where none is given.
    pub default_value: Option<Text>,
    pub deprecation: Option<Deprecation>,
}

/// A field of an object type or an interface type (section 4.2.3).
#[derive(Drop)]
pub struct ShownField {
    pub description: Option<ByteString>,
    pub name: Name,
    pub arguments: Listed<ShownInput>,
    pub ty: TypeRef,
    pub deprecation: Option<Deprecation>,
}

/// A value of an enum type (section 4.2.5).
#[derive(Drop)]
pub struct ShownEnumValue {
    pub description: Option<ByteString>,
    pub name: Name,
    pub deprecation: Option<Deprecation>,
}

/// A type that has a name (section 4.2.2). Of its parts only those are printed that its kind has.
#[derive(Drop)]
pub struct ShownType {
    pub description: Option<ByteString>,
    pub kind: TypeKind,
    pub name: Name,
    pub specified_by_url: Option<ByteString>,
    pub is_one_of: bool,
    pub fields: Listed<ShownField>,
    pub input_fields: Listed<ShownInput>,
    pub interfaces: Listed<TypeRef>,
    pub possible_types: Listed<TypeRef>,
    pub enum_values: Listed<ShownEnumValue>,
}

/// A directive (section 4.2.6).
#[derive(Drop)]
pub struct ShownDirective {
    pub description: Option<ByteString>,
    pub name: Name,
    pub is_repeatable: bool,
    pub locations: Listed<DirectiveLocation>,
    pub arguments: Listed<ShownInput>,
}

/// A schema (section 4.2.1), the built-in types and directives included.
#[derive(Drop)]
pub struct ShownSchema {
    pub description: Option<ByteString>,
    pub query: Name,
    pub mutation: Option<Name>,
    pub subscription: Option<Name>,
    pub types: Listed<ShownType>,
    pub directives: Listed<ShownDirective>,
}
