//! Extensions of types, of every kind.

ghost use Rattle.std.specs.Prelude.{◌≡◌};

use crate::type_kind::TypeKind;
use gql_ast::{
    EnumTypeExtension, InputObjectTypeExtension, InterfaceTypeExtension, ObjectTypeExtension,
    ScalarTypeExtension, UnionTypeExtension,
};
use gql_ast_base::Name;
use gql_schema_types::Named;

/// An extension of a type of any kind (GraphQL October 2021, section 3.4.3).
#[derive(Drop)]
pub enum TypeExtension {
    Scalar(ScalarTypeExtension),
    Object(ObjectTypeExtension),
    Interface(InterfaceTypeExtension),
    Union(UnionTypeExtension),
    Enum(EnumTypeExtension),
    InputObject(InputObjectTypeExtension),
}

impl Named for TypeExtension {
    ghost use Rattle.gql_schema_build.specs.ExtensionNames.{extension_name};

    ghost own = { extension_name };

    /// The name of the type that it extends.
    fn own_name(&self) -> &Name {
        match self {
            TypeExtension::Scalar(it) => &it.name,
            TypeExtension::Object(it) => &it.name,
            TypeExtension::Interface(it) => &it.name,
            TypeExtension::Union(it) => &it.name,
            TypeExtension::Enum(it) => &it.name,
            TypeExtension::InputObject(it) => &it.name,
        }
    }
}

impl TypeExtension {
    ghost use Rattle.gql_schema_build.specs.Kinds.{kind_of_extension};

    /// Its kind.
    pub fn kind(&self) -> TypeKind
        ensures { result ≡ kind_of_extension self.now }
    {
        match self {
            TypeExtension::Scalar(_) => TypeKind::Scalar,
            TypeExtension::Object(_) => TypeKind::Object,
            TypeExtension::Interface(_) => TypeKind::Interface,
            TypeExtension::Union(_) => TypeKind::Union,
            TypeExtension::Enum(_) => TypeKind::Enum,
            TypeExtension::InputObject(_) => TypeKind::InputObject,
        }
    }
}
