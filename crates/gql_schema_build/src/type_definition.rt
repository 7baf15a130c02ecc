//! Definitions of types, of every kind.

ghost use Rattle.std.specs.Prelude.{◌≡◌};
ghost use Rattle.std.specs.Option.{option_copied};
ghost use Rattle.gql_schema_types.specs.Entries.{entry};
ghost use Rattle.gql_schema_build.specs.DefinitionNames.{definition_name};

use crate::type_kind::TypeKind;
use gql_ast::{
    EnumTypeDefinition, InputObjectTypeDefinition, InterfaceTypeDefinition, ObjectTypeDefinition,
    ScalarTypeDefinition, UnionTypeDefinition,
};
use gql_ast_base::Name;
use gql_schema_types::Named;
use gql_source::SourceSpan;

/// A definition of a type of any kind (GraphQL October 2021, section 3.4).
#[derive(Drop)]
pub enum TypeDefinition {
    Scalar(ScalarTypeDefinition),
    Object(ObjectTypeDefinition),
    Interface(InterfaceTypeDefinition),
    Union(UnionTypeDefinition),
    Enum(EnumTypeDefinition),
    InputObject(InputObjectTypeDefinition),
}

impl Named for TypeDefinition {
    ghost use Rattle.gql_schema_build.specs.DefinitionNames.{definition_name};

    ghost own = { definition_name };

    fn own_name(&self) -> &Name {
        match self {
            TypeDefinition::Scalar(it) => &it.name,
            TypeDefinition::Object(it) => &it.name,
            TypeDefinition::Interface(it) => &it.name,
            TypeDefinition::Union(it) => &it.name,
            TypeDefinition::Enum(it) => &it.name,
            TypeDefinition::InputObject(it) => &it.name,
        }
    }
}

impl TypeDefinition {
    ghost use Rattle.gql_schema_build.specs.DefinitionLocations.{definition_location};
    ghost use Rattle.gql_schema_build.specs.Kinds.{kind_of_definition};

    /// Its kind.
    #[must_use]
    pub fn kind(&self) -> TypeKind
        ensures { result ≡ kind_of_definition self.now }
    {
        match self {
            TypeDefinition::Scalar(_) => TypeKind::Scalar,
            TypeDefinition::Object(_) => TypeKind::Object,
            TypeDefinition::Interface(_) => TypeKind::Interface,
            TypeDefinition::Union(_) => TypeKind::Union,
            TypeDefinition::Enum(_) => TypeKind::Enum,
            TypeDefinition::InputObject(_) => TypeKind::InputObject,
        }
    }

    /// The place of the whole definition.
    #[must_use]
    pub fn location(&self) -> Option<SourceSpan>
        ensures { result ≡ definition_location self.now }
    {
        match self {
            TypeDefinition::Scalar(it) => it.location,
            TypeDefinition::Object(it) => it.location,
            TypeDefinition::Interface(it) => it.location,
            TypeDefinition::Union(it) => it.location,
            TypeDefinition::Enum(it) => it.location,
            TypeDefinition::InputObject(it) => it.location,
        }
    }
}

/// The first of the definitions that has the name; `None` exactly where none has it. It takes no memory.
#[must_use]
pub(crate) fn find_definition<'d>(
    definitions: &'d [TypeDefinition],
    name: &str,
) -> Option<&'d TypeDefinition>
    ensures { option_copied result ≡ entry definition_name name.now definitions.now }
{
    definitions
        .iter()
        .find(|definition| name == definition.own_name().as_str())
}
