//! The types of a schema: a definition of a type with all that the extensions of it add.

ghost use Rattle.std.specs.Prelude.{◌≡◌};

use crate::named::Named;
use crate::shared::Shared;
use crate::table::Table;
use gql_ast::{EnumValueDefinition, FieldDefinition, InputValueDefinition};
use gql_ast_base::{Directive, Name};
use gql_source::SourceSpan;
use jb_text::{Listed, Text};

/// A scalar type (GraphQL October 2021, section 3.5).
pub struct ScalarType {
    pub description: Option<Text>,
    pub name: Name,
    pub directives: Listed<Directive>,
    pub location: Option<SourceSpan>,
}

impl Drop for ScalarType {
    fn drop(self) {
        let ScalarType {
            description: _,
            name: _,
            directives: _,
            location: _,
        } = self;
    }
}

/// An object type (section 3.6).
pub struct ObjectType {
    pub description: Option<Text>,
    pub name: Name,
    pub implements_interfaces: Listed<Name>,
    pub directives: Listed<Directive>,
    pub fields: Table<Shared<FieldDefinition>>,
    pub location: Option<SourceSpan>,
}

impl Drop for ObjectType {
    fn drop(self) {
        let ObjectType {
            description: _,
            name: _,
            implements_interfaces: _,
            directives: _,
            fields: _,
            location: _,
        } = self;
    }
}

/// An interface type (section 3.7).
pub struct InterfaceType {
    pub description: Option<Text>,
    pub name: Name,
    pub implements_interfaces: Listed<Name>,
    pub directives: Listed<Directive>,
    pub fields: Table<Shared<FieldDefinition>>,
    pub location: Option<SourceSpan>,
}

impl Drop for InterfaceType {
    fn drop(self) {
        let InterfaceType {
            description: _,
            name: _,
            implements_interfaces: _,
            directives: _,
            fields: _,
            location: _,
        } = self;
    }
}

/// A union type (section 3.8).
pub struct UnionType {
    pub description: Option<Text>,
    pub name: Name,
    pub directives: Listed<Directive>,
    pub members: Listed<Name>,
    pub location: Option<SourceSpan>,
}

impl Drop for UnionType {
    fn drop(self) {
        let UnionType {
            description: _,
            name: _,
            directives: _,
            members: _,
            location: _,
        } = self;
    }
}

/// An enum type (section 3.9).
pub struct EnumType {
    pub description: Option<Text>,
    pub name: Name,
    pub directives: Listed<Directive>,
    pub values: Table<EnumValueDefinition>,
    pub location: Option<SourceSpan>,
}

impl Drop for EnumType {
    fn drop(self) {
        let EnumType {
            description: _,
            name: _,
            directives: _,
            values: _,
            location: _,
        } = self;
    }
}

/// An input object type (section 3.10).
pub struct InputObjectType {
    pub description: Option<Text>,
    pub name: Name,
    pub directives: Listed<Directive>,
    pub fields: Table<InputValueDefinition>,
    pub location: Option<SourceSpan>,
}

impl Drop for InputObjectType {
    fn drop(self) {
        let InputObjectType {
            description: _,
            name: _,
            directives: _,
            fields: _,
            location: _,
        } = self;
    }
}

/// A type of any kind (GraphQL October 2021, section 3.4).
#[derive(Drop)]
pub enum ExtendedType {
    Scalar(ScalarType),
    Object(ObjectType),
    Interface(InterfaceType),
    Union(UnionType),
    Enum(EnumType),
    InputObject(InputObjectType),
}

impl InputObjectType {
    ghost use Rattle.std.specs.Prelude.{◌≡◌};
    ghost use Rattle.gql_schema_types.specs.Types.{is_one_of};

    /// Whether it is one-of, so that a value has exactly one member, which is not null: whether it has a directive named
    /// `oneOf` (GraphQL September 2025, section 3.10.1). It takes no memory.
    #[must_use]
    pub fn is_one_of(&self) -> bool
        ensures { result ≡ is_one_of self.now }
    {
        self.directives
            .as_slice()
            .iter()
            .any(|directive| "oneOf" == directive.name.as_str())
    }
}

impl Named for ExtendedType {
    ghost use Rattle.gql_schema_types.specs.Types.{type_name};

    ghost own = { type_name };

    fn own_name(&self) -> &Name {
        match self {
            ExtendedType::Scalar(it) => &it.name,
            ExtendedType::Object(it) => &it.name,
            ExtendedType::Interface(it) => &it.name,
            ExtendedType::Union(it) => &it.name,
            ExtendedType::Enum(it) => &it.name,
            ExtendedType::InputObject(it) => &it.name,
        }
    }
}

impl ExtendedType {
    ghost use Rattle.std.specs.Prelude.{◌≡◌};
    ghost use Rattle.std.specs.Option.{option_copied};
    ghost use Rattle.gql_schema_types.specs.Entries.{entry};
    ghost use Rattle.gql_schema_types.specs.Types.{as_object, is_composite, fields_of, field_name, interfaces_of};

    /// The object type itself, where the type is one.
    #[must_use]
    pub fn as_object(&self) -> Option<&ObjectType>
        ensures { option_copied result ≡ as_object self.now }
    {
        match self {
            ExtendedType::Object(object) => Some(object),
            _ => None,
        }
    }

    /// Whether a selection on it has selections of its own: whether it is an object, an interface or a union
    /// (GraphQL October 2021, section 3.4).
    #[must_use]
    pub fn is_composite(&self) -> bool
        ensures { result ≡ is_composite self.now }
    {
        matches!(
            self,
            ExtendedType::Object(_) | ExtendedType::Interface(_) | ExtendedType::Union(_)
        )
    }

    /// Its own field of the name: those of object and interface types alone have any.
    #[must_use]
    pub fn own_field(&self, name: &str) -> Option<&Shared<FieldDefinition>>
        ensures { option_copied result ≡ entry field_name name.now (fields_of self.now) }
    {
        match self {
            ExtendedType::Object(object) => object.fields.get(name),
            ExtendedType::Interface(interface) => interface.fields.get(name),
            _ => None,
        }
    }

    /// The interfaces that it says it implements.
    #[must_use]
    pub fn implements_interfaces(&self) -> &[Name]
        ensures { result.now ≡ interfaces_of self.now }
    {
        match self {
            ExtendedType::Object(object) => object.implements_interfaces.as_slice(),
            ExtendedType::Interface(interface) => interface.implements_interfaces.as_slice(),
            _ => &[],
        }
    }
}
