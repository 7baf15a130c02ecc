//! The definitions and extensions that a schema is built of, sorted by what they are.

ghost use Rattle.std.specs.Prelude.{◌≡◌, OnOk};

use crate::type_definition::TypeDefinition;
use crate::type_extension::TypeExtension;
use gql_ast::{Definition, DirectiveDefinition, SchemaDefinition, SchemaExtension};
use gql_ast_base::Copying;
use jb_text::{Listed, Memory};
use std::alloc::Global;

/// The definitions and extensions of a type system (GraphQL October 2021, section 3.1), of each kind in the order in which
/// they came.
#[derive(Drop)]
pub struct TypeSystem {
    pub schemas: Listed<SchemaDefinition>,
    pub schema_extensions: Listed<SchemaExtension>,
    pub directives: Listed<DirectiveDefinition>,
    pub types: Listed<TypeDefinition>,
    pub type_extensions: Listed<TypeExtension>,
}

impl TypeSystem {
    ghost use Rattle.gql_schema_build.specs.TypeSystems as spec;

    /// No definitions.
    #[must_use]
    pub fn new(alloc: Global) -> TypeSystem
        ensures { result ≡ spec.no_definitions }
    {
        TypeSystem {
            schemas: Listed::new(alloc),
            schema_extensions: Listed::new(alloc),
            directives: Listed::new(alloc),
            types: Listed::new(alloc),
            type_extensions: Listed::new(alloc),
        }
    }

    /// Takes the definitions of a document too, each last among those of its kind; operations and fragments are left
    /// out. `Err` only when out of memory: then some of them are taken.
    pub fn take_all(&mut self, definitions: Listed<Definition>) -> Result<(), Memory>
        ensures { OnOk result (self.new ≡ spec.with_definitions self.old definitions) }
    {
        for definition in definitions {
            self.take(definition)?;
        }
        Ok(())
    }

    /// Takes copies of the definitions of a document, as [`TypeSystem::take_all`] takes them themselves.
    pub fn copy_all(
        &mut self,
        alloc: Global,
        definitions: &Listed<Definition>,
    ) -> Result<(), Memory>
        ensures { OnOk result (self.new ≡ spec.with_definitions self.old definitions.now) }
    {
        for definition in definitions.as_slice() {
            self.copy_one(alloc, definition)?;
        }
        Ok(())
    }

    /// Takes a copy of a definition.
    fn copy_one(&mut self, alloc: Global, definition: &Definition) -> Result<(), Memory>
        ensures { OnOk result (self.new ≡ spec.with_definition self.old definition.now) }
    {
        match definition {
            Definition::OperationDefinition(_) | Definition::FragmentDefinition(_) => Ok(()),
            _ => self.take(definition.copy(alloc)?),
        }
    }

    /// Takes a definition.
    fn take(&mut self, definition: Definition) -> Result<(), Memory>
        ensures { OnOk result (self.new ≡ spec.with_definition self.old definition) }
    {
        match definition {
            Definition::OperationDefinition(_) | Definition::FragmentDefinition(_) => Ok(()),
            Definition::SchemaDefinition(it) => self.schemas.push(it),
            Definition::SchemaExtension(it) => self.schema_extensions.push(it),
            Definition::DirectiveDefinition(it) => self.directives.push(it),
            Definition::ScalarTypeDefinition(it) => self.types.push(TypeDefinition::Scalar(it)),
            Definition::ObjectTypeDefinition(it) => self.types.push(TypeDefinition::Object(it)),
            Definition::InterfaceTypeDefinition(it) => {
                self.types.push(TypeDefinition::Interface(it))
            }
            Definition::UnionTypeDefinition(it) => self.types.push(TypeDefinition::Union(it)),
            Definition::EnumTypeDefinition(it) => self.types.push(TypeDefinition::Enum(it)),
            Definition::InputObjectTypeDefinition(it) => {
                self.types.push(TypeDefinition::InputObject(it))
            }
            Definition::ScalarTypeExtension(it) => {
                self.type_extensions.push(TypeExtension::Scalar(it))
            }
            Definition::ObjectTypeExtension(it) => {
                self.type_extensions.push(TypeExtension::Object(it))
            }
            Definition::InterfaceTypeExtension(it) => {
                self.type_extensions.push(TypeExtension::Interface(it))
            }
            Definition::UnionTypeExtension(it) => {
                self.type_extensions.push(TypeExtension::Union(it))
            }
            Definition::EnumTypeExtension(it) => {
                self.type_extensions.push(TypeExtension::Enum(it))
            }
            Definition::InputObjectTypeExtension(it) => {
                self.type_extensions.push(TypeExtension::InputObject(it))
            }
        }
    }
}
