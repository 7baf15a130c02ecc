//! An executable document has no definitions of a type system and no extensions (GraphQL October 2021, section 5.1.1). The rule on
//! schemas, which have no operations, is ExecutableDefinition.

ghost use Rattle.std.specs.Prelude.{◌≡◌, ◌++◌, ◌∷◌, [], OnOk};
ghost use Rattle.gql_document.specs.TypeSystemDefinition as spec;

use crate::fault::list_words;
use gql_ast::Definition;
use gql_ast_base::Name;
use gql_diag_messages::{DiagnosticData, Rule};
use gql_source::SourceSpan;
use jb_text::{Listed, Memory};
use std::alloc::Global;

/// Lists each definition that is neither an operation nor a fragment.
pub(crate) fn list_type_system_definitions(
    alloc: Global,
    definitions: &Listed<Definition>,
    faults: &mut Listed<DiagnosticData>,
) -> Result<(), Memory>
    ensures { OnOk result (faults.new ≡ faults.old ++ spec.type_system_definitions definitions.now) }
{
    for definition in definitions.as_slice() {
        list_type_system_definition(alloc, definition, faults)?;
    }
    Ok(())
}

/// Lists a definition, unless it is an operation or a fragment.
fn list_type_system_definition(
    alloc: Global,
    definition: &Definition,
    faults: &mut Listed<DiagnosticData>,
) -> Result<(), Memory>
    ensures { OnOk result (faults.new ≡ faults.old ++ spec.type_system_definition definition.now) }
{
    match definition {
        Definition::OperationDefinition(_) | Definition::FragmentDefinition(_) => Ok(()),
        Definition::SchemaDefinition(it) => {
            list_told(alloc, "a schema definition", "", it.location, faults)
        }
        Definition::SchemaExtension(it) => {
            list_told(alloc, "a schema extension", "", it.location, faults)
        }
        Definition::DirectiveDefinition(it) => {
            list_named(
                alloc,
                "a directive definition",
                &it.name,
                it.location,
                faults,
            )
        }
        Definition::ScalarTypeDefinition(it) => {
            list_named(
                alloc,
                "a scalar type definition",
                &it.name,
                it.location,
                faults,
            )
        }
        Definition::ObjectTypeDefinition(it) => {
            list_named(
                alloc,
                "an object type definition",
                &it.name,
                it.location,
                faults,
            )
        }
        Definition::InterfaceTypeDefinition(it) => {
            list_named(
                alloc,
                "an interface type definition",
                &it.name,
                it.location,
                faults,
            )
        }
        Definition::UnionTypeDefinition(it) => {
            list_named(
                alloc,
                "a union type definition",
                &it.name,
                it.location,
                faults,
            )
        }
        Definition::EnumTypeDefinition(it) => {
            list_named(
                alloc,
                "an enum type definition",
                &it.name,
                it.location,
                faults,
            )
        }
        Definition::InputObjectTypeDefinition(it) => {
            list_named(
                alloc,
                "an input object type definition",
                &it.name,
                it.location,
                faults,
            )
        }
        Definition::ScalarTypeExtension(it) => {
            list_named(
                alloc,
                "a scalar type extension",
                &it.name,
                it.location,
                faults,
            )
        }
        Definition::ObjectTypeExtension(it) => {
            list_named(
                alloc,
                "an object type extension",
                &it.name,
                it.location,
                faults,
            )
        }
        Definition::InterfaceTypeExtension(it) => {
            list_named(
                alloc,
                "an interface type extension",
                &it.name,
                it.location,
                faults,
            )
        }
        Definition::UnionTypeExtension(it) => {
            list_named(
                alloc,
                "a union type extension",
                &it.name,
                it.location,
                faults,
            )
        }
        Definition::EnumTypeExtension(it) => {
            list_named(
                alloc,
                "an enum type extension",
                &it.name,
                it.location,
                faults,
            )
        }
        Definition::InputObjectTypeExtension(it) => {
            list_named(
                alloc,
                "an input object type extension",
                &it.name,
                it.location,
                faults,
            )
        }
    }
}

/// Lists a definition of this kind that defines or extends what has this name.
fn list_named(
    alloc: Global,
    kind: &str,
    name: &Name,
    location: Option<SourceSpan>,
    faults: &mut Listed<DiagnosticData>,
) -> Result<(), Memory>
    ensures { OnOk result (faults.new ≡ faults.old ++ spec.told kind.now name.now.text location ∷ []) }
{
    list_told(alloc, kind, name.as_str(), location, faults)
}

/// Lists a definition of this kind that defines or extends this.
fn list_told(
    alloc: Global,
    kind: &str,
    name: &str,
    location: Option<SourceSpan>,
    faults: &mut Listed<DiagnosticData>,
) -> Result<(), Memory>
    ensures { OnOk result (faults.new ≡ faults.old ++ spec.told kind.now name.now location ∷ []) }
{
    list_words(
        alloc,
        Rule::TypeSystemDefinition,
        kind,
        name,
        location,
        faults,
    )
}
