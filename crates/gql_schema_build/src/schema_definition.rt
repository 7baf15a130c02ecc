//! What is said of a schema as a whole, and its root types (GraphQL October 2021, section 3.3).

ghost use Rattle.std.specs.Prelude.{◌≡◌, ◌++◌, true, List, None, Some, IfOk, OnOk};
ghost use Rattle.gql_ast_base.specs.Names.{is_name};
ghost use Rattle.gql_schema_build.specs.Roots as roots;
ghost use Rattle.gql_schema_build.specs.SchemaDefinitions as spec;

use crate::duplicate_root_operation::add_roots;
use crate::lists::append;
use crate::orphan_schema_extension::list_orphan_schema_extensions;
use crate::schema_definition_collision::first_schema;
use gql_ast::SchemaExtension;
use gql_ast_base::{Name, OperationType, all_three, both};
use gql_diag_messages::DiagnosticData;
use gql_schema_types::{ExtendedType, SchemaDefinition, Table};
use jb_text::{Listed, Memory, Refused};
use std::alloc::{AllocError, Global};

/// What is written of a schema, before its extensions.
#[derive(Drop)]
struct Draft {
    definition: SchemaDefinition,
    roots: Listed<(OperationType, Name)>,
    extensible: bool,
}

/// The definition of the schema, and the faults in what is written of it.
pub(crate) fn schema_definition(
    alloc: Global,
    schemas: Listed<gql_ast::SchemaDefinition>,
    extensions: Listed<SchemaExtension>,
    types: &Table<ExtendedType>,
    faults: &mut Listed<DiagnosticData>,
) -> Result<SchemaDefinition, Memory>
    ensures made { IfOk result (λ made. made ≡ spec.schema_definition schemas extensions types.now) }
    ensures faults { OnOk result (faults.new ≡ faults.old ++ spec.schema_faults schemas extensions types.now) }
{
    let first = first_schema(alloc, schemas, faults)?;
    let beginning = beginning(alloc, types, first)?;
    finished(alloc, beginning, extensions, faults)
}

/// What the first `schema` says, or where none is written the default.
fn beginning(
    alloc: Global,
    types: &Table<ExtendedType>,
    first: Option<gql_ast::SchemaDefinition>,
) -> Result<Draft, Memory>
    ensures { IfOk result (λ made. made ≡ spec.beginning types.now first) }
{
    match first {
        Some(first) => Ok(written(first)),
        None => default_beginning(alloc, types),
    }
}

/// What a `schema` says.
fn written(first: gql_ast::SchemaDefinition) -> Draft
    ensures { (types : List ExtendedType) → result ≡ spec.beginning types (Some first) }
{
    let gql_ast::SchemaDefinition {
        description,
        directives,
        root_operations,
        location,
    } = first;
    Draft {
        definition: SchemaDefinition {
            description,
            directives,
            query: None,
            mutation: None,
            subscription: None,
            location,
        },
        roots: root_operations,
        extensible: true,
    }
}

/// The default, where no `schema` is written.
fn default_beginning(alloc: Global, types: &Table<ExtendedType>) -> Result<Draft, Memory>
    ensures { IfOk result (λ made. made ≡ spec.beginning types.now None) }
{
    let definition = default_definition(alloc, types)?;
    let extensible = has_root(&definition);
    Ok(Draft {
        definition,
        roots: Listed::new(alloc),
        extensible,
    })
}

/// The definition of a schema where none is written: the object types of the default names are its root types.
fn default_definition(
    alloc: Global,
    types: &Table<ExtendedType>,
) -> Result<SchemaDefinition, Memory>
    ensures { IfOk result (λ made. made ≡ roots.default_definition types.now) }
{
    let (query, mutation, subscription) = all_three(
        default_root(alloc, types, "Query"),
        default_root(alloc, types, "Mutation"),
        default_root(alloc, types, "Subscription"),
    )?;
    Ok(SchemaDefinition {
        description: None,
        directives: Listed::new(alloc),
        query,
        mutation,
        subscription,
        location: None,
    })
}

/// The name, from no place, if it is that of an object type.
fn default_root(
    alloc: Global,
    types: &Table<ExtendedType>,
    name: &str,
) -> Result<Option<Name>, Memory>
    requires { is_name name.now ≡ true }
    ensures { IfOk result (λ root. root ≡ roots.default_root types.now name.now) }
{
    match types.get(name) {
        Some(ExtendedType::Object(_)) => root_named(alloc, name),
        _ => Ok(None),
    }
}

/// The name with a text that is one, from no place.
fn root_named(alloc: Global, name: &str) -> Result<Option<Name>, Memory>
    requires { is_name name.now ≡ true }
    ensures { IfOk result (λ root. root ≡ Some (record { text = name.now; location = None })) }
{
    match Name::new(alloc, name) {
        Ok(name) => Ok(Some(name)),
        Err(Refused::Memory) => Err(AllocError),
        Err(Refused::Fault(_)) => unreachable!(),
    }
}

/// Whether there is a root type.
fn has_root(definition: &SchemaDefinition) -> bool
    ensures { result ≡ roots.has_root definition.now }
{
    definition.query.is_some() || definition.mutation.is_some() || definition.subscription.is_some()
}

/// The definition with what the extensions add, and the faults in this.
fn finished(
    alloc: Global,
    mut beginning: Draft,
    extensions: Listed<SchemaExtension>,
    faults: &mut Listed<DiagnosticData>,
) -> Result<SchemaDefinition, Memory>
    ensures made { IfOk result (λ made. made ≡ spec.finished (spec.extended extensions beginning)) }
    ensures faults { OnOk result (faults.new ≡ faults.old ++ spec.root_faults extensions beginning) }
{
    extend(alloc, &mut beginning, extensions, faults)?;
    let Draft {
        mut definition,
        roots,
        extensible: _,
    } = beginning;
    add_roots(alloc, &mut definition, roots, faults)?;
    Ok(definition)
}

/// Adds what the extensions give, or lists them where there is no schema to extend.
fn extend(
    alloc: Global,
    beginning: &mut Draft,
    extensions: Listed<SchemaExtension>,
    faults: &mut Listed<DiagnosticData>,
) -> Result<(), Memory>
    ensures beginning { OnOk result (beginning.new ≡ spec.extended extensions beginning.old) }
    ensures faults { OnOk result (faults.new ≡ faults.old ++ spec.orphans extensions beginning.old) }
{
    if beginning.extensible {
        add_extensions(beginning, extensions)
    } else {
        list_orphan_schema_extensions(alloc, &extensions, faults)
    }
}

/// Adds what the extensions give.
fn add_extensions(beginning: &mut Draft, extensions: Listed<SchemaExtension>) -> Result<(), Memory>
    ensures { OnOk result (beginning.new ≡ spec.extended_by extensions beginning.old) }
{
    for extension in extensions {
        add_extension(beginning, extension)?;
    }
    Ok(())
}

/// Adds what one extension gives.
fn add_extension(beginning: &mut Draft, extension: SchemaExtension) -> Result<(), Memory>
    ensures { OnOk result (beginning.new ≡ spec.extended_once beginning.old extension) }
{
    let SchemaExtension {
        directives,
        root_operations,
        location: _,
    } = extension;
    both(
        append(&mut beginning.definition.directives, directives),
        append(&mut beginning.roots, root_operations),
    )?;
    Ok(())
}
