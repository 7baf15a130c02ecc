//! Schemas of their definitions.

ghost use Rattle.std.specs.Prelude.{◌≡◌, ◌++◌, IfOk, OnOk};
ghost use Rattle.gql_schema_build.specs.Build as spec;

use crate::built_in::BuiltIn;
use crate::considered::type_definitions;
use crate::directive_table::all_directives;
use crate::schema_definition::schema_definition;
use crate::type_system::TypeSystem;
use crate::type_table::all_types;
use gql_diag_messages::DiagnosticData;
use gql_schema_types::{MetaFields, Schema};
use gql_source::SourceMap;
use jb_text::{Listed, Memory};
use std::alloc::Global;

/// The schema of these definitions, and the faults in them: what a fault lists is left out. Where `ignores` is true,
/// definitions of types whose names are built in are passed over. `Err` only when out of memory.
///
/// Extensions come after all definitions. Of definitions of one name the first stays; a built-in directive is replaced in
/// its place. Without a `schema` the object types `Query`, `Mutation` and `Subscription` are the root types (GraphQL
/// October 2021, section 3.3.1).
pub fn build_schema(
    alloc: Global,
    sources: SourceMap,
    ignores: bool,
    built_in: BuiltIn,
    user: TypeSystem,
    faults: &mut Listed<DiagnosticData>,
) -> Result<Schema, Memory>
    ensures schema { IfOk result (λ schema. schema ≡ spec.built sources ignores built_in user) }
    ensures faults { OnOk result (faults.new ≡ faults.old ++ spec.build_faults ignores built_in user) }
{
    let BuiltIn {
        directives: built_in_directives,
        types: built_in_types,
    } = built_in;
    let TypeSystem {
        schemas,
        schema_extensions,
        directives,
        types,
        type_extensions,
    } = user;
    let directive_definitions = all_directives(alloc, built_in_directives, directives, faults)?;
    let definitions = type_definitions(alloc, ignores, built_in_types, types, faults)?;
    let types = all_types(alloc, definitions, type_extensions, faults)?;
    let schema_definition = schema_definition(alloc, schemas, schema_extensions, &types, faults)?;
    let meta_fields = MetaFields::new(alloc)?;
    Ok(Schema {
        sources,
        schema_definition,
        directive_definitions,
        types,
        meta_fields,
    })
}
