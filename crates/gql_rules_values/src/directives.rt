//! The rules on the directives at one place (GraphQL October 2021, section 5.7).

ghost use Rattle.std.specs.Prelude.{◌≡◌, ◌++◌, OnOk};
ghost use Rattle.std.specs.List.{flat_map};
ghost use Rattle.gql_rules_values.specs.Directives as spec;

use crate::arguments::{Call, list_arguments, list_unknown_arguments};
use crate::known::Defined;
use crate::undefined_directive::list_undefined_directive;
use crate::unique_directive::list_unique_directive;
use crate::unsupported_location::list_unsupported_location;
use gql_ast::{DirectiveDefinition, DirectiveLocation};
use gql_ast_base::Directive;
use gql_diag_messages::DiagnosticData;
use gql_schema_types::{ExtendedType, Schema, Table};
use jb_text::{Listed, Memory};
use std::alloc::Global;

/// Lists what is wrong with the directives at one place of this kind, their arguments included. `Err` only when out of
/// memory.
pub fn list_directives(
    alloc: Global,
    defined: Defined,
    schema: &Schema,
    location: DirectiveLocation,
    directives: &[Directive],
    faults: &mut Listed<DiagnosticData>,
) -> Result<(), Memory>
    ensures { OnOk result (faults.new
        ≡ faults.old ++ spec.directive_faults defined schema.now.types location schema.now.directive_definitions directives.now) }
{
    list_unique_directive(alloc, &schema.directive_definitions, directives, faults)?;
    list_uses(alloc, defined, schema, location, directives, faults)
}

/// Lists what is wrong with each use by itself.
fn list_uses(
    alloc: Global,
    defined: Defined,
    schema: &Schema,
    location: DirectiveLocation,
    directives: &[Directive],
    faults: &mut Listed<DiagnosticData>,
) -> Result<(), Memory>
    ensures { OnOk result (faults.new
        ≡ faults.old ++ flat_map (spec.use_faults defined schema.now.types location schema.now.directive_definitions) directives.now) }
{
    for used in directives {
        list_use(alloc, defined, schema, location, used, faults)?;
    }
    Ok(())
}

/// Lists what is wrong with a use by itself.
fn list_use(
    alloc: Global,
    defined: Defined,
    schema: &Schema,
    location: DirectiveLocation,
    used: &Directive,
    faults: &mut Listed<DiagnosticData>,
) -> Result<(), Memory>
    ensures { OnOk result (faults.new ≡ faults.old ++ spec.use_faults defined schema.now.types location schema.now.directive_definitions used.now) }
{
    match schema.directive_definitions.get(used.name.as_str()) {
        Some(definition) => {
            list_defined_use(
                alloc,
                defined,
                &schema.types,
                definition,
                location,
                used,
                faults,
            )
        }
        None => list_undefined_use(alloc, defined, &schema.types, used, faults),
    }
}

/// Lists what is wrong with a use, by its definition.
fn list_defined_use(
    alloc: Global,
    defined: Defined,
    types: &Table<ExtendedType>,
    definition: &DirectiveDefinition,
    location: DirectiveLocation,
    used: &Directive,
    faults: &mut Listed<DiagnosticData>,
) -> Result<(), Memory>
    ensures { OnOk result (faults.new ≡ faults.old ++ spec.defined_use defined types.now location used.now definition.now) }
{
    list_unsupported_location(alloc, definition, location, used, faults)?;
    let call = Call {
        directive: true,
        name: used.name.as_str(),
        location: used.location,
    };
    list_arguments(
        alloc,
        defined,
        types,
        &call,
        definition.arguments.as_slice(),
        used.arguments.as_slice(),
        faults,
    )
}

/// Lists a use without a definition, and what is wrong with its arguments.
fn list_undefined_use(
    alloc: Global,
    defined: Defined,
    types: &Table<ExtendedType>,
    used: &Directive,
    faults: &mut Listed<DiagnosticData>,
) -> Result<(), Memory>
    ensures { OnOk result (faults.new ≡ faults.old ++ spec.undefined_use defined types.now used.now) }
{
    list_undefined_directive(alloc, used, faults)?;
    list_unknown_arguments(alloc, defined, types, used.arguments.as_slice(), faults)
}
