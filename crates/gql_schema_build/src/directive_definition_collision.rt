//! Directives have distinct names (GraphQL October 2021, section 3.3).

ghost use Rattle.std.specs.Prelude.{◌≡◌, ◌++◌, [], IfOk, OnOk, map};
ghost use Rattle.gql_schema_types.specs.Entries.{put_new, joined, repeat};
ghost use Rattle.gql_schema_build.specs.DirectiveDefinitionCollision as spec;

use crate::fault::list_name;
use gql_ast::DirectiveDefinition;
use gql_diag_messages::{DiagnosticData, Rule};
use gql_schema_types::Table;
use jb_text::{Listed, Memory};
use std::alloc::{AllocError, Global};

/// The definitions of directives, of each name the first, and a fault for each other.
pub(crate) fn first_directives(
    alloc: Global,
    definitions: Listed<DirectiveDefinition>,
    faults: &mut Listed<DiagnosticData>,
) -> Result<Table<DirectiveDefinition>, Memory>
    ensures table { IfOk result (λ table. table ≡ joined spec.directive_name [] definitions) }
    ensures faults { OnOk result (faults.new ≡ faults.old ++ spec.directive_definition_collisions definitions) }
{
    let mut table = Table::new(alloc);
    for definition in definitions {
        add_first(alloc, &mut table, definition, faults)?;
    }
    Ok(table)
}

/// Adds a definition last, unless there is one of its name: then it is a fault.
fn add_first(
    alloc: Global,
    table: &mut Table<DirectiveDefinition>,
    definition: DirectiveDefinition,
    faults: &mut Listed<DiagnosticData>,
) -> Result<(), Memory>
    ensures table { OnOk result (table.new ≡ put_new spec.directive_name table.old definition) }
    ensures faults { OnOk result (faults.new ≡ faults.old ++ map spec.second_directive (repeat spec.directive_name table.old definition)) }
{
    match table.get(definition.name.as_str()) {
        Some(first) => list_name(
            alloc,
            Rule::DirectiveDefinitionCollision,
            &definition.name,
            first.name.location(),
            faults,
        ),
        None => match table.insert_new(definition) {
            Ok(()) => Ok(()),
            Err(_) => Err(AllocError),
        },
    }
}
