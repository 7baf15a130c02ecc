//! The directives of a schema.

ghost use Rattle.std.specs.Prelude.{◌≡◌, ◌++◌, IfOk, OnOk, fold};
ghost use Rattle.gql_schema_types.specs.Entries.{put};
ghost use Rattle.gql_schema_build.specs.DirectiveDefinitionCollision.{directive_name, directive_definition_collisions};
ghost use Rattle.gql_schema_build.specs.Directives as spec;

use crate::directive_definition_collision::first_directives;
use crate::parts_listed::listed;
use crate::type_table::put;
use gql_ast::DirectiveDefinition;
use gql_diag_messages::DiagnosticData;
use gql_schema_types::Table;
use jb_text::{Listed, Memory};
use std::alloc::Global;

/// The built-in directives, each replaced in its place by the first definition of its name, and then the others; and the
/// faults in the definitions.
pub(crate) fn all_directives(
    alloc: Global,
    built_in: Listed<DirectiveDefinition>,
    definitions: Listed<DirectiveDefinition>,
    faults: &mut Listed<DiagnosticData>,
) -> Result<Table<DirectiveDefinition>, Memory>
    ensures table { IfOk result (λ table. table ≡ spec.directives built_in definitions) }
    ensures faults { OnOk result (faults.new ≡ faults.old ++ directive_definition_collisions definitions) }
{
    let firsts = first_directives(alloc, definitions, faults)?;
    let mut table = Table::new(alloc);
    put_all(&mut table, built_in)?;
    put_all(&mut table, listed(alloc, firsts.into_vec())?)?;
    Ok(table)
}

/// Puts each definition into the table: in the place of the one of its name, or else last.
fn put_all(
    table: &mut Table<DirectiveDefinition>,
    definitions: Listed<DirectiveDefinition>,
) -> Result<(), Memory>
    ensures { OnOk result (table.new ≡ fold (put directive_name) table.old definitions) }
{
    for definition in definitions {
        put(table, definition)?;
    }
    Ok(())
}
