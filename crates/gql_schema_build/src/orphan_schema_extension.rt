//! A schema that is extended exists: it is defined, or a type has the name of a default root (GraphQL October 2021, section 3.3.2).
//! It is asked in `schema_definition.rt`.

ghost use Rattle.std.specs.Prelude.{◌≡◌, ◌++◌, OnOk};
ghost use Rattle.gql_schema_build.specs.OrphanSchemaExtension as spec;

use crate::fault::list_nameless;
use gql_ast::SchemaExtension;
use gql_diag_messages::{DiagnosticData, Rule};
use jb_text::{Listed, Memory};
use std::alloc::Global;

/// Lists each of these extensions of a schema that is not there.
pub(crate) fn list_orphan_schema_extensions(
    alloc: Global,
    extensions: &Listed<SchemaExtension>,
    faults: &mut Listed<DiagnosticData>,
) -> Result<(), Memory>
    ensures { OnOk result (faults.new ≡ faults.old ++ spec.orphan_schema_extensions extensions.now) }
{
    for extension in extensions.as_slice() {
        list_nameless(
            alloc,
            Rule::OrphanSchemaExtension,
            extension.location,
            None,
            faults,
        )?;
    }
    Ok(())
}
