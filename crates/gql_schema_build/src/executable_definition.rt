//! A schema has no operations and no fragments (GraphQL October 2021, section 3.1). Section 5.1.1, Executable Definitions, is the
//! rule TypeSystemDefinition on documents.

ghost use Rattle.std.specs.Prelude.{◌≡◌, ◌++◌, OnOk};
ghost use Rattle.gql_schema_build.specs.ExecutableDefinition as spec;

use crate::fault::list_word;
use gql_ast::Definition;
use gql_diag_messages::{DiagnosticData, Rule};
use jb_text::{Listed, Memory};
use std::alloc::Global;

/// Lists each operation and each fragment among the definitions. `Err` only when out of memory.
pub fn list_executable_definitions(
    alloc: Global,
    definitions: &Listed<Definition>,
    faults: &mut Listed<DiagnosticData>,
) -> Result<(), Memory>
    ensures { OnOk result (faults.new ≡ faults.old ++ spec.executable_definitions definitions.now) }
{
    for definition in definitions.as_slice() {
        list_executable(alloc, definition, faults)?;
    }
    Ok(())
}

/// Lists a definition if it is an operation or a fragment.
fn list_executable(
    alloc: Global,
    definition: &Definition,
    faults: &mut Listed<DiagnosticData>,
) -> Result<(), Memory>
    ensures { OnOk result (faults.new ≡ faults.old ++ spec.executable_definition definition.now) }
{
    match definition {
        Definition::OperationDefinition(it) => list_word(
            alloc,
            Rule::ExecutableDefinition,
            "an operation definition",
            it.location,
            None,
            faults,
        ),
        Definition::FragmentDefinition(it) => list_word(
            alloc,
            Rule::ExecutableDefinition,
            "a fragment definition",
            it.location,
            None,
            faults,
        ),
        _ => Ok(()),
    }
}
