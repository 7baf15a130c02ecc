//! Documents of their operations and fragments.

ghost use Rattle.std.specs.Prelude.{◌≡◌, ◌++◌, IfOk, OnOk};
ghost use Rattle.gql_document.specs.Build as spec;

use crate::built_fragments::built_fragments;
use crate::built_operations::built_operations;
use crate::executable_definitions::ExecutableDefinitions;
use crate::fragment_name_collision::first_fragments;
use crate::operation_faults::Judge;
use crate::operation_name_collision::first_operations;
use gql_diag_messages::DiagnosticData;
use gql_document_types::ExecutableDocument;
use gql_schema_types::Schema;
use gql_source::SourceMap;
use jb_text::{Listed, Memory};
use std::alloc::Global;

/// The document of these operations and fragments against a schema, and the faults in them: what a fault lists is left out,
/// but a subscription stays whole whatever it selects at its root. `Err` only when out of memory.
///
/// Of definitions of one name the first stays, and what is inside the others is not looked at.
pub(crate) fn build_document(
    alloc: Global,
    schema: &Schema,
    sources: SourceMap,
    definitions: ExecutableDefinitions,
    faults: &mut Listed<DiagnosticData>,
) -> Result<ExecutableDocument, Memory>
    ensures document { IfOk result (λ document. document ≡ spec.built schema.now sources definitions) }
    ensures faults { OnOk result (faults.new ≡ faults.old ++ spec.build_faults schema.now definitions) }
{
    let ExecutableDefinitions {
        operations,
        fragments,
    } = definitions;
    let operations = first_operations(alloc, operations, faults)?;
    let fragments = first_fragments(alloc, fragments, faults)?;
    let judge = Judge {
        alloc,
        schema,
        fragments: &fragments,
    };
    judge.list_inside(&operations, faults)?;
    let operations = built_operations(alloc, schema, operations)?;
    let fragments = built_fragments(alloc, schema, fragments)?;
    Ok(ExecutableDocument {
        sources,
        operations,
        fragments,
    })
}
