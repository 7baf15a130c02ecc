//! What is wrong with the uses of variables in a document.

ghost use Rattle.std.specs.Prelude.{◌≡◌, ◌++◌, List, OnOk};
ghost use Rattle.gql_diag_messages.specs.declared.diagnostic_data.DiagnosticData as item;
ghost use Rattle.gql_rules.specs.VariableFaults as spec;

use crate::operations::judge_operation;
use crate::rows::{fresh_rows, list_rows};
use gql_diag_messages::DiagnosticData;
use gql_document_types::{ExecutableDocument, spread_graph};
use gql_schema_types::Schema;
use jb_text::{Listed, Memory};
use std::alloc::Global;

/// Lists each use of a variable that an operation lacks, each variable that its operation does not use, and each use where
/// values of the variable's type may not stand (GraphQL October 2021, sections 5.8.3 to 5.8.5). A use is judged for each
/// operation that reaches it, and each of these rules lists it once, for the first operation in which it breaks the rule.
///
/// `Err` only when out of memory: then the list has some of the faults.
pub fn list_variable_faults<'d>(
    alloc: Global,
    schema: &'d Schema,
    document: &'d ExecutableDocument,
    faults: &mut Listed<DiagnosticData>,
) -> Result<(), Memory>
    ensures { OnOk result ((told : List item.DiagnosticData) × spec.AreVariableFaults schema.now document.now told × (faults.new ≡ faults.old ++ told)) }
{
    let graph = spread_graph(alloc, &document.fragments)?;
    let mut rows = fresh_rows(alloc, schema, document.fragments.as_slice())?;
    for operation in document.operations.as_slice() {
        rows = judge_operation(
            alloc,
            schema,
            &document.fragments,
            &graph,
            operation,
            rows,
            faults,
        )?;
    }
    list_rows(alloc, rows.as_slice(), faults)
}
