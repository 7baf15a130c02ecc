//! All that is wrong with a document.

ghost use Rattle.std.specs.Prelude.{◌≡◌, ◌++◌, List, IfOk, OnOk};
ghost use Rattle.gql_diag_messages.specs.declared.diagnostic_data.DiagnosticData as item;
ghost use Rattle.gql_rules.specs.DocumentFaults as spec;
ghost use Rattle.gql_rules_nodes.specs.PossibleTable.{ArePossibleIn};

use crate::variable_faults::list_variable_faults;
use gql_diag_messages::DiagnosticData;
use gql_document_types::ExecutableDocument;
use gql_rules_merging::list_conflicting_fields;
use gql_rules_nodes::{
    PossibleTypes, list_document_nodes, list_spread_faults, list_unused_fragments,
};
use gql_schema_types::Schema;
use jb_text::{Listed, Memory};
use std::alloc::Global;

/// What is wrong with a document: one diagnostic for each fault of each rule. `possible` are the schema's possible types. `Err` only when
/// out of memory.
pub(crate) fn document_faults(
    alloc: Global,
    schema: &Schema,
    possible: &PossibleTypes,
    document: &ExecutableDocument,
) -> Result<Listed<DiagnosticData>, Memory>
    requires { ArePossibleIn schema.now.types possible.now }
    ensures { IfOk result (λ faults. spec.AreDocumentFaults schema.now document.now faults) }
{
    let mut faults = Listed::new(alloc);
    list_spread_faults(alloc, document, &mut faults)?;
    list_unless_any(alloc, schema, possible, document, &mut faults)?;
    Ok(faults)
}

/// Lists what the other rules say, if the spreads are right: if nothing is listed yet.
fn list_unless_any(
    alloc: Global,
    schema: &Schema,
    possible: &PossibleTypes,
    document: &ExecutableDocument,
    faults: &mut Listed<DiagnosticData>,
) -> Result<(), Memory>
    requires { ArePossibleIn schema.now.types possible.now }
    ensures { OnOk result (spec.AreFirstOrAll (spec.AreOtherFaults schema.now document.now) faults.old faults.new) }
{
    if faults.is_empty() {
        list_other_faults(alloc, schema, possible, document, faults)
    } else {
        Ok(())
    }
}

/// Lists what is wrong with a document whose spreads are right.
fn list_other_faults(
    alloc: Global,
    schema: &Schema,
    possible: &PossibleTypes,
    document: &ExecutableDocument,
    faults: &mut Listed<DiagnosticData>,
) -> Result<(), Memory>
    requires { ArePossibleIn schema.now.types possible.now }
    ensures { OnOk result ((told : List item.DiagnosticData) × spec.AreOtherFaults schema.now document.now told × (faults.new ≡ faults.old ++ told)) }
{
    list_document_nodes(alloc, schema, possible, document, faults)?;
    list_unused_fragments(alloc, document, faults)?;
    list_variable_faults(alloc, schema, document, faults)?;
    list_conflicting_fields(alloc, schema, document, faults)
}
