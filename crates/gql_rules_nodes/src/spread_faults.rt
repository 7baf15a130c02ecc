//! What is wrong with the spreads of a document.

ghost use Rattle.std.specs.Prelude.{◌≡◌, ◌++◌, List, OnOk};
ghost use Rattle.gql_diag_messages.specs.declared.diagnostic_data.DiagnosticData as item;
ghost use Rattle.gql_rules_nodes.specs.SpreadFaults as spec;

use crate::recursive_fragment_definition::list_recursive_fragments;
use crate::undefined_fragment::list_undefined_fragments;
use gql_diag_messages::DiagnosticData;
use gql_document_types::ExecutableDocument;
use jb_text::{Listed, Memory};
use std::alloc::Global;

/// Lists each spread of a fragment that is not defined, each fragment that spreads itself, be it through others, and each from
/// which a chain of more than 32 names begins though it reaches none of these. `Err` only when out of memory.
pub fn list_spread_faults(
    alloc: Global,
    document: &ExecutableDocument,
    faults: &mut Listed<DiagnosticData>,
) -> Result<(), Memory>
    ensures { OnOk result ((told : List item.DiagnosticData) × spec.AreSpreadFaults document.now told × (faults.new ≡ faults.old ++ told)) }
{
    list_undefined_fragments(alloc, document, faults)?;
    list_recursive_fragments(alloc, &document.fragments, faults)
}
