//! The rules on a schema and a document that one file builds.

ghost use Rattle.std.specs.Prelude.{◌≡◌, [], List, OnOk};
ghost use Rattle.gql_diag.specs.List.{IsStableSort};
ghost use Rattle.gql_diag.specs.Order.{list_order};
ghost use Rattle.gql_diag_messages.specs.declared.diagnostic_data.DiagnosticData as item;
ghost use Rattle.gql_parser.specs.MixedRead.{AreMixedFaults, AreRuleFaults, IsHeld};
ghost use Rattle.gql_rules.specs.DocumentFaults.{AreDocumentFaults};
ghost use Rattle.gql_schema_rules.specs.Scalars.{validated};

use gql_diag::DiagnosticList;
use gql_document_types::ExecutableDocument;
use gql_rules::validate_document;
use gql_schema::Schema;
use gql_schema_rules::validate_schema;
use jb_text::Refused;
use std::alloc::Global;

/// Hands on the faults of the builds, if there are any, and else checks the rules. Where they hold, the schema is as validation
/// leaves it.
pub(crate) fn check_all(
    alloc: Global,
    schema: &mut Schema,
    document: &ExecutableDocument,
    errors: DiagnosticList,
) -> Result<(), Refused<DiagnosticList>>
    ensures held { (builds : List item.DiagnosticData) → IsStableSort list_order builds errors.items
        → IsHeld (AreMixedFaults schema.old document.now builds) errors.sources result }
    ensures schema { OnOk result (schema.new ≡ validated schema.old) }
{
    if errors.is_empty() {
        check_rules(alloc, schema, document, errors)
    } else {
        Err(Refused::Fault(errors))
    }
}

/// Checks the rules on schemas, and then, if these find no fault, those on documents.
fn check_rules(
    alloc: Global,
    schema: &mut Schema,
    document: &ExecutableDocument,
    mut errors: DiagnosticList,
) -> Result<(), Refused<DiagnosticList>>
    requires { errors.items ≡ [] }
    ensures held { IsHeld (AreRuleFaults schema.old document.now) errors.sources result }
    ensures schema { OnOk result (schema.new ≡ validated schema.old) }
{
    validate_schema(alloc, schema, &mut errors)?;
    if errors.is_empty() {
        check_document(alloc, schema, document, errors)
    } else {
        Err(Refused::Fault(errors))
    }
}

/// Checks the rules on documents.
fn check_document(
    alloc: Global,
    schema: &Schema,
    document: &ExecutableDocument,
    mut errors: DiagnosticList,
) -> Result<(), Refused<DiagnosticList>>
    requires { errors.items ≡ [] }
    ensures { IsHeld (AreDocumentFaults schema.now document.now) errors.sources result }
{
    validate_document(alloc, schema, document, &mut errors)?;
    if errors.is_empty() {
        Ok(())
    } else {
        Err(Refused::Fault(errors))
    }
}
