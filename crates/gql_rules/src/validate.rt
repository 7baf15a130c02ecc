//! The validation of documents.

ghost use Rattle.std.specs.Prelude.{◌≡◌, OnOk, OnErr};
ghost use Rattle.gql_rules.specs.DocumentFaults.{HasListedAllFaults, HasListedSomeFaults};
ghost use Rattle.gql_rules_nodes.specs.PossibleTable.{ArePossibleIn};

use crate::document_faults::document_faults;
use gql_diag::{DiagnosticList, take_faults};
use gql_document_types::ExecutableDocument;
use gql_rules_nodes::PossibleTypes;
use gql_schema_types::Schema;
use jb_text::Memory;
use std::alloc::Global;

/// Lists what is wrong with a document by the schema that it was built against (GraphQL October 2021, section 5): one diagnostic
/// for each fault of each rule, and none else, in the order of lists. Where a spread leads nowhere, back or through more than 32
/// names, that alone is listed.
///
/// `Err` only when out of memory: then the list has some of the faults.
pub fn validate_document(
    alloc: Global,
    schema: &Schema,
    document: &ExecutableDocument,
    errors: &mut DiagnosticList,
) -> Result<(), Memory>
    ensures faults { OnOk result (HasListedAllFaults schema.now document.now errors.old.items errors.new.items) }
    ensures sources { errors.new.sources ≡ errors.old.sources }
    ensures some { OnErr result (HasListedSomeFaults schema.now document.now errors.old.items errors.new.items) }
{
    let possible = PossibleTypes::new(alloc, schema)?;
    validate_document_with(alloc, schema, &possible, document, errors)
}

/// The same with the possible types of the schema, which are made once for any number of documents.
///
/// `Err` only when out of memory: then the list has some of the faults.
pub fn validate_document_with(
    alloc: Global,
    schema: &Schema,
    possible: &PossibleTypes,
    document: &ExecutableDocument,
    errors: &mut DiagnosticList,
) -> Result<(), Memory>
    requires { ArePossibleIn schema.now.types possible.now }
    ensures faults { OnOk result (HasListedAllFaults schema.now document.now errors.old.items errors.new.items) }
    ensures sources { errors.new.sources ≡ errors.old.sources }
    ensures some { OnErr result (HasListedSomeFaults schema.now document.now errors.old.items errors.new.items) }
{
    let faults = document_faults(alloc, schema, possible, document)?;
    take_faults(faults, errors)
}
