//! All that is wrong with definitions, whatever the schema.

ghost use Rattle.std.specs.Prelude.{◌≡◌, ◌++◌, List, IfOk, OnOk};
ghost use Rattle.gql_diag_messages.specs.declared.diagnostic_data.DiagnosticData as item;
ghost use Rattle.gql_rules.specs.DocumentFaults.{AreFirstOrAll};
ghost use Rattle.gql_rules.specs.NoSchema.{no_schema as no_schema_of};
ghost use Rattle.gql_rules.specs.UntypedDocument.{untyped_document as document_of};
ghost use Rattle.gql_rules.specs.UntypedFaults as spec;
ghost use Rattle.gql_rules.specs.VariableFaults.{AreVariableFaults};

use crate::no_schema::no_schema;
use crate::unique_arguments::list_unique_arguments;
use crate::unique_variables::list_unique_variables;
use crate::untyped_document::untyped_document;
use crate::variable_faults::list_variable_faults;
use gql_ast::Definition;
use gql_diag_messages::DiagnosticData;
use gql_document::{ExecutableDefinitions, distinct_definitions};
use gql_document_types::ExecutableDocument;
use gql_rules_nodes::{list_spread_faults, list_unused_fragments};
use jb_text::{Listed, Memory};
use std::alloc::Global;

/// What is wrong with the definitions of a document, whatever the schema: one diagnostic for each fault of each rule.
///
/// First come definitions of a type system, operations without a name among several, and second definitions of a name
/// (GraphQL October 2021, sections 5.1.1, 5.2 and 5.5.1.1). Where there are none, spreads that lead nowhere, back or through more
/// than 32 names (section 5.5.2). Where there are none of these either, fragments that are not used, second variables and second
/// arguments of a name, and variables that are not used or not defined (sections 5.4.2, 5.5.1.4 and 5.8).
///
/// `Err` only when out of memory.
pub(crate) fn list_untyped_faults(
    alloc: Global,
    definitions: &Listed<Definition>,
) -> Result<Listed<DiagnosticData>, Memory>
    ensures { IfOk result (λ faults. spec.AreUntypedFaults definitions.now faults) }
{
    let mut faults = Listed::new(alloc);
    let distinct = distinct_definitions(alloc, definitions, &mut faults)?;
    faults_unless_any(alloc, distinct, faults)
}

/// These faults alone, if there are some, and else what is wrong with the document that distinct definitions are.
fn faults_unless_any(
    alloc: Global,
    definitions: ExecutableDefinitions,
    firsts: Listed<DiagnosticData>,
) -> Result<Listed<DiagnosticData>, Memory>
    ensures { IfOk result (λ faults. AreFirstOrAll (spec.AreDocumentFaults (document_of definitions)) firsts faults) }
{
    if firsts.is_empty() {
        distinct_faults(alloc, definitions)
    } else {
        Ok(firsts)
    }
}

/// What is wrong with the document that distinct definitions are.
fn distinct_faults(
    alloc: Global,
    definitions: ExecutableDefinitions,
) -> Result<Listed<DiagnosticData>, Memory>
    ensures { IfOk result (λ faults. spec.AreDocumentFaults (document_of definitions) faults) }
{
    let document = untyped_document(alloc, definitions)?;
    document_faults(alloc, &document)
}

/// What is wrong with a document in which no type is known.
fn document_faults(
    alloc: Global,
    document: &ExecutableDocument,
) -> Result<Listed<DiagnosticData>, Memory>
    ensures { IfOk result (λ faults. spec.AreDocumentFaults document.now faults) }
{
    let mut spreads = Listed::new(alloc);
    list_spread_faults(alloc, document, &mut spreads)?;
    others_unless_any(alloc, document, spreads)
}

/// These faults alone, if there are some, and else what the other rules say.
fn others_unless_any(
    alloc: Global,
    document: &ExecutableDocument,
    firsts: Listed<DiagnosticData>,
) -> Result<Listed<DiagnosticData>, Memory>
    ensures { IfOk result (λ faults. AreFirstOrAll (spec.AreOtherFaults document.now) firsts faults) }
{
    if firsts.is_empty() {
        other_faults(alloc, document)
    } else {
        Ok(firsts)
    }
}

/// What is wrong with a document whose spreads are right.
fn other_faults(
    alloc: Global,
    document: &ExecutableDocument,
) -> Result<Listed<DiagnosticData>, Memory>
    ensures { IfOk result (λ faults. spec.AreOtherFaults document.now faults) }
{
    let mut faults = Listed::new(alloc);
    list_unused_fragments(alloc, document, &mut faults)?;
    list_uses(alloc, document, &mut faults)?;
    list_unique_variables(alloc, document.operations.as_slice(), &mut faults)?;
    list_unique_arguments(alloc, document, &mut faults)?;
    Ok(faults)
}

/// Lists what is wrong with the uses of variables, as far as no type is asked for.
fn list_uses(
    alloc: Global,
    document: &ExecutableDocument,
    faults: &mut Listed<DiagnosticData>,
) -> Result<(), Memory>
    ensures { OnOk result ((told : List item.DiagnosticData) × AreVariableFaults no_schema_of document.now told × (faults.new ≡ faults.old ++ told)) }
{
    let schema = no_schema(alloc)?;
    list_variable_faults(alloc, &schema, document, faults)
}
