//! The document of a text.

ghost use Rattle.std.specs.Prelude.{IfOk};
ghost use Rattle.gql_document_types.specs.Spreads.{AreAcyclic};
ghost use Rattle.gql_parser.specs.DocumentAnswers.{IsDocumentAnswer};
ghost use Rattle.gql_parser.specs.bridge.DocumentAnswers.{IsBuildRead, IsRuled};
ghost use Rattle.gql_rules_nodes.specs.PossibleTable.{ArePossibleIn};

use crate::parser::Parser;
use gql_diag::DiagnosticList;
use gql_document_types::ExecutableDocument;
use gql_rules::{PossibleTypes, validate_document_with};
use gql_schema_types::{Schema, Valid};
use gql_source::FileIds;
use jb_text::Refused;
use std::alloc::Global;

/// The number of the text's file: the schema's text has the one before.
const FILE_NUMBER: u64 = 4;

/// The document that a text means against a schema (GraphQL October 2021, sections 2 and 5). The text is the file of number 4,
/// `query.graphql`, and is nested at most 500 deep; any number of tokens is read. The document has that one file, and no fragment of it
/// leads back to itself.
///
/// # Errors
///
/// The diagnostics of the first phase that finds something, exactly where one does: the one that ends the reading of the
/// text, or those of the build, or those of the rules, in the order of lists and with the text's file. Of the rules, those on
/// spreads that lead nowhere, back or too far come before all others. Otherwise only when out of memory.
pub fn document_of_text(
    alloc: Global,
    schema: &Valid<Schema>,
    text: &str,
) -> Result<Valid<ExecutableDocument>, Refused<DiagnosticList>>
    ensures answer { IsDocumentAnswer schema.now text.now result }
    ensures acyclic { IfOk result (λ document. AreAcyclic document.fragments) }
{
    let document = build_read(alloc, schema, text)?;
    ruled(alloc, schema.as_ref(), document)
}

/// The same with the possible types of the schema, which are made once for any number of texts.
///
/// # Errors
///
/// Those of [`document_of_text`], exactly where they come there.
pub fn document_of_text_with(
    alloc: Global,
    schema: &Valid<Schema>,
    possible: &PossibleTypes,
    text: &str,
) -> Result<Valid<ExecutableDocument>, Refused<DiagnosticList>>
    requires { ArePossibleIn schema.now.types possible.now }
    ensures answer { IsDocumentAnswer schema.now text.now result }
    ensures acyclic { IfOk result (λ document. AreAcyclic document.fragments) }
{
    let document = build_read(alloc, schema, text)?;
    ruled_with(alloc, schema.as_ref(), possible, document)
}

/// The document that is built of a text, before its rules are checked.
fn build_read(
    alloc: Global,
    schema: &Valid<Schema>,
    text: &str,
) -> Result<ExecutableDocument, Refused<DiagnosticList>>
    ensures { IsBuildRead schema.now text.now result }
{
    let mut parser = Parser::new();
    let mut ids = FileIds::starting_at(FILE_NUMBER);
    match parser.parse_executable(alloc, schema, text, "query.graphql", &mut ids) {
        Ok(document) => Ok(document),
        Err(Refused::Fault(refusal)) => Err(Refused::Fault(refusal.errors)),
        Err(Refused::Memory) => Err(Refused::Memory),
    }
}

/// The document itself, if every rule holds.
fn ruled(
    alloc: Global,
    schema: &Schema,
    document: ExecutableDocument,
) -> Result<Valid<ExecutableDocument>, Refused<DiagnosticList>>
    ensures { IsRuled schema.now document result }
{
    let possible = PossibleTypes::new(alloc, schema)?;
    ruled_with(alloc, schema, &possible, document)
}

/// The same with the possible types of the schema.
fn ruled_with(
    alloc: Global,
    schema: &Schema,
    possible: &PossibleTypes,
    document: ExecutableDocument,
) -> Result<Valid<ExecutableDocument>, Refused<DiagnosticList>>
    requires { ArePossibleIn schema.now.types possible.now }
    ensures { IsRuled schema.now document result }
{
    let mut errors = DiagnosticList::new(alloc, document.sources.copy(alloc)?);
    validate_document_with(alloc, schema, possible, &document, &mut errors)?;
    if errors.is_empty() {
        Ok(Valid::assume_valid(document))
    } else {
        Err(Refused::Fault(errors))
    }
}
