//! The schema and the document of a file, if nothing is wrong with them.

ghost use Rattle.std.specs.Prelude.{List};
ghost use Rattle.gql_diag.specs.List.{IsStableSort};
ghost use Rattle.gql_diag.specs.Order.{list_order};
ghost use Rattle.gql_diag_messages.specs.declared.diagnostic_data.DiagnosticData as item;
ghost use Rattle.gql_parser.specs.FileRead.{IsFileRead};
ghost use Rattle.gql_parser.specs.Parsers.{Given, ParserState};
ghost use Rattle.gql_parser.specs.bridge.MixedBuilt.{IsDocumentRuled};
ghost use Rattle.gql_parser.specs.MixedRead.{IsMixedAnswer};

use crate::file_read::FileRead;
use crate::mixed_built::{built_document, built_schema, told};
use crate::mixed_ruled::check_all;
use gql_ast::Document;
use gql_diag::{DiagnosticData, DiagnosticList};
use gql_document_types::ExecutableDocument;
use gql_schema::Schema;
use gql_schema_types::Valid;
use jb_text::Refused;
use std::alloc::Global;

/// The schema and the document that a file builds, if neither the builds nor the rules find a fault.
pub(crate) fn both(
    alloc: Global,
    file: FileRead,
) -> Result<(Valid<Schema>, Valid<ExecutableDocument>), Refused<DiagnosticList>>
    ensures { (parser : ParserState) (given : Given) → IsFileRead parser given file.document file.errors → IsMixedAnswer parser given result }
{
    let FileRead { document, errors } = file;
    let (mut schema, faults) = built_schema(alloc, &document, errors)?;
    let document = document_against(alloc, &mut schema, document, faults)?;
    Ok((Valid::assume_valid(schema), Valid::assume_valid(document)))
}

/// The document that a file builds against a schema whose build found these faults, if there are none, nor others, and the rules
/// hold. The schema then is as validation leaves it.
fn document_against(
    alloc: Global,
    schema: &mut Schema,
    file: Document,
    faults: Vec<DiagnosticData>,
) -> Result<ExecutableDocument, Refused<DiagnosticList>>
    ensures { (firsts : List item.DiagnosticData) → IsStableSort list_order firsts faults.items
        → IsDocumentRuled schema.old schema.new file firsts result }
{
    let (document, others) = built_document(alloc, schema, file)?;
    let errors = told(alloc, &schema.sources, faults, others)?;
    check_all(alloc, schema, &document, errors)?;
    Ok(document)
}
