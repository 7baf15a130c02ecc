//! What a file builds as a schema and as an executable document.

ghost use Rattle.std.specs.Prelude.{◌≡◌, ◌++◌, IfOk};
ghost use Rattle.gql_diag.specs.List.{IsStableSort};
ghost use Rattle.gql_diag.specs.Order.{list_order};
ghost use Rattle.gql_parser.specs.bridge.MixedBuilt.{IsDocumentBuilt, IsSchemaBuilt};

use crate::file_read::no_faults;
use gql_ast::Document;
use gql_diag::{DiagnosticData, DiagnosticList, WithErrors};
use gql_document::ExecutableDocumentBuilder;
use gql_document_types::ExecutableDocument;
use gql_schema::{Schema, SchemaBuilder};
use gql_source::SourceMap;
use jb_text::{Memory, Refused};
use std::alloc::{AllocError, Global};

/// The schema that a file builds, and each fault of the build.
pub(crate) fn built_schema(
    alloc: Global,
    file: &Document,
    errors: DiagnosticList,
) -> Result<(Schema, Vec<DiagnosticData>), Memory>
    ensures { IfOk result (λ made. IsSchemaBuilt file.now errors made.0 made.1.items) }
{
    let mut builder = SchemaBuilder::new(alloc)?;
    builder.add_ast(file, errors, false)?;
    match builder.build() {
        Ok(schema) => Ok((schema, Vec::new(alloc))),
        Err(Refused::Fault(refusal)) => Ok(parts(refusal)),
        Err(Refused::Memory) => Err(AllocError),
    }
}

/// The executable document that a file builds against the schema, and each fault of the build.
pub(crate) fn built_document(
    alloc: Global,
    schema: &Schema,
    file: Document,
) -> Result<(ExecutableDocument, Vec<DiagnosticData>), Memory>
    ensures { IfOk result (λ made. IsDocumentBuilt schema.now file made.0 made.1.items) }
{
    let mut builder = ExecutableDocumentBuilder::new(alloc, schema);
    builder.take_ast(file, no_faults(alloc), false)?;
    match builder.build() {
        Ok(document) => Ok((document, Vec::new(alloc))),
        Err(Refused::Fault(refusal)) => Ok(parts(refusal)),
        Err(Refused::Memory) => Err(AllocError),
    }
}

/// What could be made, and the faults.
fn parts<T>(refusal: WithErrors<T>) -> (T, Vec<DiagnosticData>)
    ensures partial { result.0 ≡ refusal.partial }
    ensures items { result.1.items ≡ refusal.errors.items }
{
    let WithErrors { partial, errors } = refusal;
    let (_, items) = errors.into_parts();
    (partial, items)
}

/// These diagnostics in the order of lists, with copies of these files.
pub(crate) fn told(
    alloc: Global,
    sources: &SourceMap,
    firsts: Vec<DiagnosticData>,
    others: Vec<DiagnosticData>,
) -> Result<DiagnosticList, Memory>
    ensures items { IfOk result (λ list. IsStableSort list_order (firsts.items ++ others.items) list.items) }
    ensures sources { IfOk result (λ list. list.sources ≡ sources.now) }
{
    let mut list = DiagnosticList::new(alloc, sources.copy(alloc)?);
    list.append(firsts)?;
    list.append(others)?;
    list.sort()?;
    Ok(list)
}
