//! The schema of a text.

ghost use Rattle.std.specs.Prelude.{◌≡◌, IfOk};
ghost use Rattle.gql_schema.specs.BuiltInSchema.{built_in_sources};
ghost use Rattle.gql_source.specs.File.{joined};
ghost use Rattle.gql_schema.specs.Builders.{taken};
ghost use Rattle.gql_parser.specs.SchemaAnswers.{IsSchemaRead};
ghost use Rattle.gql_parser.specs.bridge.SchemaAnswers.{HasTaken, IsBuildRead, IsBuiltBy, IsDocumentRead, IsRuled};

use crate::parser::Parser;
use gql_ast::Document;
use gql_diag::{DiagnosticData, DiagnosticList};
use gql_schema::SchemaBuilder;
use gql_schema_rules::validate_schema;
use gql_schema_types::{Schema, Valid};
use gql_source::{FileIds, SourceMap};
use jb_text::{Memory, Refused};
use std::alloc::{AllocError, Global};

/// The schema that a text means, with the built-in definitions and with the built-in scalars as validation leaves them
/// (GraphQL October 2021, sections 2 and 3). The text is the file of number 3, `schema.graphql`, and is nested at most 500 deep; any
/// number of tokens is read.
///
/// # Errors
///
/// The diagnostics of the first phase that finds something, exactly where one does: the one that ends the reading of the
/// text, or those of the build, or those of the rules, in the order of lists and with the built-in file and the text's.
/// Otherwise only when out of memory.
pub fn schema_of_text(alloc: Global, text: &str) -> Result<Valid<Schema>, Refused<DiagnosticList>>
    ensures { IsSchemaRead text.now result }
{
    let schema = build_read(alloc, text)?;
    ruled(alloc, schema)
}

/// The schema that is built of a text, before its rules are checked.
fn build_read(alloc: Global, text: &str) -> Result<Schema, Refused<DiagnosticList>>
    ensures { IsBuildRead text.now result }
{
    match read(alloc, text) {
        Ok(document) => built(alloc, document),
        Err(Refused::Fault(list)) => Err(Refused::Fault(behind_built_in(alloc, list)?)),
        Err(Refused::Memory) => Err(Refused::Memory),
    }
}

/// The document that a text is.
fn read(alloc: Global, text: &str) -> Result<Document, Refused<DiagnosticList>>
    ensures { IsDocumentRead text.now result }
{
    let mut parser = Parser::new();
    let mut ids = FileIds::new();
    match parser.parse_ast(alloc, text, "schema.graphql", &mut ids) {
        Ok(document) => Ok(document),
        Err(Refused::Fault(refusal)) => Err(Refused::Fault(refusal.errors)),
        Err(Refused::Memory) => Err(Refused::Memory),
    }
}

/// The schema that is built of a document and the built-in definitions.
fn built(alloc: Global, document: Document) -> Result<Schema, Refused<DiagnosticList>>
    ensures { IsBuiltBy document result }
{
    let builder = builder_of(alloc, document)?;
    match builder.build() {
        Ok(schema) => Ok(schema),
        Err(Refused::Fault(refusal)) => Err(Refused::Fault(refusal.errors)),
        Err(Refused::Memory) => Err(Refused::Memory),
    }
}

/// A builder that has taken the built-in definitions and a document.
fn builder_of(alloc: Global, document: Document) -> Result<SchemaBuilder, Memory>
    ensures { IfOk result (λ builder. HasTaken document (taken builder)) }
{
    let mut builder = SchemaBuilder::new(alloc)?;
    let no_faults = DiagnosticList::new(alloc, SourceMap::new(alloc));
    builder.take_ast(document, no_faults, true)?;
    Ok(builder)
}

/// The list with the built-in file before its own.
fn behind_built_in(alloc: Global, list: DiagnosticList) -> Result<DiagnosticList, Memory>
    ensures { IfOk result (λ made. made ≡ record list { sources = joined built_in_sources list.sources }) }
{
    let (sources, items) = list.into_parts();
    let mut all = built_in_file(alloc)?;
    all.merge(sources)?;
    list_of(alloc, all, items)
}

/// The list of these diagnostics, with these files.
fn list_of(
    alloc: Global,
    sources: SourceMap,
    items: Vec<DiagnosticData>,
) -> Result<DiagnosticList, Memory>
    ensures { IfOk result (λ made. made ≡ record { sources = sources; items = items.items }) }
{
    let mut made = DiagnosticList::new(alloc, sources);
    made.append(items)?;
    Ok(made)
}

/// The built-in file alone.
fn built_in_file(alloc: Global) -> Result<SourceMap, Memory>
    ensures { IfOk result (λ sources. sources ≡ built_in_sources) }
{
    let schema = built_in_schema(alloc)?;
    schema.sources.copy(alloc)
}

/// A schema that has the built-in file alone.
fn built_in_schema(alloc: Global) -> Result<Schema, Memory>
    ensures { IfOk result (λ schema. schema.sources ≡ built_in_sources) }
{
    let builder = SchemaBuilder::new(alloc)?;
    match builder.build() {
        Ok(schema) => Ok(schema),
        Err(Refused::Fault(refusal)) => Ok(refusal.partial),
        Err(Refused::Memory) => Err(AllocError),
    }
}

/// The schema as validation leaves it, if every rule holds.
fn ruled(alloc: Global, schema: Schema) -> Result<Valid<Schema>, Refused<DiagnosticList>>
    ensures { IsRuled schema result }
{
    let mut schema = schema;
    let mut errors = DiagnosticList::new(alloc, schema.sources.copy(alloc)?);
    validate_schema(alloc, &mut schema, &mut errors)?;
    if errors.is_empty() {
        Ok(Valid::assume_valid(schema))
    } else {
        Err(Refused::Fault(errors))
    }
}
