//! Documents of the tests, and what they are expanded to.

ghost use Rattle.std.specs.Prelude.{OnOk};
ghost use Rattle.gql_document_types.specs.Spreads.{AreAcyclic};

use crate::expansion::written::operation_text;
use gql_document_types::{ExecutableDocument, expand_fragments};
use gql_parser::Parser;
use gql_schema_types::{Schema, Valid};
use gql_source::FileIds;
use jb_text::Refused;
use std::alloc::Global;
use std::mem::{ManuallyDrop, forget};
use std::test::Fail;

/// The selections of a query on a schema once each spread is replaced, or `too large`.
pub(crate) fn expanded(
    alloc: Global,
    schema: &str,
    query: &str,
    limit: usize,
) -> Result<String, Fail> {
    let mut ids = FileIds::new();
    match Parser::new().parse_schema(alloc, schema, "schema.graphql", &mut ids) {
        Ok(schema) => {
            let schema = ManuallyDrop::new(Valid::assume_valid(schema));
            of_document(alloc, &*schema, query, limit)
        }
        Err(refused) => {
            forget(refused);
            Err("the schema is not built")?
        }
    }
}

/// The same on a schema that is built.
fn of_document(
    alloc: Global,
    schema: &Valid<Schema>,
    query: &str,
    limit: usize,
) -> Result<String, Fail> {
    let mut ids = FileIds::new();
    match Parser::new().parse_executable(alloc, schema, query, "query.graphql", &mut ids) {
        Ok(document) => of_operation(alloc, &ManuallyDrop::new(document), limit),
        Err(refused) => {
            forget(refused);
            Err("the document is not built")?
        }
    }
}

/// The same of the only operation of a document.
fn of_operation(
    alloc: Global,
    document: &ExecutableDocument,
    limit: usize,
) -> Result<String, Fail> {
    acyclic(alloc, document)?;
    let Some(operation) = document.operations.get(0) else {
        return Err("no operation".into());
    };
    match expand_fragments(alloc, document, operation, limit) {
        Ok(made) => operation_text(alloc, &ManuallyDrop::new(made)),
        Err(Refused::Fault(_)) => Ok(String::from_str(alloc, "too large")?),
        Err(Refused::Memory) => Err("no memory")?,
    }
}

/// Fails where a fragment leads back to itself.
fn acyclic(alloc: Global, document: &ExecutableDocument) -> Result<(), Fail>
    ensures { OnOk result (AreAcyclic document.now.fragments) }
{
    if document.fragments_acyclic(alloc)? {
        return Ok(());
    }
    Err("a fragment leads back to itself")?
}
