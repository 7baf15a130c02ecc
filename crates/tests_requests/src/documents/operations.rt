//! Texts as executable documents, and their operations (GraphQL October 2021, sections 2.2 and 6.1).

use crate::documents::faults;
use crate::fixtures::{bytes_of, schema_of};
use bytes::Bytes;
use gql_diag::refusal_of_request;
use gql_document_types::{ExecutableDocument, Operation};
use gql_parser::Parser;
use gql_source::FileIds;
use jb_text::Refused;
use std::alloc::Global;
use std::mem::ManuallyDrop;
use std::test::Fail;

const SCHEMA: &str =
    "type Query { name: String topProducts: Product } type Product { inStock: Boolean }";

/// Queries, the name of an operation, and the operation's root type and the names of its root fields, or why there is none.
const ROWS: &[(&str, Option<&str>, &str)] = &[
    ("{ name }", None, "Query name"),
    ("query A { name }", None, "Query name"),
    ("query A { name }", Some("A"), "Query name"),
    (
        "query A { name } query B { topProducts { inStock } }",
        Some("B"),
        "Query topProducts",
    ),
    (
        "{ name ... { k: name } ...F ...F } fragment F on Query { topProducts { inStock } }",
        None,
        "Query name name topProducts",
    ),
    (
        "query A { name } query B { name }",
        None,
        r#"{"errors":[{"message":"document has 2 operations and no name was given"}]}"#,
    ),
    (
        "fragment F on Query { name }",
        None,
        r#"{"errors":[{"message":"document has 0 operations and no name was given"}]}"#,
    ),
    (
        "query A { name } query B { name }",
        Some("C"),
        r#"{"errors":[{"message":"operation `C` is not defined"}]}"#,
    ),
    (
        "{ name }",
        Some("A"),
        r#"{"errors":[{"message":"operation `A` is not defined"}]}"#,
    ),
    (
        "{ noName topProducts { price } }",
        None,
        r#"{"errors":[{"message":"type `Query` does not have a field `noName`","locations":[{"line":1,"column":3}]},{"message":"type `Product` does not have a field `price`","locations":[{"line":1,"column":24}]}]}"#,
    ),
    (
        "{ name",
        None,
        r#"{"errors":[{"message":"syntax error: Unexpected <EOF>.","locations":[{"line":1,"column":7}]}]}"#,
    ),
];

/// What the operation of the name asks of its root type, or why there is none.
fn operation_of(alloc: Global, query: &str, name: Option<&str>) -> Result<Bytes, Fail> {
    let mut ids = FileIds::new();
    let schema = schema_of(alloc, SCHEMA, &mut ids)?;
    match Parser::new().parse_executable(alloc, &*schema, query, "query.graphql", &mut ids) {
        Ok(document) => chosen(alloc, &ManuallyDrop::new(document), name),
        Err(refused) => faults(alloc, refused),
    }
}

/// The same of this document.
fn chosen(alloc: Global, document: &ExecutableDocument, name: Option<&str>) -> Result<Bytes, Fail> {
    match document.operations_get(alloc, name) {
        Ok(operation) => asked(alloc, document, operation),
        Err(Refused::Fault(error)) => Ok(refusal_of_request(alloc, &error, &document.sources)?),
        Err(Refused::Memory) => Err("no memory")?,
    }
}

/// The root type of an operation and its root fields.
fn asked(
    alloc: Global,
    document: &ExecutableDocument,
    operation: &Operation,
) -> Result<Bytes, Fail> {
    let mut text = String::from_str(alloc, operation.object_type().as_str())?;
    let fields = operation.root_fields(alloc, document)?;
    for field in fields.as_slice() {
        text.push_str(" ")?;
        text.push_str(field.name.as_str())?;
    }
    Ok(bytes_of(alloc, text.as_str())?)
}

#[test]
fn operations_are_found(rt: HostRuntime) -> Result<(), Fail> {
    for (query, name, answer) in ROWS {
        let found = operation_of(rt.alloc(), query, *name)?;
        assert_eq!(rt; found.as_slice(), answer.as_bytes(), "{query:?}");
    }
    Ok(())
}
