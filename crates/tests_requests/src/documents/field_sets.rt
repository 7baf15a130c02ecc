//! Texts as the fields of a type, with and without braces (GraphQL October 2021, section 2.4).

use crate::documents::faults;
use crate::fixtures::{bytes_of, schema_of};
use bytes::Bytes;
use gql_ast_base::Name;
use gql_document_types::{FieldSet, Selection};
use gql_parser::Parser;
use gql_source::FileIds;
use std::alloc::Global;
use std::mem::ManuallyDrop;
use std::test::Fail;

/// Names of types, texts, and the names of the fields, each behind a blank, or what is wrong with the text.
const ROWS: &[(&str, &str, &str)] = &[
    ("Query", "f", " f"),
    ("Query", "{ f }", " f"),
    ("Query", "f k: a { x } ", " f a"),
    (
        "Query",
        "g",
        r#"{"errors":[{"message":"type `Query` does not have a field `g`","locations":[{"line":1,"column":1}]}]}"#,
    ),
    (
        "Query",
        "{ f a { y } }",
        r#"{"errors":[{"message":"type `A` does not have a field `y`","locations":[{"line":1,"column":9}]}]}"#,
    ),
    (
        "Missing",
        "f",
        r#"{"errors":[{"message":"type `Missing` does not have a field `f`","locations":[{"line":1,"column":1}]}]}"#,
    ),
    (
        "Query",
        "{ f",
        r#"{"errors":[{"message":"syntax error: Unexpected <EOF>.","locations":[{"line":1,"column":4}]}]}"#,
    ),
];

/// What a text is as fields of the type of this name.
fn fields_of(alloc: Global, type_name: &str, text: &str) -> Result<Bytes, Fail> {
    let mut ids = FileIds::new();
    let schema = schema_of(
        alloc,
        "type Query { f: Int a: A } type A { x: Int }",
        &mut ids,
    )?;
    let name = Name::new(alloc, type_name).ok().ok_or("no name")?;
    match Parser::new().parse_field_set(alloc, &*schema, &name, text, "set.graphql", &mut ids) {
        Ok(set) => names_of(alloc, &ManuallyDrop::new(set)),
        Err(refused) => faults(alloc, refused),
    }
}

/// The names of the fields, each behind a blank.
fn names_of(alloc: Global, set: &FieldSet) -> Result<Bytes, Fail> {
    let mut names = String::new(alloc);
    for selection in set.selection_set.selections.as_slice() {
        let Selection::Field(field) = selection else {
            return Err("not a field")?;
        };
        names.push_str(" ")?;
        names.push_str(field.name.as_str())?;
    }
    Ok(bytes_of(alloc, names.as_str())?)
}

#[test]
fn field_sets_are_read(rt: HostRuntime) -> Result<(), Fail> {
    for (type_name, text, answer) in ROWS {
        let found = fields_of(rt.alloc(), type_name, text)?;
        assert_eq!(rt; found.as_slice(), answer.as_bytes(), "{text:?}");
    }
    Ok(())
}
