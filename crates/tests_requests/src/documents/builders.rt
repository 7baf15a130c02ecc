//! Executable documents of two texts, and what a build leaves of a document in which something is wrong (GraphQL October 2021,
//! section 2.2).

ghost use Rattle.std.specs.Prelude.{◌≡◌, ◌+◌, ◌^◌, ◌<◌};

use crate::documents::{faults, told_document};
use crate::fixtures::schema_of;
use bytes::Bytes;
use gql_diag::WithErrors;
use gql_document::ExecutableDocumentBuilder;
use gql_parser::Parser;
use gql_source::FileIds;
use jb_text::{Memory, Refused};
use std::alloc::Global;
use std::mem::{ManuallyDrop, forget};
use std::test::Fail;

const SCHEMA: &str =
    "type Query { name: String top: Product } type Product { inStock: Boolean } type Subscription { a: Int b: Int }";

/// Two texts, and what the document of both holds, or what is wrong with them.
const TOGETHER: &[(&str, &str, &str)] = &[
    (
        "query A { ...F }",
        "fragment F on Query { name } query B { top { inStock } }",
        "A on Query: F; B on Query: top { inStock }; F on Query: name; ",
    ),
    (
        "fragment F on Query { name }",
        "{ ...F }",
        "- on Query: F; F on Query: name; ",
    ),
    // Of one name the first stays, and a place is told in the file that it is in.
    (
        "query A { name } fragment F on Query { name }",
        "\nquery A { zz } fragment F on Product { inStock }",
        r#"{"errors":[{"message":"the operation `A` is defined multiple times in the document","locations":[{"line":2,"column":7}]},{"message":"the fragment `F` is defined multiple times in the document","locations":[{"line":2,"column":25}]}]}"#,
    ),
    (
        "{ name }",
        "query A { name }",
        r#"{"errors":[{"message":"anonymous operation cannot be selected when the document contains other operations","locations":[{"line":1,"column":1}]}]}"#,
    ),
    // A text that is no document adds nothing else.
    (
        "query A { name",
        "query A { zz }",
        r#"{"errors":[{"message":"syntax error: Unexpected <EOF>.","locations":[{"line":1,"column":15}]},{"message":"type `Query` does not have a field `zz`","locations":[{"line":1,"column":11}]}]}"#,
    ),
    (
        "query A { name }",
        "scalar A",
        r#"{"errors":[{"message":"an executable document must not contain a scalar type definition","locations":[{"line":1,"column":1}]}]}"#,
    ),
];

/// What the document of two texts is.
fn together(alloc: Global, first: &str, second: &str) -> Result<Bytes, Fail> {
    let mut ids = FileIds::new();
    let schema = schema_of(alloc, SCHEMA, &mut ids)?;
    let builder = ExecutableDocumentBuilder::new(alloc, schema.as_ref());
    let mut builder = ManuallyDrop::new(builder);
    add_text(alloc, first, &mut ids, &mut builder)?;
    add_text(alloc, second, &mut ids, &mut builder)?;
    match ManuallyDrop::into_inner(builder).build() {
        Ok(document) => told_document(alloc, &ManuallyDrop::new(document)),
        Err(refused) => faults(alloc, refused),
    }
}

/// Adds what a text defines.
fn add_text(
    alloc: Global,
    text: &str,
    ids: &mut FileIds,
    builder: &mut ExecutableDocumentBuilder<'_>,
) -> Result<(), Memory>
    requires { ids.old < 2 ^ 63 }
    ensures { ids.new ≡ ids.old + 1 }
{
    Parser::new().parse_into_executable_builder(alloc, text, "query.graphql", ids, builder)
}

#[test]
fn texts_make_one_document(rt: HostRuntime) -> Result<(), Fail> {
    for (first, second, answer) in TOGETHER {
        let found = together(rt.alloc(), first, second)?;
        assert_eq!(rt; found.as_slice(), answer.as_bytes(), "{second:?}");
    }
    Ok(())
}

/// Texts in which something is wrong, and what is left of them.
const LEFT: &[(&str, &str)] = &[
    ("{ name", ""),
    (
        "{ name zz { yy } top { price inStock } }",
        "- on Query: name top { inStock }; ",
    ),
    ("{ name { x } top { inStock { x } } }", "- on Query: top; "),
    (
        "{ ... on X { name } ... on Product { inStock } ... { zz } }",
        "- on Query: ... { inStock } ... { }; ",
    ),
    (
        "query A { name } query A { top { inStock } } { name } mutation M { name } scalar S",
        "A on Query: name; ",
    ),
    (
        "fragment F on X { name } fragment G on Query { name ...F zz } fragment G on Product { inStock }",
        "G on Query: name F; ",
    ),
    // A subscription stays, whatever it selects at its root.
    (
        "subscription { a @skip(if: true) b __typename }",
        "- on Subscription: a b __typename; ",
    ),
];

/// What is left of a text.
fn left_of(alloc: Global, text: &str) -> Result<Bytes, Fail> {
    let mut ids = FileIds::new();
    let schema = schema_of(alloc, SCHEMA, &mut ids)?;
    match Parser::new().parse_executable(alloc, &*schema, text, "query.graphql", &mut ids) {
        Ok(document) => {
            forget(document);
            Err("nothing is wrong")?
        }
        Err(Refused::Fault(WithErrors { partial, errors })) => {
            forget(errors);
            told_document(alloc, &ManuallyDrop::new(partial))
        }
        Err(Refused::Memory) => Err("no memory")?,
    }
}

#[test]
fn what_is_not_wrong_is_left(rt: HostRuntime) -> Result<(), Fail> {
    for (text, answer) in LEFT {
        let found = left_of(rt.alloc(), text)?;
        assert_eq!(rt; found.as_slice(), answer.as_bytes(), "{text:?}");
    }
    Ok(())
}
