//! Texts as references to types (GraphQL October 2021, section 3.11).

use crate::documents::listed;
use crate::fixtures::bytes_of;
use bytes::Bytes;
use gql_ast::print_type;
use gql_ast_base::TypeRef;
use gql_parser::Parser;
use gql_source::FileIds;
use jb_text::{Memory, Refused};
use std::alloc::Global;
use std::test::Fail;

/// Texts, and each type as it is printed or what is wrong with the text.
const ROWS: &[(&str, &str)] = &[
    ("Foo", "Foo"),
    (" [ Foo! ] ! ", "[Foo!]!"),
    ("[[Foo]]", "[[Foo]]"),
    (
        "[",
        r#"{"errors":[{"message":"syntax error: Unexpected <EOF>.","locations":[{"line":1,"column":2}]}]}"#,
    ),
];

/// What a text is as a type.
fn type_text(alloc: Global, text: &str) -> Result<Bytes, Fail> {
    let mut ids = FileIds::new();
    match Parser::new().parse_type(alloc, text, "type.graphql", &mut ids) {
        Ok(ty) => Ok(printed(alloc, &ty)?),
        Err(Refused::Fault(errors)) => listed(alloc, errors),
        Err(Refused::Memory) => Err("no memory")?,
    }
}

fn printed(alloc: Global, ty: &TypeRef) -> Result<Bytes, Memory> {
    let text = print_type(alloc, ty)?;
    bytes_of(alloc, text.as_str())
}

#[test]
fn types_are_read(rt: HostRuntime) -> Result<(), Fail> {
    for (text, answer) in ROWS {
        let found = type_text(rt.alloc(), text)?;
        assert_eq!(rt; found.as_slice(), answer.as_bytes(), "{text:?}");
    }
    Ok(())
}
