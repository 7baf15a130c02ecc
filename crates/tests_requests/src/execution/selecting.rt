//! Documents that validation would have refused: what they select (GraphQL October 2021, section 6.3.2).

use crate::execution::answered_otherwise;
use crate::sample::{Kind, Sample};
use std::test::Fail;

const SCHEMA: &str =
    "type Query { int: Int text: String other: Other } type Other { x: Int } type Third { x: Int }";

/// Queries, an object that each field is asked of, and the response.
const ROWS: &[(&str, Sample, &str)] = &[
    // A fragment that is not defined adds nothing.
    (
        "{ int ...Missing }",
        Sample::Number(7),
        r#"{"data":{"int":7}}"#,
    ),
    // A condition that is no truth value leaves nothing out, and the first of several counts.
    (
        r#"{ a: int @skip(if: 1) b: int @include(if: "false") c: int @skip d: int @include(if: null) }"#,
        Sample::Number(7),
        r#"{"data":{"a":7,"b":7,"c":7,"d":7}}"#,
    ),
    (
        "{ a: int @skip(if: $v) b: int @include(if: $v) }",
        Sample::Number(7),
        r#"{"data":{"a":7,"b":7}}"#,
    ),
    (
        "query($v: Int = 1, $w: Boolean = true) { a: int @skip(if: $v) b: int @skip(if: $w) c: int @include(if: $w) }",
        Sample::Number(7),
        r#"{"data":{"a":7,"c":7}}"#,
    ),
    (
        "{ a: int @skip(if: false) @skip(if: true) b: int @include(if: false) @include(if: true) c: int @skip(unless: true) }",
        Sample::Number(7),
        r#"{"data":{"a":7,"c":7}}"#,
    ),
    // Of the fields of one key the first counts.
    (
        "{ k: int k: text }",
        Sample::Number(7),
        r#"{"data":{"k":7}}"#,
    ),
    (
        "{ k: text k: int }",
        Sample::Number(7),
        r#"{"errors":[{"message":"resolver returned 7, expected String","locations":[{"line":1,"column":6}],"path":["k"]}],"data":{"k":null}}"#,
    ),
    // A fragment on a type that the object is not of adds nothing.
    (
        "{ other { x ... on Third { k: x } ... on Other { l: x } } }",
        Sample::Holds(Kind::Other),
        r#"{"data":{"other":{"x":1,"l":1}}}"#,
    ),
    // Introspection is off.
    (
        "{ __type(name: 1) { name } }",
        Sample::Null,
        r#"{"errors":[{"message":"resolver error: schema introspection is disabled","locations":[{"line":1,"column":3}],"path":["__type"]}],"data":{"__type":null}}"#,
    ),
    (
        "{ int __schema { queryType { name } } k: int }",
        Sample::Null,
        r#"{"errors":[{"message":"resolver error: schema introspection is disabled","locations":[{"line":1,"column":7}],"path":["__schema"]}],"data":null}"#,
    ),
];

#[test]
fn selections_are_collected(rt: HostRuntime) -> Result<(), Fail> {
    let wrong = answered_otherwise(rt.alloc(), SCHEMA, ROWS)?;
    assert_eq!(rt; wrong.as_str(), "");
    Ok(())
}
