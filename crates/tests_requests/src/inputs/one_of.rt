//! Values of one-of input objects, in variables and in literals that validation would have refused (GraphQL September 2025,
//! section 3.10.1).

use crate::inputs::answered_otherwise;
use std::test::Fail;

/// Operations, the values that their variables are given, and the responses.
const VARIABLES: &[(&str, &str, &str)] = &[
    (
        "query($v: O) { o0(a: $v) }",
        r#"{"v":{"i":1}}"#,
        r#"{"data":{"o0":{"a":{"i":1}}}}"#,
    ),
    (
        "query($v: O) { o0(a: $v) }",
        r#"{"v":{"o":{"l":2}}}"#,
        r#"{"data":{"o0":{"a":{"o":{"l":[2]}}}}}"#,
    ),
    (
        "query($v: O) { o0(a: $v) }",
        r#"{"v":{}}"#,
        r#"{"errors":[{"message":"input object O must have exactly one member"}]}"#,
    ),
    (
        "query($v: O) { o0(a: $v) }",
        r#"{"v":{"i":1,"l":2}}"#,
        r#"{"errors":[{"message":"input object O must have exactly one member"}]}"#,
    ),
    (
        "query($v: O) { o0(a: $v) }",
        r#"{"v":{"i":null}}"#,
        r#"{"errors":[{"message":"null value for member O.i of a one-of input object"}]}"#,
    ),
    (
        "query($v: [O!]) { o1(a: $v) }",
        r#"{"v":[{"i":1},{"l":null}]}"#,
        r#"{"errors":[{"message":"null value for member O.l of a one-of input object"}]}"#,
    ),
    (
        "query($v: O) { o0(a: $v) }",
        r#"{"v":{"o":{"o":{}}}}"#,
        r#"{"errors":[{"message":"input object O must have exactly one member"}]}"#,
    ),
    // A key that is no field is told first, then the count, then null, then what is wrong with the fields.
    (
        "query($v: O) { o0(a: $v) }",
        r#"{"v":{"i":1,"z":1}}"#,
        r#"{"errors":[{"message":"Input object has key z not in type O"}]}"#,
    ),
    (
        "query($v: O) { o0(a: $v) }",
        r#"{"v":{"i":"text","l":null}}"#,
        r#"{"errors":[{"message":"input object O must have exactly one member"}]}"#,
    ),
    (
        "query($v: P) { p0(a: $v) }",
        r#"{"v":{"r":null}}"#,
        r#"{"errors":[{"message":"null value for member P.r of a one-of input object"}]}"#,
    ),
    (
        "query($v: P) { p0(a: $v) }",
        r#"{"v":{"i":1}}"#,
        r#"{"errors":[{"message":"Missing value for non-null input object field P.r"}]}"#,
    ),
];

#[test]
fn variables_have_one_member(rt: HostRuntime) -> Result<(), Fail> {
    let wrong = answered_otherwise(rt.alloc(), VARIABLES)?;
    assert_eq!(rt; wrong.as_str(), "");
    Ok(())
}

/// Queries, the values that their variables are given, and the responses.
const LITERALS: &[(&str, &str, &str)] = &[
    (
        "{ o0(a: {i: 1}) }",
        "{}",
        r#"{"data":{"o0":{"a":{"i":1}}}}"#,
    ),
    (
        "{ o1(a: {l: 2}) }",
        "{}",
        r#"{"data":{"o1":{"a":[{"l":[2]}]}}}"#,
    ),
    (
        "{ o0(a: {}) }",
        "{}",
        r#"{"errors":[{"message":"input object O must have exactly one member","locations":[{"line":1,"column":9}],"path":["o0"]}],"data":{"o0":null}}"#,
    ),
    (
        "{ o0(a: {i: 1, l: 2}) }",
        "{}",
        r#"{"errors":[{"message":"input object O must have exactly one member","locations":[{"line":1,"column":9}],"path":["o0"]}],"data":{"o0":null}}"#,
    ),
    (
        "{ o0(a: {i: null}) }",
        "{}",
        r#"{"errors":[{"message":"null value for member O.i of a one-of input object","locations":[{"line":1,"column":9}],"path":["o0"]}],"data":{"o0":null}}"#,
    ),
    (
        "{ o1(a: [{i: 1}, {}]) }",
        "{}",
        r#"{"errors":[{"message":"input object O must have exactly one member","locations":[{"line":1,"column":18}],"path":["o1"]}],"data":{"o1":null}}"#,
    ),
    (
        "{ o0(a: {o: {l: null}}) }",
        "{}",
        r#"{"errors":[{"message":"null value for member O.l of a one-of input object","locations":[{"line":1,"column":13}],"path":["o0"]}],"data":{"o0":null}}"#,
    ),
    // A repeated key counts once, with its last value.
    (
        "{ o0(a: {i: null, i: 2}) }",
        "{}",
        r#"{"data":{"o0":{"a":{"i":2}}}}"#,
    ),
    (
        "{ o0(a: {i: 1, i: null}) }",
        "{}",
        r#"{"errors":[{"message":"null value for member O.i of a one-of input object","locations":[{"line":1,"column":9}],"path":["o0"]}],"data":{"o0":null}}"#,
    ),
    (
        "{ o0(a: {i: 1, l: 2, i: 3}) }",
        "{}",
        r#"{"errors":[{"message":"input object O must have exactly one member","locations":[{"line":1,"column":9}],"path":["o0"]}],"data":{"o0":null}}"#,
    ),
    // A key that is no field is told first, then the count, then null, then what is wrong with the fields.
    (
        "{ o0(a: {i: 1, z: 1}) }",
        "{}",
        r#"{"errors":[{"message":"input object has key z not in type O","locations":[{"line":1,"column":9}],"path":["o0"]}],"data":{"o0":null}}"#,
    ),
    (
        "{ o0(a: {i: null, l: null}) }",
        "{}",
        r#"{"errors":[{"message":"input object O must have exactly one member","locations":[{"line":1,"column":9}],"path":["o0"]}],"data":{"o0":null}}"#,
    ),
    (
        "{ p0(a: {r: null}) }",
        "{}",
        r#"{"errors":[{"message":"null value for member P.r of a one-of input object","locations":[{"line":1,"column":9}],"path":["p0"]}],"data":{"p0":null}}"#,
    ),
    (
        "{ p0(a: {i: 1}) }",
        "{}",
        r#"{"errors":[{"message":"Missing value for non-null input object field P.r","locations":[{"line":1,"column":9}],"path":["p0"]}],"data":{"p0":null}}"#,
    ),
];

#[test]
fn literals_have_one_member(rt: HostRuntime) -> Result<(), Fail> {
    let wrong = answered_otherwise(rt.alloc(), LITERALS)?;
    assert_eq!(rt; wrong.as_str(), "");
    Ok(())
}

/// The same where a variable is the one member.
const VARIABLE_MEMBERS: &[(&str, &str, &str)] = &[
    (
        "query($v: Int) { o0(a: {i: $v}) }",
        r#"{"v":1}"#,
        r#"{"data":{"o0":{"a":{"i":1}}}}"#,
    ),
    (
        "query($v: O) { o0(a: {o: $v}) }",
        r#"{"v":{"i":1}}"#,
        r#"{"data":{"o0":{"a":{"o":{"i":1}}}}}"#,
    ),
    (
        "query($v: Int) { o0(a: {i: $v}) }",
        r#"{"v":null}"#,
        r#"{"errors":[{"message":"null value for member O.i of a one-of input object","locations":[{"line":1,"column":24}],"path":["o0"]}],"data":{"o0":null}}"#,
    ),
    (
        "query($v: Int) { o0(a: {i: $v}) }",
        "{}",
        r#"{"errors":[{"message":"null value for member O.i of a one-of input object","locations":[{"line":1,"column":24}],"path":["o0"]}],"data":{"o0":null}}"#,
    ),
    (
        "query($v: Int) { o0(a: {i: 1, l: $v}) }",
        "{}",
        r#"{"errors":[{"message":"input object O must have exactly one member","locations":[{"line":1,"column":24}],"path":["o0"]}],"data":{"o0":null}}"#,
    ),
];

#[test]
fn variables_as_the_one_member_have_a_value(rt: HostRuntime) -> Result<(), Fail> {
    let wrong = answered_otherwise(rt.alloc(), VARIABLE_MEMBERS)?;
    assert_eq!(rt; wrong.as_str(), "");
    Ok(())
}
