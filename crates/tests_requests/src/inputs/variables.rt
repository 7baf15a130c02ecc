//! Variables of types that are not defined, or that are none for input (GraphQL October 2021, section 6.1.2).

use crate::inputs::answered_otherwise;
use std::test::Fail;

/// Operations, the values that their variables are given, and the responses.
const AT_UNDEFINED_TYPES: &[(&str, &str, &str)] = &[
    (
        "query($v: X) { free }",
        r#"{"v":1}"#,
        r#"{"errors":[{"message":"undefined type X for variable v","locations":[{"line":1,"column":11}],"extensions":{"APOLLO_SUSPECTED_VALIDATION_BUG":true}}]}"#,
    ),
    (
        "query($v: X!) { free }",
        r#"{"v":"text"}"#,
        r#"{"errors":[{"message":"undefined type X for variable v","locations":[{"line":1,"column":11}],"extensions":{"APOLLO_SUSPECTED_VALIDATION_BUG":true}}]}"#,
    ),
    (
        "query($v: X) { free }",
        r#"{"v":[{}]}"#,
        r#"{"errors":[{"message":"undefined type X for variable v","locations":[{"line":1,"column":11}],"extensions":{"APOLLO_SUSPECTED_VALIDATION_BUG":true}}]}"#,
    ),
    (
        "query($v: [X]) { free }",
        r#"{"v":[null,true]}"#,
        r#"{"errors":[{"message":"undefined type X for variable v","locations":[{"line":1,"column":12}],"extensions":{"APOLLO_SUSPECTED_VALIDATION_BUG":true}}]}"#,
    ),
    (
        "query($v: [X!]!) { free }",
        r#"{"v":{"k":1}}"#,
        r#"{"errors":[{"message":"undefined type X for variable v","locations":[{"line":1,"column":12}],"extensions":{"APOLLO_SUSPECTED_VALIDATION_BUG":true}}]}"#,
    ),
    (
        "query($v: [[X]]) { free }",
        r#"{"v":1}"#,
        r#"{"errors":[{"message":"undefined type X for variable v","locations":[{"line":1,"column":13}],"extensions":{"APOLLO_SUSPECTED_VALIDATION_BUG":true}}]}"#,
    ),
    (
        "query($v: [[X!]!]!) { free }",
        r#"{"v":[[],[1]]}"#,
        r#"{"errors":[{"message":"undefined type X for variable v","locations":[{"line":1,"column":13}],"extensions":{"APOLLO_SUSPECTED_VALIDATION_BUG":true}}]}"#,
    ),
    (
        "query($v: X!) { free }",
        r#"{"v":null}"#,
        r#"{"errors":[{"message":"null value for variable v of non-null type X!"}]}"#,
    ),
    (
        "query($v: [[X!]]) { free }",
        r#"{"v":[[null]]}"#,
        r#"{"errors":[{"message":"null value for variable v of non-null type X!"}]}"#,
    ),
    (
        "query($v: [X!]!) { free }",
        "{}",
        r#"{"errors":[{"message":"missing value for non-null variable 'v'","locations":[{"line":1,"column":7}]}]}"#,
    ),
    (
        "query($v: X, $w: [X] = 1, $x: [[X!]]) { x0(a: $v) x1(a: $w) x2(a: $x) }",
        r#"{"v":null,"x":[[],null]}"#,
        r#"{"data":{"x0":{"a":null},"x1":{"a":1},"x2":{"a":[[],null]}}}"#,
    ),
];

/// The same at types that are none for input, inside input objects too, and of definitions that stand twice or are lacking.
const AT_OTHER_TYPES: &[(&str, &str, &str)] = &[
    (
        "query($v: Query) { free }",
        r#"{"v":1}"#,
        r#"{"errors":[{"message":"non-input type Query for variable v.","locations":[{"line":1,"column":11}],"extensions":{"APOLLO_SUSPECTED_VALIDATION_BUG":true}}]}"#,
    ),
    (
        "query($v: Query!) { free }",
        r#"{"v":{}}"#,
        r#"{"errors":[{"message":"non-input type Query for variable v.","locations":[{"line":1,"column":11}],"extensions":{"APOLLO_SUSPECTED_VALIDATION_BUG":true}}]}"#,
    ),
    (
        "query($v: [I]) { free }",
        r#"{"v":"text"}"#,
        r#"{"errors":[{"message":"non-input type I for variable v.","locations":[{"line":1,"column":12}],"extensions":{"APOLLO_SUSPECTED_VALIDATION_BUG":true}}]}"#,
    ),
    (
        "query($v: [I!]!) { free }",
        r#"{"v":true}"#,
        r#"{"errors":[{"message":"non-input type I for variable v.","locations":[{"line":1,"column":12}],"extensions":{"APOLLO_SUSPECTED_VALIDATION_BUG":true}}]}"#,
    ),
    (
        "query($v: [[U]]) { free }",
        r#"{"v":[null,1]}"#,
        r#"{"errors":[{"message":"non-input type U for variable v.","locations":[{"line":1,"column":13}],"extensions":{"APOLLO_SUSPECTED_VALIDATION_BUG":true}}]}"#,
    ),
    (
        "query($v: [[U!]!]!) { free }",
        r#"{"v":[[[]]]}"#,
        r#"{"errors":[{"message":"non-input type U for variable v.","locations":[{"line":1,"column":13}],"extensions":{"APOLLO_SUSPECTED_VALIDATION_BUG":true}}]}"#,
    ),
    (
        "query($v: U!) { free }",
        r#"{"v":null}"#,
        r#"{"errors":[{"message":"null value for variable v of non-null type U!"}]}"#,
    ),
    (
        "query($v: [N]) { free }",
        r#"{"v":[{"b":1},{"c":1,"b":2}]}"#,
        r#"{"errors":[{"message":"undefined type X for input field N.c","extensions":{"APOLLO_SUSPECTED_VALIDATION_BUG":true}}]}"#,
    ),
    (
        "query($v: N!) { free }",
        r#"{"v":{"b":1,"f":{"b":1,"d":[]}}}"#,
        r#"{"errors":[{"message":"non-input type Query for input field N.d.","extensions":{"APOLLO_SUSPECTED_VALIDATION_BUG":true}}]}"#,
    ),
    // A field that must have a value is told wherever the object stands.
    (
        "query($v: N!) { free }",
        r#"{"v":{"c":1}}"#,
        r#"{"errors":[{"message":"Missing value for non-null input object field N.b"}]}"#,
    ),
    (
        "query($v: [N!]!) { free }",
        r#"{"v":[{"b":1},{}]}"#,
        r#"{"errors":[{"message":"Missing value for non-null input object field N.b"}]}"#,
    ),
    (
        "query($v: [[N]]) { free }",
        r#"{"v":{}}"#,
        r#"{"errors":[{"message":"Missing value for non-null input object field N.b"}]}"#,
    ),
    // Of several definitions of one name the last counts.
    (
        "query($v: Int! = 1, $w: Int, $v: Int = 2) { i0(a: $v) }",
        "{}",
        r#"{"data":{"i0":{"a":2}}}"#,
    ),
    // A value that no variable defines is left out, and a variable that is not defined has none.
    ("{ i0(a: $v) }", r#"{"v":1}"#, r#"{"data":{"i0":{}}}"#),
];

#[test]
fn values_at_undefined_types_are_refused(rt: HostRuntime) -> Result<(), Fail> {
    let wrong = answered_otherwise(rt.alloc(), AT_UNDEFINED_TYPES)?;
    assert_eq!(rt; wrong.as_str(), "");
    Ok(())
}

#[test]
fn values_at_types_that_are_none_for_input_are_refused(rt: HostRuntime) -> Result<(), Fail> {
    let wrong = answered_otherwise(rt.alloc(), AT_OTHER_TYPES)?;
    assert_eq!(rt; wrong.as_str(), "");
    Ok(())
}
