//! Arguments of types that are not defined, or that validation would have refused (GraphQL October 2021, section 6.4.1).

use crate::inputs::answered_otherwise;
use std::test::Fail;

/// Queries, the values that their variables are given, and the responses.
const AT_UNDEFINED_TYPES: &[(&str, &str, &str)] = &[
    (
        "{ x0(a: 1) }",
        "{}",
        r#"{"errors":[{"message":"undefined type X for argument a","locations":[{"line":1,"column":9}],"path":["x0"],"extensions":{"APOLLO_SUSPECTED_VALIDATION_BUG":true}}],"data":{"x0":null}}"#,
    ),
    (
        r#"{ x0r(a: "text") }"#,
        "{}",
        r#"{"errors":[{"message":"undefined type X for argument a","locations":[{"line":1,"column":10}],"path":["x0r"],"extensions":{"APOLLO_SUSPECTED_VALIDATION_BUG":true}}],"data":{"x0r":null}}"#,
    ),
    (
        "{ x0(a: {k: 1}) }",
        "{}",
        r#"{"errors":[{"message":"undefined type X for argument a","locations":[{"line":1,"column":9}],"path":["x0"],"extensions":{"APOLLO_SUSPECTED_VALIDATION_BUG":true}}],"data":{"x0":null}}"#,
    ),
    (
        "{ x0(a: [1]) }",
        "{}",
        r#"{"errors":[{"message":"undefined type X for argument a","locations":[{"line":1,"column":9}],"path":["x0"],"extensions":{"APOLLO_SUSPECTED_VALIDATION_BUG":true}}],"data":{"x0":null}}"#,
    ),
    (
        "{ x1(a: [null, true]) }",
        "{}",
        r#"{"errors":[{"message":"undefined type X for argument a","locations":[{"line":1,"column":16}],"path":["x1"],"extensions":{"APOLLO_SUSPECTED_VALIDATION_BUG":true}}],"data":{"x1":null}}"#,
    ),
    (
        "{ x1r(a: RED) }",
        "{}",
        r#"{"errors":[{"message":"undefined type X for argument a","locations":[{"line":1,"column":10}],"path":["x1r"],"extensions":{"APOLLO_SUSPECTED_VALIDATION_BUG":true}}],"data":{"x1r":null}}"#,
    ),
    (
        "{ x2(a: [[], [1.5]]) }",
        "{}",
        r#"{"errors":[{"message":"undefined type X for argument a","locations":[{"line":1,"column":15}],"path":["x2"],"extensions":{"APOLLO_SUSPECTED_VALIDATION_BUG":true}}],"data":{"x2":null}}"#,
    ),
    (
        "{ x2r(a: [1]) }",
        "{}",
        r#"{"errors":[{"message":"undefined type X for argument a","locations":[{"line":1,"column":11}],"path":["x2r"],"extensions":{"APOLLO_SUSPECTED_VALIDATION_BUG":true}}],"data":{"x2r":null}}"#,
    ),
    (
        "{ x0r(a: null) }",
        "{}",
        r#"{"errors":[{"message":"null value for non-nullable argument a","path":["x0r"]}],"data":{"x0r":null}}"#,
    ),
    (
        "{ x2r(a: [[null]]) }",
        "{}",
        r#"{"errors":[{"message":"null value for non-null argument a","locations":[{"line":1,"column":12}],"path":["x2r"]}],"data":{"x2r":null}}"#,
    ),
    (
        "{ x1r }",
        "{}",
        r#"{"errors":[{"message":"missing value for required argument a","path":["x1r"]}],"data":{"x1r":null}}"#,
    ),
    ("{ x0(a: null) }", "{}", r#"{"data":{"x0":{"a":null}}}"#),
    (
        "{ x2(a: [[null], null]) }",
        "{}",
        r#"{"data":{"x2":{"a":[[null],null]}}}"#,
    ),
    // The value of a variable is looked at no more.
    (
        "query($v: Int) { x0r(a: $v) }",
        r#"{"v":1}"#,
        r#"{"data":{"x0r":{"a":1}}}"#,
    ),
    (
        "query($v: Int) { x2r(a: [[$v]]) }",
        r#"{"v":1}"#,
        r#"{"data":{"x2r":{"a":[[1]]}}}"#,
    ),
];

#[test]
fn literals_at_undefined_types_are_refused(rt: HostRuntime) -> Result<(), Fail> {
    let wrong = answered_otherwise(rt.alloc(), AT_UNDEFINED_TYPES)?;
    assert_eq!(rt; wrong.as_str(), "");
    Ok(())
}

/// The same at scalars and at types that are none for input.
const AT_OTHER_TYPES: &[(&str, &str, &str)] = &[
    // A literal at a type that is none for input stands for what it says.
    ("{ q0(a: 1) }", "{}", r#"{"data":{"q0":{"a":1}}}"#),
    (
        "{ q0r(a: {k: [A, null]}) }",
        "{}",
        r#"{"data":{"q0r":{"a":{"k":["A",null]}}}}"#,
    ),
    (
        "{ q1(a: [1, null]) }",
        "{}",
        r#"{"data":{"q1":{"a":[1,null]}}}"#,
    ),
    (
        r#"{ q1r(a: "text") }"#,
        "{}",
        r#"{"data":{"q1r":{"a":["text"]}}}"#,
    ),
    (
        "{ q2(a: [[{}], null]) }",
        "{}",
        r#"{"data":{"q2":{"a":[[{}],null]}}}"#,
    ),
    (
        "{ q2r(a: true) }",
        "{}",
        r#"{"data":{"q2r":{"a":[[true]]}}}"#,
    ),
    (
        "{ q0r(a: null) }",
        "{}",
        r#"{"errors":[{"message":"null value for non-nullable argument a","path":["q0r"]}],"data":{"q0r":null}}"#,
    ),
    (
        "{ q1r(a: [1, null]) }",
        "{}",
        r#"{"errors":[{"message":"null value for non-null argument a","locations":[{"line":1,"column":14}],"path":["q1r"]}],"data":{"q1r":null}}"#,
    ),
    (
        "{ q2r }",
        "{}",
        r#"{"errors":[{"message":"missing value for required argument a","path":["q2r"]}],"data":{"q2r":null}}"#,
    ),
    // So does one at a scalar.
    (
        r#"{ i0(a: "text") }"#,
        "{}",
        r#"{"data":{"i0":{"a":"text"}}}"#,
    ),
    (
        "{ i0r(a: {k: 3000000000}) }",
        "{}",
        r#"{"data":{"i0r":{"a":{"k":3000000000}}}}"#,
    ),
    (
        "{ i1r(a: [[1], RED]) }",
        "{}",
        r#"{"data":{"i1r":{"a":[[1],"RED"]}}}"#,
    ),
    (
        "{ i1(a: [1.5]) }",
        "{}",
        r#"{"errors":[{"message":"float value overflow in argument a","locations":[{"line":1,"column":10}],"path":["i1"]}],"data":{"i1":null}}"#,
    ),
    (
        "{ i2r(a: 18446744073709551616) }",
        "{}",
        r#"{"errors":[{"message":"int value overflow in argument a","locations":[{"line":1,"column":10}],"path":["i2r"]}],"data":{"i2r":null}}"#,
    ),
    // Null, and variables.
    (
        "{ i0r(a: null) }",
        "{}",
        r#"{"errors":[{"message":"null value for non-nullable argument a","path":["i0r"]}],"data":{"i0r":null}}"#,
    ),
    (
        "{ i0r }",
        "{}",
        r#"{"errors":[{"message":"missing value for required argument a","path":["i0r"]}],"data":{"i0r":null}}"#,
    ),
    (
        "{ i0r(a: $v) }",
        "{}",
        r#"{"errors":[{"message":"missing value for required argument a","path":["i0r"]}],"data":{"i0r":null}}"#,
    ),
    (
        "query($v: Int) { i0r(a: $v) }",
        r#"{"v":null}"#,
        r#"{"errors":[{"message":"null value for non-nullable argument a","path":["i0r"]}],"data":{"i0r":null}}"#,
    ),
    (
        "{ i1r(a: [1, null]) }",
        "{}",
        r#"{"errors":[{"message":"null value for non-null argument a","locations":[{"line":1,"column":14}],"path":["i1r"]}],"data":{"i1r":null}}"#,
    ),
    (
        "{ i2r(a: [[1], null]) }",
        "{}",
        r#"{"errors":[{"message":"null value for non-null argument a","locations":[{"line":1,"column":16}],"path":["i2r"]}],"data":{"i2r":null}}"#,
    ),
    (
        "{ i2r(a: [[1, null]]) }",
        "{}",
        r#"{"errors":[{"message":"null value for non-null argument a","locations":[{"line":1,"column":15}],"path":["i2r"]}],"data":{"i2r":null}}"#,
    ),
    (
        "{ i1r(a: [$v]) }",
        "{}",
        r#"{"errors":[{"message":"missing variable for non-null argument a","locations":[{"line":1,"column":11}],"path":["i1r"]}],"data":{"i1r":null}}"#,
    ),
    (
        "{ i2r(a: [[1], $v]) }",
        "{}",
        r#"{"errors":[{"message":"missing variable for non-null argument a","locations":[{"line":1,"column":16}],"path":["i2r"]}],"data":{"i2r":null}}"#,
    ),
    (
        "{ i2r(a: [[1, $v]]) }",
        "{}",
        r#"{"errors":[{"message":"missing variable for non-null argument a","locations":[{"line":1,"column":15}],"path":["i2r"]}],"data":{"i2r":null}}"#,
    ),
    (
        "query($v: Int) { i1r(a: [$v]) }",
        r#"{"v":null}"#,
        r#"{"errors":[{"message":"null variable value for non-null argument a","locations":[{"line":1,"column":26}],"path":["i1r"]}],"data":{"i1r":null}}"#,
    ),
    (
        "query($v: Int) { i2r(a: [[$v]]) }",
        r#"{"v":null}"#,
        r#"{"errors":[{"message":"null variable value for non-null argument a","locations":[{"line":1,"column":27}],"path":["i2r"]}],"data":{"i2r":null}}"#,
    ),
    (
        "{ i2(a: [[$v], $v]) }",
        "{}",
        r#"{"data":{"i2":{"a":[[null],null]}}}"#,
    ),
    // Of several arguments of one name the first counts, one that is not defined is left out, and a default stands for what it says.
    (
        r#"{ i0(a: 1, a: "text") }"#,
        "{}",
        r#"{"data":{"i0":{"a":1}}}"#,
    ),
    ("{ i0(b: 1.5) }", "{}", r#"{"data":{"i0":{}}}"#),
    (
        "{ d }",
        "{}",
        r#"{"data":{"d":{"a":1,"b":{},"c":null,"d":{"k":["A"]}}}}"#,
    ),
];

#[test]
fn literals_at_other_types_are_translated(rt: HostRuntime) -> Result<(), Fail> {
    let wrong = answered_otherwise(rt.alloc(), AT_OTHER_TYPES)?;
    assert_eq!(rt; wrong.as_str(), "");
    Ok(())
}
