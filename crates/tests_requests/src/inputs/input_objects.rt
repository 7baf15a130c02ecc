//! Literals at input object types that validation would have refused (GraphQL October 2021, section 3.10).

use crate::inputs::answered_otherwise;
use std::test::Fail;

/// Queries that give a key that is no field, the values of their variables, and the responses.
const KEYS: &[(&str, &str, &str)] = &[
    (
        "{ n0(a: {z: 1}) }",
        "{}",
        r#"{"errors":[{"message":"input object has key z not in type N","locations":[{"line":1,"column":9}],"path":["n0"]}],"data":{"n0":null}}"#,
    ),
    (
        "{ n0r(a: {b: 1, z: 1}) }",
        "{}",
        r#"{"errors":[{"message":"input object has key z not in type N","locations":[{"line":1,"column":10}],"path":["n0r"]}],"data":{"n0r":null}}"#,
    ),
    (
        "{ n1(a: [{b: 1}, {b: 1, z: 2}]) }",
        "{}",
        r#"{"errors":[{"message":"input object has key z not in type N","locations":[{"line":1,"column":18}],"path":["n1"]}],"data":{"n1":null}}"#,
    ),
    (
        "{ n1r(a: {z: 1}) }",
        "{}",
        r#"{"errors":[{"message":"input object has key z not in type N","locations":[{"line":1,"column":10}],"path":["n1r"]}],"data":{"n1r":null}}"#,
    ),
    (
        "{ n2(a: {z: 1}) }",
        "{}",
        r#"{"errors":[{"message":"input object has key z not in type N","locations":[{"line":1,"column":9}],"path":["n2"]}],"data":{"n2":null}}"#,
    ),
    (
        "{ n2r(a: [[{z: 1}]]) }",
        "{}",
        r#"{"errors":[{"message":"input object has key z not in type N","locations":[{"line":1,"column":12}],"path":["n2r"]}],"data":{"n2r":null}}"#,
    ),
    // A key is told before a field that is missing, and before what is wrong with the fields.
    (
        "{ n0(a: {b: null, z: 1}) }",
        "{}",
        r#"{"errors":[{"message":"input object has key z not in type N","locations":[{"line":1,"column":9}],"path":["n0"]}],"data":{"n0":null}}"#,
    ),
    (
        "{ n0(a: {b: 1, f: [{z: 1}]}) }",
        "{}",
        r#"{"errors":[{"message":"input object has key z not in type N","locations":[{"line":1,"column":20}],"path":["n0"]}],"data":{"n0":null}}"#,
    ),
];

#[test]
fn keys_that_are_no_fields_are_refused(rt: HostRuntime) -> Result<(), Fail> {
    let wrong = answered_otherwise(rt.alloc(), KEYS)?;
    assert_eq!(rt; wrong.as_str(), "");
    Ok(())
}

/// The same of fields that must have a value, and of null.
const MISSING: &[(&str, &str, &str)] = &[
    (
        "{ n0(a: {}) }",
        "{}",
        r#"{"errors":[{"message":"Missing value for non-null input object field N.b","locations":[{"line":1,"column":9}],"path":["n0"]}],"data":{"n0":null}}"#,
    ),
    (
        "{ n0r(a: {c: null}) }",
        "{}",
        r#"{"errors":[{"message":"Missing value for non-null input object field N.b","locations":[{"line":1,"column":10}],"path":["n0r"]}],"data":{"n0r":null}}"#,
    ),
    (
        "{ n1(a: [{b: 1}, {}]) }",
        "{}",
        r#"{"errors":[{"message":"Missing value for non-null input object field N.b","locations":[{"line":1,"column":18}],"path":["n1"]}],"data":{"n1":null}}"#,
    ),
    (
        "{ n1r(a: {}) }",
        "{}",
        r#"{"errors":[{"message":"Missing value for non-null input object field N.b","locations":[{"line":1,"column":10}],"path":["n1r"]}],"data":{"n1r":null}}"#,
    ),
    (
        "{ n2(a: [[], [{e: 1}]]) }",
        "{}",
        r#"{"errors":[{"message":"Missing value for non-null input object field N.b","locations":[{"line":1,"column":15}],"path":["n2"]}],"data":{"n2":null}}"#,
    ),
    (
        "{ n2r(a: {}) }",
        "{}",
        r#"{"errors":[{"message":"Missing value for non-null input object field N.b","locations":[{"line":1,"column":10}],"path":["n2r"]}],"data":{"n2r":null}}"#,
    ),
    (
        "{ n0(a: {b: 1, f: [{}]}) }",
        "{}",
        r#"{"errors":[{"message":"Missing value for non-null input object field N.b","locations":[{"line":1,"column":20}],"path":["n0"]}],"data":{"n0":null}}"#,
    ),
    (
        "{ n0(a: {b: null}) }",
        "{}",
        r#"{"errors":[{"message":"null value for non-null input field N.b","locations":[{"line":1,"column":13}],"path":["n0"]}],"data":{"n0":null}}"#,
    ),
    (
        "{ n1(a: {b: 1, f: [null]}) }",
        "{}",
        r#"{"errors":[{"message":"null value for non-null input field N.f","locations":[{"line":1,"column":20}],"path":["n1"]}],"data":{"n1":null}}"#,
    ),
    (
        "{ n0(a: {b: $v}) }",
        "{}",
        r#"{"errors":[{"message":"missing variable for non-null input field N.b","locations":[{"line":1,"column":13}],"path":["n0"]}],"data":{"n0":null}}"#,
    ),
    (
        "query($v: Int) { n0(a: {b: $v}) }",
        r#"{"v":null}"#,
        r#"{"errors":[{"message":"null variable value for non-null input field N.b","locations":[{"line":1,"column":28}],"path":["n0"]}],"data":{"n0":null}}"#,
    ),
    (
        "{ n0r(a: null) }",
        "{}",
        r#"{"errors":[{"message":"null value for non-nullable argument a","path":["n0r"]}],"data":{"n0r":null}}"#,
    ),
    (
        "{ n1r(a: [null]) }",
        "{}",
        r#"{"errors":[{"message":"null value for non-null argument a","locations":[{"line":1,"column":11}],"path":["n1r"]}],"data":{"n1r":null}}"#,
    ),
    (
        "{ n2r }",
        "{}",
        r#"{"errors":[{"message":"missing value for required argument a","path":["n2r"]}],"data":{"n2r":null}}"#,
    ),
];

#[test]
fn fields_without_a_value_are_refused(rt: HostRuntime) -> Result<(), Fail> {
    let wrong = answered_otherwise(rt.alloc(), MISSING)?;
    assert_eq!(rt; wrong.as_str(), "");
    Ok(())
}

/// The same of literals that are no objects, and of what stands in the fields.
const OTHER_LITERALS: &[(&str, &str, &str)] = &[
    (
        "{ n0(a: 1) }",
        "{}",
        r#"{"errors":[{"message":"could not coerce argument a: 1 to type N","locations":[{"line":1,"column":9}],"path":["n0"]}],"data":{"n0":null}}"#,
    ),
    (
        "{ n0r(a: [{b: 1}]) }",
        "{}",
        r#"{"errors":[{"message":"could not coerce argument a: [{b: 1}] to type N","locations":[{"line":1,"column":10}],"path":["n0r"]}],"data":{"n0r":null}}"#,
    ),
    (
        "{ n1(a: [{b: 1}, RED]) }",
        "{}",
        r#"{"errors":[{"message":"could not coerce argument a: RED to type N","locations":[{"line":1,"column":18}],"path":["n1"]}],"data":{"n1":null}}"#,
    ),
    (
        r#"{ n1r(a: "text") }"#,
        "{}",
        r#"{"errors":[{"message":"could not coerce argument a: \"text\" to type N","locations":[{"line":1,"column":10}],"path":["n1r"]}],"data":{"n1r":null}}"#,
    ),
    (
        "{ n2(a: 1.5) }",
        "{}",
        r#"{"errors":[{"message":"could not coerce argument a: 1.5 to type N","locations":[{"line":1,"column":9}],"path":["n2"]}],"data":{"n2":null}}"#,
    ),
    (
        "{ n2r(a: [[true]]) }",
        "{}",
        r#"{"errors":[{"message":"could not coerce argument a: true to type N","locations":[{"line":1,"column":12}],"path":["n2r"]}],"data":{"n2r":null}}"#,
    ),
    (
        "{ n0(a: {b: 1, f: 2}) }",
        "{}",
        r#"{"errors":[{"message":"could not coerce input field N.f: 2 to type N","locations":[{"line":1,"column":19}],"path":["n0"]}],"data":{"n0":null}}"#,
    ),
    // Inside input objects the types are looked at as elsewhere.
    (
        "{ n0(a: {b: 1, c: 1}) }",
        "{}",
        r#"{"errors":[{"message":"undefined type X for input field N.c","locations":[{"line":1,"column":19}],"path":["n0"],"extensions":{"APOLLO_SUSPECTED_VALIDATION_BUG":true}}],"data":{"n0":null}}"#,
    ),
    (
        r#"{ n0(a: {d: [RED], b: "text"}) }"#,
        "{}",
        r#"{"data":{"n0":{"a":{"b":"text","d":["RED"],"e":3}}}}"#,
    ),
    (
        "{ n0(a: {b: 1, b: 2, e: $v}) }",
        "{}",
        r#"{"data":{"n0":{"a":{"b":2,"e":null}}}}"#,
    ),
    (
        "{ n2r(a: {b: 1, f: {b: 2, c: null}}) }",
        "{}",
        r#"{"data":{"n2r":{"a":[[{"b":1,"e":3,"f":[{"b":2,"c":null,"e":3}]}]]}}}"#,
    ),
];

#[test]
fn literals_that_are_no_objects_are_refused(rt: HostRuntime) -> Result<(), Fail> {
    let wrong = answered_otherwise(rt.alloc(), OTHER_LITERALS)?;
    assert_eq!(rt; wrong.as_str(), "");
    Ok(())
}
