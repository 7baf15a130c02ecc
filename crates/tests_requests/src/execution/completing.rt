//! Resolvers that give what fits and what does not, at each kind of type (GraphQL October 2021, section 6.4.3).

use crate::execution::answered_otherwise;
use crate::sample::{Kind, Sample};
use std::test::Fail;

/// The rules do not hold: `missing` is of no type, `input` of one for input, and `Narrow` lacks a field of its interface.
const SCHEMA: &str =
    "type Query { int: Int strict: Int! float: Float text: String flag: Boolean id: ID any: Any \
     color: Color other: Other sure: Other! third: Third node: Node both: Both wide: Wide input: In missing: Missing \
     ints: [Int] stricts: [Int!] deep: [[Int]] others: [Other] inputs: [In] } \
     type Other { x: Int } type Third { x: Int } interface Node { x(a: Boolean): Int } \
     type Leaf implements Node { x(a: Boolean): Int! } interface Wide { w: Int } type Narrow implements Wide { x: Int } \
     union Both = Third | Leaf enum Color { RED } input In { a: Int } scalar Any";

/// Queries, an object that each field is asked of, and the response.
const FITTING: &[(&str, Sample, &str)] = &[
    ("{ int }", Sample::Number(7), r#"{"data":{"int":7}}"#),
    ("{ int }", Sample::Null, r#"{"data":{"int":null}}"#),
    (
        "{ float id }",
        Sample::Number(7),
        r#"{"data":{"float":7,"id":7}}"#,
    ),
    (
        "{ text id any }",
        Sample::Word,
        r#"{"data":{"text":"no","id":"no","any":"no"}}"#,
    ),
    ("{ flag }", Sample::Truth, r#"{"data":{"flag":true}}"#),
    (
        "{ any }",
        Sample::Number(0x8000_0000_0000_0000),
        r#"{"data":{"any":9223372036854775808}}"#,
    ),
    (
        "{ missing input inputs }",
        Sample::Null,
        r#"{"data":{"missing":null,"input":null,"inputs":null}}"#,
    ),
    (
        "{ ints deep others { x } }",
        Sample::Empty,
        r#"{"data":{"ints":[],"deep":[],"others":[]}}"#,
    ),
    (
        "{ other { x } sure { x } }",
        Sample::Holds(Kind::Other),
        r#"{"data":{"other":{"x":1},"sure":{"x":1}}}"#,
    ),
    (
        "{ both { ... on Leaf { x } } }",
        Sample::Holds(Kind::Leaf),
        r#"{"data":{"both":{"x":1}}}"#,
    ),
    // A field that the type of the object lacks is left out.
    (
        "{ wide { w __typename } }",
        Sample::Holds(Kind::Narrow),
        r#"{"data":{"wide":{"__typename":"Narrow"}}}"#,
    ),
    // The object is told what it should be.
    (
        "{ node { x(a: true) x(a: true) } }",
        Sample::Asks,
        r#"{"data":{"node":{"x":7}}}"#,
    ),
    ("{ int }", Sample::Forgets, r#"no memory"#),
    // What is skipped is left out.
    (
        "{ strict int missing k: int }",
        Sample::Skips,
        r#"{"data":{}}"#,
    ),
];

#[test]
fn what_fits_is_given(rt: HostRuntime) -> Result<(), Fail> {
    let wrong = answered_otherwise(rt.alloc(), SCHEMA, FITTING)?;
    assert_eq!(rt; wrong.as_str(), "");
    Ok(())
}

/// The same of what fails, and of leaves and objects that do not fit.
const MISFITS: &[(&str, Sample, &str)] = &[
    (
        "{ int }",
        Sample::Fails,
        r#"{"errors":[{"message":"resolver error: !","locations":[{"line":1,"column":3}],"path":["int"]}],"data":{"int":null}}"#,
    ),
    (
        "{ int }",
        Sample::Unknowing,
        r#"{"errors":[{"message":"resolver error: unexpected field name: int in type Other","locations":[{"line":1,"column":3}],"path":["int"]}],"data":{"int":null}}"#,
    ),
    (
        "{ int strict k: int }",
        Sample::Fails,
        r#"{"errors":[{"message":"resolver error: !","locations":[{"line":1,"column":3}],"path":["int"]},{"message":"resolver error: !","locations":[{"line":1,"column":7}],"path":["strict"]}],"data":null}"#,
    ),
    (
        "{ strict }",
        Sample::Null,
        r#"{"errors":[{"message":"non-null type Int! resolved to null","locations":[{"line":1,"column":3}],"path":["strict"]}],"data":null}"#,
    ),
    // Types that validation would have found.
    (
        "{ missing }",
        Sample::Number(7),
        r#"{"errors":[{"message":"undefined type Missing","locations":[{"line":1,"column":3}],"path":["missing"],"extensions":{"APOLLO_SUSPECTED_VALIDATION_BUG":true}}],"data":{"missing":null}}"#,
    ),
    (
        "{ missing }",
        Sample::Holds(Kind::Other),
        r#"{"errors":[{"message":"undefined type Missing","locations":[{"line":1,"column":3}],"path":["missing"],"extensions":{"APOLLO_SUSPECTED_VALIDATION_BUG":true}}],"data":{"missing":null}}"#,
    ),
    (
        "{ input }",
        Sample::Number(7),
        r#"{"errors":[{"message":"field with input object type In","locations":[{"line":1,"column":3}],"path":["input"],"extensions":{"APOLLO_SUSPECTED_VALIDATION_BUG":true}}],"data":{"input":null}}"#,
    ),
    (
        "{ input }",
        Sample::Holds(Kind::Other),
        r#"{"errors":[{"message":"field with input object type In","locations":[{"line":1,"column":3}],"path":["input"],"extensions":{"APOLLO_SUSPECTED_VALIDATION_BUG":true}}],"data":{"input":null}}"#,
    ),
    // Leaves.
    (
        "{ other { x } }",
        Sample::Number(7),
        r#"{"errors":[{"message":"resolver returned a leaf value but expected an object for type Other","locations":[{"line":1,"column":3}],"path":["other"]}],"data":{"other":null}}"#,
    ),
    (
        "{ node { x } }",
        Sample::Word,
        r#"{"errors":[{"message":"resolver returned a leaf value but expected an object for type Node","locations":[{"line":1,"column":3}],"path":["node"]}],"data":{"node":null}}"#,
    ),
    (
        "{ both { __typename } }",
        Sample::Truth,
        r#"{"errors":[{"message":"resolver returned a leaf value but expected an object for type Both","locations":[{"line":1,"column":3}],"path":["both"]}],"data":{"both":null}}"#,
    ),
    (
        "{ color }",
        Sample::Word,
        r#"{"errors":[{"message":"resolver returned \"no\", expected enum Color","locations":[{"line":1,"column":3}],"path":["color"]}],"data":{"color":null}}"#,
    ),
    (
        "{ color }",
        Sample::Number(7),
        r#"{"errors":[{"message":"resolver returned 7, expected enum Color","locations":[{"line":1,"column":3}],"path":["color"]}],"data":{"color":null}}"#,
    ),
    (
        "{ int }",
        Sample::Number(0x8000_0000),
        r#"{"errors":[{"message":"resolver returned 2147483648 which overflows Int","locations":[{"line":1,"column":3}],"path":["int"]}],"data":{"int":null}}"#,
    ),
    (
        "{ int }",
        Sample::Number(0x8000_0000_0000_0000),
        r#"{"errors":[{"message":"resolver returned 9223372036854775808, expected Int","locations":[{"line":1,"column":3}],"path":["int"]}],"data":{"int":null}}"#,
    ),
    (
        "{ float }",
        Sample::Number(9_007_199_254_740_991),
        r#"{"errors":[{"message":"resolver returned 9007199254740991, expected Float","locations":[{"line":1,"column":3}],"path":["float"]}],"data":{"float":null}}"#,
    ),
    (
        "{ text }",
        Sample::Number(7),
        r#"{"errors":[{"message":"resolver returned 7, expected String","locations":[{"line":1,"column":3}],"path":["text"]}],"data":{"text":null}}"#,
    ),
    (
        "{ flag }",
        Sample::Word,
        r#"{"errors":[{"message":"resolver returned \"no\", expected Boolean","locations":[{"line":1,"column":3}],"path":["flag"]}],"data":{"flag":null}}"#,
    ),
    (
        "{ id }",
        Sample::Truth,
        r#"{"errors":[{"message":"resolver returned true, expected ID","locations":[{"line":1,"column":3}],"path":["id"]}],"data":{"id":null}}"#,
    ),
    // Objects.
    (
        "{ any }",
        Sample::Holds(Kind::Other),
        r#"{"errors":[{"message":"resolver returned a an object of type Other, expected Any","locations":[{"line":1,"column":3}],"path":["any"]}],"data":{"any":null}}"#,
    ),
    (
        "{ color }",
        Sample::Holds(Kind::Stranger),
        r#"{"errors":[{"message":"resolver returned a an object of type Stranger, expected Color","locations":[{"line":1,"column":3}],"path":["color"]}],"data":{"color":null}}"#,
    ),
    (
        "{ node { x } }",
        Sample::Holds(Kind::Stranger),
        r#"{"errors":[{"message":"resolver returned an object of type Stranger not defined in the schema","locations":[{"line":1,"column":3}],"path":["node"]}],"data":{"node":null}}"#,
    ),
    (
        "{ both { __typename } }",
        Sample::Holds(Kind::Node),
        r#"{"errors":[{"message":"resolver returned an object of type Node not defined in the schema","locations":[{"line":1,"column":3}],"path":["both"]}],"data":{"both":null}}"#,
    ),
    (
        "{ both { __typename } }",
        Sample::Holds(Kind::Other),
        r#"{"errors":[{"message":"resolver returned an object of type Other, expected a member of union type Both","locations":[{"line":1,"column":3}],"path":["both"]}],"data":{"both":null}}"#,
    ),
    (
        "{ node { x } }",
        Sample::Holds(Kind::Other),
        r#"{"errors":[{"message":"resolver returned an object of type Other which does not implement interface Node","locations":[{"line":1,"column":3}],"path":["node"]}],"data":{"node":null}}"#,
    ),
    (
        "{ third { x } }",
        Sample::Holds(Kind::Other),
        r#"{"errors":[{"message":"resolver returned an object of type Other, expected Third","locations":[{"line":1,"column":3}],"path":["third"]}],"data":{"third":null}}"#,
    ),
    (
        "{ third { x } }",
        Sample::Holds(Kind::Stranger),
        r#"{"errors":[{"message":"resolver returned an object of type Stranger, expected Third","locations":[{"line":1,"column":3}],"path":["third"]}],"data":{"third":null}}"#,
    ),
    (
        "{ sure { x } }",
        Sample::Holds(Kind::Leaf),
        r#"{"errors":[{"message":"resolver returned an object of type Leaf, expected Other","locations":[{"line":1,"column":3}],"path":["sure"]}],"data":null}"#,
    ),
];

#[test]
fn what_does_not_fit_is_told(rt: HostRuntime) -> Result<(), Fail> {
    let wrong = answered_otherwise(rt.alloc(), SCHEMA, MISFITS)?;
    assert_eq!(rt; wrong.as_str(), "");
    Ok(())
}

/// The same of lists, and of what is none where one is due.
const LISTS: &[(&str, Sample, &str)] = &[
    (
        "{ ints }",
        Sample::Gaps,
        r#"{"errors":[{"message":"resolver returned \"no\", expected Int","locations":[{"line":1,"column":3}],"path":["ints",2]}],"data":{"ints":[7,null]}}"#,
    ),
    (
        "{ stricts }",
        Sample::Gaps,
        r#"{"errors":[{"message":"resolver returned \"no\", expected Int","locations":[{"line":1,"column":3}],"path":["stricts",2]}],"data":{"stricts":null}}"#,
    ),
    (
        "{ ints }",
        Sample::Breaks,
        r#"{"errors":[{"message":"resolver error: !","locations":[{"line":1,"column":3}],"path":["ints",1]}],"data":{"ints":[7,null]}}"#,
    ),
    (
        "{ stricts }",
        Sample::Breaks,
        r#"{"errors":[{"message":"resolver error: !","locations":[{"line":1,"column":3}],"path":["stricts",1]}],"data":{"stricts":null}}"#,
    ),
    (
        "{ ints }",
        Sample::Mixed,
        r#"{"errors":[{"message":"resolver returned a an object of type Other, expected Int","locations":[{"line":1,"column":3}],"path":["ints",1]},{"message":"Non-list type Int resolved to a list","locations":[{"line":1,"column":3}],"path":["ints",2]}],"data":{"ints":[null,null,null]}}"#,
    ),
    (
        "{ stricts }",
        Sample::Mixed,
        r#"{"errors":[{"message":"non-null type Int! resolved to null","locations":[{"line":1,"column":3}],"path":["stricts",0]}],"data":{"stricts":null}}"#,
    ),
    (
        "{ deep }",
        Sample::Mixed,
        r#"{"errors":[{"message":"list type [Int] resolved to an object","locations":[{"line":1,"column":3}],"path":["deep",1]}],"data":{"deep":[null,null,[]]}}"#,
    ),
    (
        "{ others { x } }",
        Sample::Mixed,
        r#"{"errors":[{"message":"Non-list type Other resolved to a list","locations":[{"line":1,"column":3}],"path":["others",2]}],"data":{"others":[null,{"x":1},null]}}"#,
    ),
    (
        "{ inputs }",
        Sample::Mixed,
        r#"{"errors":[{"message":"field with input object type In","locations":[{"line":1,"column":3}],"path":["inputs",1],"extensions":{"APOLLO_SUSPECTED_VALIDATION_BUG":true}},{"message":"Non-list type In resolved to a list","locations":[{"line":1,"column":3}],"path":["inputs",2]}],"data":{"inputs":[null,null,null]}}"#,
    ),
    (
        "{ int }",
        Sample::Empty,
        r#"{"errors":[{"message":"Non-list type Int resolved to a list","locations":[{"line":1,"column":3}],"path":["int"]}],"data":{"int":null}}"#,
    ),
    (
        "{ other { x } }",
        Sample::Gaps,
        r#"{"errors":[{"message":"Non-list type Other resolved to a list","locations":[{"line":1,"column":3}],"path":["other"]}],"data":{"other":null}}"#,
    ),
    (
        "{ missing }",
        Sample::Empty,
        r#"{"errors":[{"message":"Non-list type Missing resolved to a list","locations":[{"line":1,"column":3}],"path":["missing"]}],"data":{"missing":null}}"#,
    ),
    (
        "{ strict }",
        Sample::Breaks,
        r#"{"errors":[{"message":"Non-list type Int! resolved to a list","locations":[{"line":1,"column":3}],"path":["strict"]}],"data":null}"#,
    ),
    (
        "{ stricts }",
        Sample::Number(7),
        r#"{"errors":[{"message":"list type [Int!] resolved to an object","locations":[{"line":1,"column":3}],"path":["stricts"]}],"data":{"stricts":null}}"#,
    ),
    (
        "{ others { x } }",
        Sample::Holds(Kind::Other),
        r#"{"errors":[{"message":"list type [Other] resolved to an object","locations":[{"line":1,"column":3}],"path":["others"]}],"data":{"others":null}}"#,
    ),
    (
        "{ inputs }",
        Sample::Word,
        r#"{"errors":[{"message":"list type [In] resolved to an object","locations":[{"line":1,"column":3}],"path":["inputs"]}],"data":{"inputs":null}}"#,
    ),
];

#[test]
fn what_does_not_fit_in_lists_is_told(rt: HostRuntime) -> Result<(), Fail> {
    let wrong = answered_otherwise(rt.alloc(), SCHEMA, LISTS)?;
    assert_eq!(rt; wrong.as_str(), "");
    Ok(())
}
