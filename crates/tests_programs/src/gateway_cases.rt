//! What a gateway answers from both places.

use crate::running::{Case, Program, is_as_said};
use gql_gateway::{ANSWERED, MISUSED, REFUSED};
use std::test::Fail;

/// Introspection beside a field of the data, whatever the request says of introspection.
const BOTH: &str =
    r#"{"schema":"type Query { f: Int }","query":"{ f Query: __type(name: \"Query\") { fields { name } } }","data":{"f":42}}"#;

const BOTH_OFF: &str =
    r#"{"schema":"type Query { f: Int }","query":"{ f Query: __type(name: \"Query\") { fields { name } } }","introspection":false,"data":{"f":42}}"#;

const BOTH_ANSWERED: &str = "{\"data\":{\"f\":42,\"Query\":{\"fields\":[{\"name\":\"f\"}]}}}\n";

/// Introspection below a field of the root, which the other place answers.
const BELOW: &str =
    r#"{"schema":"type Query { q: Query f: Int }","query":"{ q { __schema { queryType { name } } } }","data":{"q":{}}}"#;

const BELOW_ANSWERED: &str =
    "{\"data\":{\"q\":{\"__schema\":{\"queryType\":{\"name\":\"Query\"}}}}}\n";

/// Nothing is left for the other place.
const NOTHING_LEFT: &str =
    r#"{"schema":"type Query { f: Int }","query":"{ __typename ... { t: __typename } }","data":{"f":42}}"#;

const NOTHING_LEFT_ANSWERED: &str = "{\"data\":{\"__typename\":\"Query\",\"t\":\"Query\"}}\n";

/// Errors go by the response keys of the root.
const ERRORS: &str =
    r#"{"schema":"type Query { a: Int b: Int }","query":"{ b t: __typename a }","data":{"a":"x","b":"y"}}"#;

const ERRORS_ANSWERED: &str =
    "{\"errors\":[{\"message\":\"resolver returned \\\"y\\\", expected Int\",\
    \"locations\":[{\"line\":1,\"column\":3}],\"path\":[\"b\"]},\
    {\"message\":\"resolver returned \\\"x\\\", expected Int\",\
    \"locations\":[{\"line\":1,\"column\":19}],\"path\":[\"a\"]}],\
    \"data\":{\"b\":null,\"t\":\"Query\",\"a\":null}}\n";

/// Without data all errors from here stand before all others.
const NO_DATA: &str =
    r#"{"schema":"type Query { b: Int! }","query":"query($n: String = \"Query\") { b x: __type(name: $n) { name } }","variables":{"n":null},"data":{}}"#;

const NO_DATA_ANSWERED: &str =
    "{\"errors\":[{\"message\":\"null value for non-nullable argument name\",\"path\":[\"x\"]},\
    {\"message\":\"non-null type Int! resolved to null\",\
    \"locations\":[{\"line\":1,\"column\":31}],\"path\":[\"b\"]}],\"data\":null}\n";

/// A variable that is not coerced.
const UNCOERCED: &str =
    r#"{"schema":"type Query { f(a: Int): Int }","query":"query($v: Int!) { f(a: $v) }"}"#;

const UNCOERCED_REFUSED: &str =
    "{\"errors\":[{\"message\":\"missing value for non-null variable 'v'\",\
    \"locations\":[{\"line\":1,\"column\":7}]}]}\n";

const CASES: [Case; 9] = [
    Case {
        words: &[],
        input: BOTH,
        status: ANSWERED,
        output: BOTH_ANSWERED,
    },
    Case {
        words: &[],
        input: BOTH_OFF,
        status: ANSWERED,
        output: BOTH_ANSWERED,
    },
    Case {
        words: &[],
        input: BELOW,
        status: ANSWERED,
        output: BELOW_ANSWERED,
    },
    Case {
        words: &[],
        input: NOTHING_LEFT,
        status: ANSWERED,
        output: NOTHING_LEFT_ANSWERED,
    },
    Case {
        words: &[],
        input: ERRORS,
        status: ANSWERED,
        output: ERRORS_ANSWERED,
    },
    Case {
        words: &[],
        input: NO_DATA,
        status: ANSWERED,
        output: NO_DATA_ANSWERED,
    },
    Case {
        words: &[],
        input: UNCOERCED,
        status: REFUSED,
        output: UNCOERCED_REFUSED,
    },
    Case {
        words: &[],
        input: "",
        status: REFUSED,
        output: "{\"errors\":[{\"message\":\"request: syntax at byte 0\"}]}\n",
    },
    Case {
        words: &["answer"],
        input: BOTH,
        status: MISUSED,
        output: "usage: gql_gateway\n",
    },
];

#[test]
fn requests_are_answered_from_both_places(rt: HostRuntime) -> Result<(), Fail> {
    for case in &CASES {
        assert!(rt;
            is_as_said(rt.alloc(), Program::Gateway, case)?,
            "{}",
            case.input
        );
    }
    Ok(())
}
