//! What the response checker says of small requests.

use crate::running::{Case, Program, is_as_said};
use gql_checker::{ANSWERED, MISUSED, REFUSED};
use std::test::Fail;

const USAGE: &str = "usage: gql_checker\n";

const CASES: [Case; 10] = [
    Case {
        words: &["x"],
        input: "",
        status: MISUSED,
        output: USAGE,
    },
    Case {
        words: &[],
        input: "",
        status: REFUSED,
        output: "{\"errors\":[{\"message\":\"request: syntax at byte 0\"}]}\n",
    },
    Case {
        words: &[],
        input: r#"{"schema":"type Query { f: Int }","query":"{ f }","data":1}"#,
        status: REFUSED,
        output: "{\"errors\":[{\"message\":\"request: member `data` has a wrong kind\"}]}\n",
    },
    Case {
        words: &[],
        input: r#"{"schema":"type Query { f: Int }","query":"{ f }"}"#,
        status: REFUSED,
        output: "{\"errors\":[{\"message\":\"request: member `response` is missing\"}]}\n",
    },
    Case {
        words: &[],
        input: r#"{"schema":"type Query { f: Int }","query":"{ f }","response":{}}"#,
        status: REFUSED,
        output: "{\"errors\":[{\"message\":\"request: member `response` has a wrong kind\"}]}\n",
    },
    Case {
        words: &[],
        input: r#"{"schema":"type Query { f(a: Int): Int }","query":"query($v: Int!) { f(a: $v) }","response":""}"#,
        status: REFUSED,
        output: "{\"errors\":[{\"message\":\"missing value for non-null variable 'v'\",\
            \"locations\":[{\"line\":1,\"column\":7}]}]}\n",
    },
    Case {
        words: &[],
        input: r#"{"schema":"type Query { f: Int }","query":"{ f }","data":{"f":1},"response":"{\"data\":{\"f\":1}}"}"#,
        status: ANSWERED,
        output: "explained\n",
    },
    Case {
        words: &[],
        input: r#"{"schema":"type Query { f: Int }","query":"{ __typename }","response":"{\"data\":{\"__typename\":\"Query\"}}"}"#,
        status: ANSWERED,
        output: "explained\n",
    },
    // A field that tells of the schema fails where introspection is off, and is asked for where it is on.
    Case {
        words: &[],
        input: r#"{"schema":"type Query { f: Int }","query":"{ __type(name: \"Query\") { name } }","response":"{\"data\":{\"__type\":{\"name\":\"Query\"}}}"}"#,
        status: REFUSED,
        output: "bad value at [\"__type\"]\n",
    },
    Case {
        words: &[],
        input: r#"{"schema":"type Query { f: Int }","query":"{ __type(name: \"Query\") { name } }","introspection":true,"response":"{\"data\":{\"__type\":{\"name\":\"Query\"}}}"}"#,
        status: ANSWERED,
        output: "explained\n",
    },
];

#[test]
fn requests_are_refused_or_judged(rt: HostRuntime) -> Result<(), Fail> {
    for case in &CASES {
        assert!(rt;
            is_as_said(rt.alloc(), Program::Checker, case)?,
            "{}",
            case.input
        );
    }
    Ok(())
}
