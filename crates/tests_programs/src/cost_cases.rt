//! What is answered within a cost, and what is refused for it.

use crate::running::{Case, Program, is_as_said};
use gql_cost::{ANSWERED, MISUSED, REFUSED};
use std::test::Fail;

/// An object with two fields: one node for the data, one for the object, and one for each field.
const OBJECT: &str =
    r#"{"schema":"type Query { a: A } type A { x: Int! y: Int }","query":"{ a { y x } }","data":{"a":{"y":1,"x":null}}}"#;

const OBJECT_ANSWERED: &str = "{\"errors\":[{\"message\":\"non-null type Int! resolved to null\",\
    \"locations\":[{\"line\":1,\"column\":9}],\"path\":[\"a\",\"x\"]}],\"data\":{\"a\":null}}\n";

/// Lists in a list: one node for the data, one for the list, one for each inner list, and one for each of its items.
const LISTS: &str =
    r#"{"schema":"type Query { f: [[Int]] }","query":"{ f }","data":{"f":[[1],[2,3]]}}"#;

const LISTS_ANSWERED: &str = "{\"data\":{\"f\":[[1],[2,3]]}}\n";

/// A variable that is not coerced.
const UNCOERCED: &str =
    r#"{"schema":"type Query { f(a: Int): Int }","query":"query($v: Int!) { f(a: $v) }"}"#;

const UNCOERCED_REFUSED: &str =
    "{\"errors\":[{\"message\":\"missing value for non-null variable 'v'\",\
    \"locations\":[{\"line\":1,\"column\":7}]}]}\n";

/// A fragment spread twice, and a field that the resolver fails at.
const SPREADS: &str =
    r#"{"schema":"type Query { f: Int }","query":"{ ...F ...F } fragment F on Query { f }","data":{"f":{"__error":"e"}}}"#;

const SPREADS_ANSWERED: &str =
    "{\"errors\":[{\"message\":\"resolver error: e\",\"locations\":[{\"line\":1,\"column\":37}],\
    \"path\":[\"f\"]}],\"data\":{\"f\":null}}\n";

/// The types of a schema, which are a list too.
const TYPES: &str =
    r#"{"schema":"type Query { f: Int }","query":"{ __type(name: \"Query\") { fields { name } } }","introspection":true}"#;

const TYPES_ANSWERED: &str = "{\"data\":{\"__type\":{\"fields\":[{\"name\":\"f\"}]}}}\n";

const TOO_COSTLY: &str = "{\"errors\":[{\"message\":\"cost above limit\"}]}\n";

const USAGE: &str = "usage: gql_cost ITEMS LIMIT\n";

/// A case that is answered within one limit and refused within the next lower one, for each request.
const CASES: [Case; 16] = [
    Case {
        words: &["1", "4"],
        input: OBJECT,
        status: ANSWERED,
        output: OBJECT_ANSWERED,
    },
    Case {
        words: &["1", "3"],
        input: OBJECT,
        status: REFUSED,
        output: TOO_COSTLY,
    },
    Case {
        words: &["4294967295", "4"],
        input: OBJECT,
        status: ANSWERED,
        output: OBJECT_ANSWERED,
    },
    Case {
        words: &["10", "112"],
        input: LISTS,
        status: ANSWERED,
        output: LISTS_ANSWERED,
    },
    Case {
        words: &["10", "111"],
        input: LISTS,
        status: REFUSED,
        output: TOO_COSTLY,
    },
    Case {
        words: &["0", "2"],
        input: LISTS,
        status: ANSWERED,
        output: LISTS_ANSWERED,
    },
    Case {
        words: &["1", "3"],
        input: SPREADS,
        status: ANSWERED,
        output: SPREADS_ANSWERED,
    },
    Case {
        words: &["1", "2"],
        input: SPREADS,
        status: REFUSED,
        output: TOO_COSTLY,
    },
    Case {
        words: &["1", "5"],
        input: TYPES,
        status: ANSWERED,
        output: TYPES_ANSWERED,
    },
    Case {
        words: &["1", "4"],
        input: TYPES,
        status: REFUSED,
        output: TOO_COSTLY,
    },
    Case {
        words: &["1", "0"],
        input: UNCOERCED,
        status: REFUSED,
        output: UNCOERCED_REFUSED,
    },
    Case {
        words: &["1", "0"],
        input: "",
        status: REFUSED,
        output: "{\"errors\":[{\"message\":\"request: syntax at byte 0\"}]}\n",
    },
    Case {
        words: &["1"],
        input: OBJECT,
        status: MISUSED,
        output: USAGE,
    },
    Case {
        words: &["01", "4"],
        input: OBJECT,
        status: MISUSED,
        output: USAGE,
    },
    Case {
        words: &["1", "4294967296"],
        input: OBJECT,
        status: MISUSED,
        output: USAGE,
    },
    Case {
        words: &["1", "4", "5"],
        input: OBJECT,
        status: MISUSED,
        output: USAGE,
    },
];

#[test]
fn requests_are_answered_up_to_their_cost(rt: HostRuntime) -> Result<(), Fail> {
    for case in &CASES {
        assert!(rt;
            is_as_said(rt.alloc(), Program::Cost, case)?,
            "{}",
            case.input
        );
    }
    Ok(())
}
