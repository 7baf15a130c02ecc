//! Verdicts on responses to two requests.

use crate::running::{Program, ends};
use gql_checker::{ANSWERED, REFUSED};
use jb_print::append_string;
use std::alloc::Global;
use std::test::Fail;

/// What a response is said to answer, a text of JSON without its end, the response, and the verdict.
struct Case {
    request: &'static str,
    response: &'static str,
    verdict: &'static str,
}

/// An object with a field that may be null, and one that may not and is.
const OBJECT: &str =
    r#"{"schema":"type Query { a: A } type A { x: Int! y: Int }","query":"{ a { y x } }","data":{"a":{"y":1,"x":null}}"#;

/// Lists in a list, and a leaf that is an object of JSON.
const LISTS: &str =
    r#"{"schema":"scalar S type Query { f: [[Int]] g: S }","query":"{ f g }","data":{"f":[[1],[2,3]],"g":{"k":1,"l":2}}"#;

const CASES: [Case; 26] = [
    Case {
        request: OBJECT,
        response: r#"{"errors":[{"message":"non-null type Int! resolved to null","locations":[{"line":1,"column":9}],"path":["a","x"]}],"data":{"a":null}}"#,
        verdict: r#"explained"#,
    },
    Case {
        request: OBJECT,
        response: r#"{"data":{"a":null}}"#,
        verdict: r#"bad value at ["a"]"#,
    },
    Case {
        request: OBJECT,
        response: r#"{"errors":[{"message":"non-null type Int! resolved to null","locations":[{"line":1,"column":8}],"path":["a","x"]}],"data":{"a":null}}"#,
        verdict: r#"false error 0"#,
    },
    Case {
        request: OBJECT,
        response: r#""#,
        verdict: r#"not a response"#,
    },
    Case {
        request: OBJECT,
        response: r#"{"data":null"#,
        verdict: r#"not a response"#,
    },
    Case {
        request: OBJECT,
        response: r#"{"data":null,"x":1}"#,
        verdict: r#"not a response"#,
    },
    Case {
        request: OBJECT,
        response: r#"{"data":null}"#,
        verdict: r#"bad value at []"#,
    },
    Case {
        request: OBJECT,
        response: r#"{}"#,
        verdict: r#"bad value at []"#,
    },
    Case {
        request: OBJECT,
        response: r#"{"data":{}}"#,
        verdict: r#"bad value at []"#,
    },
    Case {
        request: OBJECT,
        response: r#"{"data":{"a":null,"b":1}}"#,
        verdict: r#"bad value at []"#,
    },
    Case {
        request: OBJECT,
        response: r#"{"errors":[{"message":"non-null type Int! resolved to null","path":["a","x"]}],"data":{"a":null}}"#,
        verdict: r#"false error 0"#,
    },
    Case {
        request: OBJECT,
        response: r#"{"errors":[{"message":"non-null type Int! resolved to null","locations":[{"line":1,"column":9}],"path":["a","x"]}],"data":{"a":{"y":1,"x":null}}}"#,
        verdict: r#"bad value at ["a","x"]"#,
    },
    Case {
        request: OBJECT,
        response: r#"{"errors":[{"message":"non-null type Int! resolved to null","locations":[{"line":1,"column":9}],"path":["a","x"]}],"data":{"a":{"x":null,"y":1}}}"#,
        verdict: r#"bad value at ["a"]"#,
    },
    Case {
        request: OBJECT,
        response: r#"{"errors":[{"message":"non-null type Int! resolved to null","locations":[{"line":1,"column":9}],"path":["a","x"]}],"data":null}"#,
        verdict: r#"bad value at []"#,
    },
    Case {
        request: OBJECT,
        response: r#"{"errors":[{"message":"non-null type Int! resolved to null","locations":[{"line":1,"column":9}],"path":["a","x"]},{"message":"non-null type Int! resolved to null","locations":[{"line":1,"column":9}],"path":["a","x"]}],"data":{"a":null}}"#,
        verdict: r#"explained"#,
    },
    Case {
        request: OBJECT,
        response: r#"{"errors":[{"message":"non-null type Int! resolved to null","locations":[{"line":1,"column":9}],"path":["a","x"]},{"message":"non-null type Int! resolved to null","locations":[{"line":1,"column":7}],"path":["a","x"]}],"data":{"a":null}}"#,
        verdict: r#"false error 1"#,
    },
    Case {
        request: OBJECT,
        response: r#"{"errors":[{"message":"non-null type Int! resolved to null","locations":[{"line":1,"column":9}],"path":["a","x"]},{"message":"non-null type Int! resolved to null","locations":[{"line":1,"column":7}],"path":["a","x"]},{"message":"non-null type Int! resolved to null","locations":[{"line":1,"column":8}],"path":["a","x"]}],"data":{"a":1}}"#,
        verdict: r#"false error 1"#,
    },
    Case {
        request: OBJECT,
        response: r#"{"errors":[{"message":"m"}],"data":{"a":null}}"#,
        verdict: r#"false error 0"#,
    },
    Case {
        request: OBJECT,
        response: r#"{"errors":[{"message":"non-null type Int! resolved to null","locations":[{"line":1,"column":9}],"path":["a","x"],"extensions":{"k":1}}],"data":{"a":null}}"#,
        verdict: r#"false error 0"#,
    },
    Case {
        request: OBJECT,
        response: r#"{"errors":[{"message":"non-null type Int! resolved to null","locations":[{"line":1,"column":9}],"path":["a","x",0]}],"data":{"a":null}}"#,
        verdict: r#"false error 0"#,
    },
    Case {
        request: LISTS,
        response: r#"{"data":{"f":[[1],[2,3]],"g":{"k":1,"l":2}}}"#,
        verdict: r#"explained"#,
    },
    Case {
        request: LISTS,
        response: r#"{"data":{"f":[[1],[2]],"g":{"k":1,"l":2}}}"#,
        verdict: r#"bad value at ["f",1]"#,
    },
    Case {
        request: LISTS,
        response: r#"{"data":{"f":[[1],[2,4]],"g":{"k":1,"l":2}}}"#,
        verdict: r#"bad value at ["f",1,1]"#,
    },
    Case {
        request: LISTS,
        response: r#"{"data":{"f":[[1],null],"g":{"k":1,"l":2}}}"#,
        verdict: r#"bad value at ["f",1]"#,
    },
    Case {
        request: LISTS,
        response: r#"{"data":{"f":[[1],[2,3]],"g":{"l":2,"k":1}}}"#,
        verdict: r#"bad value at ["g"]"#,
    },
    Case {
        request: LISTS,
        response: r#"{"errors":[{"message":"m","path":["f",18446744073709551615]}],"data":{"f":[[1],[2,3]],"g":{"k":1,"l":2}}}"#,
        verdict: r#"false error 0"#,
    },
];

/// Whether the program gives just this verdict, with the status that it has.
fn is_judged(alloc: Global, case: &Case) -> Result<bool, Fail> {
    let mut input = String::from_str(alloc, case.request)?;
    input.push_str(",\"response\":")?;
    append_string(&mut input, case.response)?;
    input.push_str("}")?;
    let verdict = case.verdict;
    let output = format!(in alloc; "{verdict}\n")?;
    let status = if verdict == "explained" {
        ANSWERED
    } else {
        REFUSED
    };
    ends(
        alloc,
        Program::Checker,
        &[],
        input.as_str(),
        status,
        output.as_str(),
    )
}

#[test]
fn responses_get_their_verdicts(rt: HostRuntime) -> Result<(), Fail> {
    for case in &CASES {
        assert!(rt; is_judged(rt.alloc(), case)?, "{}", case.response);
    }
    Ok(())
}
