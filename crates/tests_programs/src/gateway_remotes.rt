//! Requests to a gateway over a remote that answers as it likes.

use crate::gateway_scripted::Scripted;
use bytes::Bytes;
use gql_gateway::gateway_answer;
use std::alloc::Global;
use std::test::Fail;

const SCHEMA: &str = "type Query { a: Int b: Int }";

/// A query, what the remote answers, if it does not fail, what the gateway tells, and how often it asks the remote.
struct Case {
    query: &'static str,
    response: Option<&'static str>,
    told: &'static str,
    asked: u64,
}

const CASES: [Case; 8] = [
    // Keys that nobody asked it for, and those that are answered here, are not looked at.
    Case {
        query: "{ t: __typename a }",
        response: Some(r#"{"data":{"a":1,"t":"Wrong","c":2}}"#),
        told: r#"{"data":{"t":"Query","a":1}}"#,
        asked: 1,
    },
    // Errors stand by the keys of the root; others are left out.
    Case {
        query: "{ a t: __typename b }",
        response: Some(
            r#"{"errors":[{"message":"b","path":["b"]},{"message":"nowhere"},{"message":"a","path":["a",0]},{"message":"t","path":["t"]}],"data":{"a":null,"b":null}}"#,
        ),
        told: r#"{"errors":[{"message":"a","path":["a",0]},{"message":"b","path":["b"]}],"data":{"a":null,"t":"Query","b":null}}"#,
        asked: 1,
    },
    // Without data all of them stand.
    Case {
        query: "{ a t: __typename }",
        response: Some(r#"{"errors":[{"message":"nowhere"}],"data":null}"#),
        told: r#"{"errors":[{"message":"nowhere"}],"data":null}"#,
        asked: 1,
    },
    Case {
        query: "{ t: __typename b a }",
        response: Some(r#"{"data":{"t":"Query","b":1}}"#),
        told: r#"{"errors":[{"message":"gateway: missing key 'a'"}]}"#,
        asked: 1,
    },
    Case {
        query: "{ a }",
        response: None,
        told: r#"{"errors":[{"message":"gateway: remote failed"}]}"#,
        asked: 1,
    },
    // What asks for the schema alone is answered while the remote is down.
    Case {
        query: "{ __schema { queryType { name } } }",
        response: None,
        told: r#"{"data":{"__schema":{"queryType":{"name":"Query"}}}}"#,
        asked: 0,
    },
    Case {
        query: "{ c }",
        response: None,
        told: r#"{"errors":[{"message":"type `Query` does not have a field `c`","locations":[{"line":1,"column":3}]}]}"#,
        asked: 0,
    },
    Case {
        query: "query ($t: Boolean!) { a @skip(if: $t) }",
        response: None,
        told: r#"{"errors":[{"message":"missing value for non-null variable 't'","locations":[{"line":1,"column":8}]}]}"#,
        asked: 0,
    },
];

/// Whether the gateway tells what the case says, asks the remote so often, and counts a fault just where the remote failed.
fn is_as_said(alloc: Global, case: &Case) -> Result<bool, Fail> {
    let mut remote = Scripted::new(case.response);
    let variables = Bytes::from_static(b"{}");
    let told = match gateway_answer(alloc, SCHEMA, case.query, None, &variables, &mut remote) {
        Ok(response) => response,
        Err(refusal) => refusal.into_bytes(alloc)?,
    };
    let is_told = told.as_slice() == case.told.as_bytes();
    let faults = if case.response.is_none() {
        case.asked
    } else {
        0
    };
    Ok(is_told && remote.asked == case.asked && remote.faults == faults)
}

#[test]
fn a_remote_answers_for_its_keys(rt: HostRuntime) -> Result<(), Fail> {
    for case in &CASES {
        assert!(rt; is_as_said(rt.alloc(), case)?, "{}", case.query);
    }
    Ok(())
}

#[test]
fn the_operation_of_the_name_is_answered(rt: HostRuntime) -> Result<(), Fail> {
    let mut remote = Scripted::new(Some(r#"{"data":{"a":1}}"#));
    let query = "query A { b } query B ($t: Boolean!) { a @include(if: $t) b @skip(if: $t) }";
    let variables = Bytes::from_static(b"{\"t\":true}");
    let told = match gateway_answer(
        rt.alloc(),
        SCHEMA,
        query,
        Some("B"),
        &variables,
        &mut remote,
    ) {
        Ok(response) => response,
        Err(refusal) => refusal.into_bytes(rt.alloc())?,
    };
    assert!(rt; told.as_slice() == "{\"data\":{\"a\":1}}".as_bytes());
    Ok(())
}
