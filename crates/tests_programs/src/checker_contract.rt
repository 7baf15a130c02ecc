//! A contract between two teams as a test: what another server answered to recorded requests, beside the resolvers of this one.

use bytes::Bytes;
use gql_checker::{Verdict, check_prepared};
use gql_engine::phases::Wanted;
use gql_engine::{DataObject, Map, Prepared, Service, Value, from_bytes_whole};
use std::alloc::Global;
use std::mem::ManuallyDrop;
use std::test::Fail;

const SCHEMA: &str =
    "type Query { book(id: ID!): Book } type Book { title: String! author: Author } type Author { name: String! }";

const QUERY: &str = "query Book($id: ID!) { book(id: $id) { title author { name } } }";

const DATA: &[u8] = br#"{"book":{"title":"Emma","author":{"__error":"unknown"}}}"#;

/// What the other server was given and what it answered.
struct Recorded {
    variables: &'static [u8],
    response: &'static [u8],
    verdict: &'static str,
}

const RECORDED: [Recorded; 4] = [
    Recorded {
        variables: br#"{"id":"1"}"#,
        response: br#"{"data":{"book":{"title":"Emma","author":null}},"errors":[{"path":["book","author"],"locations":[{"column":46,"line":1}],"message":"resolver error: unknown"}]}"#,
        verdict: "explained",
    },
    Recorded {
        variables: br#"{"id":"1"}"#,
        response: br#"{"data":{"book":{"title":"Emma","author":null}}}"#,
        verdict: "bad value",
    },
    Recorded {
        variables: br#"{"id":"1"}"#,
        response: br#"{"data":{"book":null},"errors":[{"message":"no book","path":["book"]}]}"#,
        verdict: "false error",
    },
    Recorded {
        variables: b"{}",
        response: b"",
        verdict: "refused",
    },
];

/// What is said of a response, in a word.
fn word_of(verdict: &Verdict) -> &'static str {
    match verdict {
        Verdict::Explained => "explained",
        Verdict::NotResponse(_) => "not a response",
        Verdict::FalseError { .. } => "false error",
        Verdict::BadValue { .. } => "bad value",
    }
}

/// Whether a recorded response has its verdict.
fn keeps(
    alloc: Global,
    prepared: &Prepared<'_>,
    data: &Map,
    recorded: &Recorded,
) -> Result<bool, Fail> {
    let variables = read(alloc, recorded.variables)?;
    let variables = variables.as_object().ok_or("no object")?;
    let resolvers = DataObject::root(data);
    let response = Bytes::from_static(recorded.response);
    let wanted = Wanted {
        operation_name: None,
        variables,
        introspection: false,
    };
    let word = match check_prepared(alloc, prepared, &wanted, &resolvers, &response) {
        Ok(verdict) => word_of(&verdict),
        Err(_) => "refused",
    };
    Ok(word == recorded.verdict)
}

fn read(alloc: Global, text: &'static [u8]) -> Result<Value, Fail> {
    match from_bytes_whole(alloc, &Bytes::from_static(text)) {
        Ok(value) => Ok(value),
        Err(_) => Err("no JSON")?,
    }
}

/// Whether all recorded responses have their verdicts.
fn all_keep(alloc: Global, service: &Service) -> Result<bool, Fail> {
    let data = read(alloc, DATA)?;
    let data = data.as_object().ok_or("no object")?;
    match service.prepare(alloc, QUERY) {
        Ok(prepared) => {
            let prepared = ManuallyDrop::new(prepared);
            for recorded in &RECORDED {
                if !keeps(alloc, &prepared, data, recorded)? {
                    return Ok(false);
                }
            }
            Ok(true)
        }
        Err(_) => Err("the query is wrong")?,
    }
}

#[test]
fn another_server_is_held_to_its_contract(rt: HostRuntime) -> Result<(), Fail> {
    match Service::new(rt.alloc(), SCHEMA) {
        Ok(service) => {
            let service = ManuallyDrop::new(service);
            assert!(rt; all_keep(rt.alloc(), &service)?);
            Ok(())
        }
        Err(_) => Err("the schema is wrong")?,
    }
}
