//! Requests that are refused before anything is resolved (GraphQL October 2021, section 6.1).

use crate::execution::answered_otherwise;
use crate::sample::Sample;
use std::alloc::Global;
use std::test::Fail;

/// Schemas, queries, and the error that tells why there is no response. Of several causes the first is told: the
/// operation, then its root type, then its variables.
const ROWS: &[(&str, &str, &str)] = &[
    (
        "type Query { f: Int }",
        "query A { f } query B { f }",
        r#"{"errors":[{"message":"document has 2 operations and no name was given"}]}"#,
    ),
    (
        "type Query { f: Int }",
        "fragment F on Query { f }",
        r#"{"errors":[{"message":"document has 0 operations and no name was given"}]}"#,
    ),
    (
        "schema { query: Node } interface Node { f: Int }",
        "query A { f } query B { f }",
        r#"{"errors":[{"message":"document has 2 operations and no name was given"}]}"#,
    ),
    (
        "schema { query: Node } interface Node { f(a: Int): Int }",
        "query($v: Int!) { f(a: $v) }",
        r#"{"errors":[{"message":"Undefined root operation type","extensions":{"APOLLO_SUSPECTED_VALIDATION_BUG":true}}]}"#,
    ),
    (
        "type Query { f: Int } schema { query: Query mutation: U } union U = Query",
        "mutation { __typename }",
        r#"{"errors":[{"message":"Undefined root operation type","extensions":{"APOLLO_SUSPECTED_VALIDATION_BUG":true}}]}"#,
    ),
    (
        "type Query { f(a: Int): Int }",
        "query($v: Int!) { f(a: $v) }",
        r#"{"errors":[{"message":"missing value for non-null variable 'v'","locations":[{"line":1,"column":7}]}]}"#,
    ),
];

/// The first row that is answered otherwise, and the answer.
fn refused_otherwise(alloc: Global, rows: &[(&str, &str, &str)]) -> Result<String, Fail> {
    for (schema, query, response) in rows {
        let row = [(*query, Sample::Null, *response)];
        let wrong = answered_otherwise(alloc, schema, &row)?;
        if !wrong.is_empty() {
            return Ok(wrong);
        }
    }
    Ok(String::new(alloc))
}

#[test]
fn the_first_cause_is_told(rt: HostRuntime) -> Result<(), Fail> {
    let wrong = refused_otherwise(rt.alloc(), ROWS)?;
    assert_eq!(rt; wrong.as_str(), "");
    Ok(())
}
