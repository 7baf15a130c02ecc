//! What a client is told of each refusal of a call.

use bytes::Bytes;
use gql_engine::{DataObject, Map, answer_uncounted};
use std::alloc::Global;
use std::test::Fail;

/// A call that is refused, and the refusal as JSON.
struct Case {
    schema: &'static str,
    query: &'static str,
    variables: &'static str,
    told: &'static str,
}

const SCHEMA: &str = "type Query { a(n: Int): Int }";

/// A case for each kind of refusal but the one when out of memory.
const CASES: [Case; 7] = [
    Case {
        schema: SCHEMA,
        query: "{ a }",
        variables: "{\"n\" 1}",
        told: r#"{"errors":[{"message":"variables: syntax at byte 5"}]}"#,
    },
    Case {
        schema: SCHEMA,
        query: "{ a }",
        variables: "[]",
        told: r#"{"errors":[{"message":"variables: not an object"}]}"#,
    },
    Case {
        schema: "type Query { a: A }",
        query: "{ a }",
        variables: "{}",
        told: r#"{"errors":[{"message":"cannot find type `A` in this document","locations":[{"line":1,"column":17}]}]}"#,
    },
    Case {
        schema: SCHEMA,
        query: "{ b }",
        variables: "{}",
        told: r#"{"errors":[{"message":"type `Query` does not have a field `b`","locations":[{"line":1,"column":3}]}]}"#,
    },
    Case {
        schema: SCHEMA,
        query: "query A { a } query B { a }",
        variables: "{}",
        told: r#"{"errors":[{"message":"document has 2 operations and no name was given"}]}"#,
    },
    Case {
        schema: SCHEMA,
        query: "{ __schema { types { fields { type { fields { type { fields { name } } } } } } } }",
        variables: "{}",
        told: r#"{"errors":[{"message":"Maximum introspection depth exceeded","locations":[{"line":1,"column":54}]}]}"#,
    },
    Case {
        schema: SCHEMA,
        query: "query ($n: Int!) { a(n: $n) }",
        variables: "{}",
        told: r#"{"errors":[{"message":"missing value for non-null variable 'n'","locations":[{"line":1,"column":8}]}]}"#,
    },
];

/// The refusal of a call, with introspection on, as JSON.
fn refusal_of(alloc: Global, case: &Case) -> Result<Bytes, Fail> {
    let no_members = Map::new(alloc);
    let root = DataObject::root(&no_members);
    let variables = Bytes::from_static(case.variables.as_bytes());
    match answer_uncounted(
        alloc,
        case.schema,
        case.query,
        None,
        &variables,
        true,
        &root,
    ) {
        Ok(response) => Ok(response),
        Err(refusal) => Ok(refusal.into_bytes(alloc)?),
    }
}

#[test]
fn each_refusal_is_told(rt: HostRuntime) -> Result<(), Fail> {
    for case in &CASES {
        let told = refusal_of(rt.alloc(), case)?;
        assert!(rt; told.as_slice() == case.told.as_bytes(), "{}", case.query);
    }
    Ok(())
}
