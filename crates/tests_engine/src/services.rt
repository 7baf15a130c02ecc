//! A service asked more than once gives what `answer` gives of the texts; so does a query that was prepared.

use bytes::Bytes;
use gql_engine::{
    AnswerError, DataObject, Map, Prepared, Question, Refused, Service, answer_uncounted,
    refusal_of_diagnostics,
};
use std::alloc::Global;
use std::mem::ManuallyDrop;
use std::test::Fail;

const SCHEMA: &str =
    "type Query { a(n: Int): Int b: [B!] } interface N { id: Int } type B implements N { id: Int }";

/// A query, with the JSON text of its variables.
struct Case {
    query: &'static str,
    variables: &'static str,
}

/// A query that is answered, one with introspection, and one that is refused for each cause but the schema's own.
const CASES: [Case; 8] = [
    Case {
        query: "query ($n: Int) { a(n: $n) b { id } }",
        variables: "{\"n\":1}",
    },
    Case {
        query: "{ __type(name: \"N\") { possibleTypes { name } } }",
        variables: "{}",
    },
    Case {
        query: "{ a }",
        variables: "{\"n\" 1}",
    },
    Case {
        query: "{ a }",
        variables: "[]",
    },
    Case {
        query: "{ c }",
        variables: "{}",
    },
    Case {
        query: "query A { a } query B { a }",
        variables: "{}",
    },
    Case {
        query: "{ __schema { types { fields { type { fields { type { fields { name } } } } } } } }",
        variables: "{}",
    },
    Case {
        query: "query ($n: Int!) { a(n: $n) }",
        variables: "{}",
    },
];

/// The response, or the refusal as a client is told it.
fn told(alloc: Global, answer: Result<Bytes, AnswerError>) -> Result<Bytes, Fail> {
    match answer {
        Ok(response) => Ok(response),
        Err(refusal) => Ok(refusal.into_bytes(alloc)?),
    }
}

/// What `answer` gives of a query with introspection on, whose data are empty.
fn by_answer(alloc: Global, query: &str, variables: &Bytes) -> Result<Bytes, Fail> {
    let no_members = Map::new(alloc);
    let root = DataObject::root(&no_members);
    told(
        alloc,
        answer_uncounted(alloc, SCHEMA, query, None, variables, true, &root),
    )
}

/// What a service gives of it.
fn by_service<'q>(
    alloc: Global,
    service: &Service,
    query: &'q str,
    variables: &'q Bytes,
) -> Result<Bytes, Fail> {
    let no_members = Map::new(alloc);
    let root = DataObject::root(&no_members);
    let question = Question {
        query,
        operation_name: None,
        variables,
        introspection: true,
    };
    told(alloc, service.answer_uncounted(alloc, &question, &root))
}

/// What a service gives of it once it is prepared, or what is wrong with the query.
fn by_preparing(
    alloc: Global,
    service: &Service,
    query: &str,
    variables: &Bytes,
) -> Result<Bytes, Fail> {
    match service.prepare(alloc, query) {
        Ok(prepared) => by_prepared(alloc, &ManuallyDrop::new(prepared), variables),
        Err(Refused::Fault(list)) => Ok(refusal_of_diagnostics(alloc, list)?),
        Err(Refused::Memory) => Err("no memory")?,
    }
}

/// What a prepared query gives, asked twice.
fn by_prepared(alloc: Global, prepared: &Prepared<'_>, variables: &Bytes) -> Result<Bytes, Fail> {
    let no_members = Map::new(alloc);
    let root = DataObject::root(&no_members);
    let first = told(
        alloc,
        prepared.answer_uncounted(alloc, None, variables, true, &root),
    )?;
    let second = told(
        alloc,
        prepared.answer_uncounted(alloc, None, variables, true, &root),
    )?;
    if first.as_slice() == second.as_slice() {
        Ok(second)
    } else {
        Ok(Bytes::from_static(b"the second answer is another"))
    }
}

/// What wrong schemas are told of, by a service that is asked for and by `answer`.
const WRONG_SCHEMAS: [&str; 3] = [
    "type Query {",
    "type Query { a: A }",
    "type Query { a: Int a: Int } type Query",
];

/// Whether each case has the answer of `answer`, by one service and by one query that is prepared.
fn are_alike(alloc: Global, service: &Service) -> Result<bool, Fail> {
    for case in &CASES {
        let variables = Bytes::from_static(case.variables.as_bytes());
        let wanted = by_answer(alloc, case.query, &variables)?;
        let answered = by_service(alloc, service, case.query, &variables)?;
        let prepared = by_preparing(alloc, service, case.query, &variables)?;
        if answered.as_slice() != wanted.as_slice() || prepared.as_slice() != wanted.as_slice() {
            return Ok(false);
        }
    }
    Ok(true)
}

#[test]
fn a_service_answers_as_its_texts_do(rt: HostRuntime) -> Result<(), Fail> {
    match Service::new(rt.alloc(), SCHEMA) {
        Ok(service) => {
            let service = ManuallyDrop::new(service);
            for round in 0..3 {
                assert!(rt; are_alike(rt.alloc(), &service)?, "round {round}");
            }
            Ok(())
        }
        Err(_) => Err("no service")?,
    }
}

/// What is wrong with a schema, as a client is told it.
fn refusal_of_schema(alloc: Global, schema: &str) -> Result<Bytes, Fail> {
    match Service::new(alloc, schema) {
        Ok(service) => {
            let _service = ManuallyDrop::new(service);
            Ok(Bytes::new())
        }
        Err(Refused::Fault(list)) => Ok(refusal_of_diagnostics(alloc, list)?),
        Err(Refused::Memory) => Err("no memory")?,
    }
}

#[test]
fn a_wrong_schema_has_no_service(rt: HostRuntime) -> Result<(), Fail> {
    let no_variables = Bytes::from_static(b"{}");
    for schema in &WRONG_SCHEMAS {
        let no_members = Map::new(rt.alloc());
        let root = DataObject::root(&no_members);
        let answer = answer_uncounted(
            rt.alloc(),
            schema,
            "{ a }",
            None,
            &no_variables,
            true,
            &root,
        );
        let wanted = told(rt.alloc(), answer)?;
        let found = refusal_of_schema(rt.alloc(), schema)?;
        assert!(rt; found.as_slice() == wanted.as_slice(), "{schema}");
    }
    Ok(())
}
