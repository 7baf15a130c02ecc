//! A mock server without its sockets: its schema is checked once, and each request is answered from plain data, or told why not.
#![tactic(auto)]

use bytes::Bytes;
use gql_engine::{AnswerError, DataObject, Question, Service, Value, from_bytes_whole};
use std::alloc::Global;
use std::io::{self, Write};

const SCHEMA: &str =
    "type Query { book(title: String!): Book } type Book { title: String year: Int }";

/// Each field is the member of its name, whatever its arguments.
const DATA: &[u8] = b"{\"book\":{\"title\":\"Emma\",\"year\":1815}}";

/// The texts of queries, and the values of their variables.
const REQUESTS: [(&str, &[u8]); 6] = [
    ("{ book(title: \"Emma\") { title year } }", b"{}"),
    (
        "query ($title: String!) { book(title: $title) { year } }",
        b"{\"title\":\"Emma\"}",
    ),
    (
        "query ($title: String!) { book(title: $title) { year } }",
        b"{}",
    ),
    ("query One { __typename } query Two { __typename }", b"{}"),
    ("{ book(title: \"Emma\") { pages } }", b"{}"),
    ("{ __typename }", b"[]"),
];

fn main(rt: HostRuntime) -> io::Result<()> {
    match Service::new(rt.alloc(), SCHEMA) {
        Ok(service) => serve(rt, &service),
        Err(_) => println!(rt; "the schema is wrong"),
    }
}

/// Answers requests from the data.
fn serve(rt: HostRuntime, service: &Service) -> io::Result<()> {
    match from_bytes_whole(rt.alloc(), &Bytes::from_static(DATA)) {
        Ok(data) => answer_all(rt, service, &data),
        Err(_) => println!(rt; "the data is no JSON text"),
    }
}

/// Answers each request, if the data is an object.
fn answer_all(rt: HostRuntime, service: &Service, data: &Value) -> io::Result<()> {
    let Some(data) = data.as_object() else {
        return println!(rt; "the data is no JSON object");
    };
    let root = DataObject::root(data);
    for (query, variables) in REQUESTS {
        answer_one(rt, service, &root, query, variables)?;
    }
    Ok(())
}

/// Answers one request.
fn answer_one(
    rt: HostRuntime,
    service: &Service,
    root: &DataObject<'_>,
    query: &'static str,
    variables: &'static [u8],
) -> io::Result<()> {
    let variables = Bytes::from_static(variables);
    let answer = ask(rt.alloc(), service, root, query, &variables);
    print_answer(rt, answer)
}

/// What a service answers to a query with the values of its variables.
fn ask<'q>(
    alloc: Global,
    service: &Service,
    root: &DataObject<'_>,
    query: &'q str,
    variables: &'q Bytes,
) -> Result<Bytes, AnswerError> {
    let question = Question {
        query,
        operation_name: None,
        variables,
        introspection: false,
    };
    service.answer_uncounted(alloc, &question, root)
}

/// Prints the response to a request, or why there is none.
fn print_answer(rt: HostRuntime, answer: Result<Bytes, AnswerError>) -> io::Result<()> {
    match answer {
        Ok(response) => print_line(rt, "response", &response),
        Err(refusal) => print_refusal(rt, refusal),
    }
}

/// Prints what a client is told of a refusal.
fn print_refusal(rt: HostRuntime, refusal: AnswerError) -> io::Result<()> {
    let what = cause(&refusal);
    match refusal.into_bytes(rt.alloc()) {
        Ok(errors) => print_line(rt, what, &errors),
        Err(_) => println!(rt; "no memory"),
    }
}

/// What a request lacks.
fn cause(refusal: &AnswerError) -> &'static str {
    match refusal {
        AnswerError::Variables(_) => "no variables",
        AnswerError::Schema(_) => "no schema",
        AnswerError::Document(_) => "no document",
        AnswerError::Request { .. } => "no request",
        AnswerError::Memory => "no memory",
    }
}

/// Prints what it is, and bytes.
fn print_line(rt: HostRuntime, what: &str, bytes: &Bytes) -> io::Result<()> {
    print!(rt; "{what}: ")?;
    io::writer(&rt).write_all(bytes)?;
    println!(rt; "")
}
