//! A gateway over two services, each with a schema: the one executes on plain data, the other is out of reach. What a client is told of
//! each is printed.
#![tactic(auto)]

mod loans;

use bytes::Bytes;
use gql_engine::{Value, from_bytes_whole};
use gql_gateway::{DataObject, GatewayError, LocalRemote, Remote, gateway_answer};
use loans::Loans;
use std::alloc::Global;
use std::io::{self, Write};

const BOOKS: &str = "type Query { book: Book } type Book { title: String year: Int }";

const LOANS: &str = "type Query { loan: Loan } type Loan { due: String }";

/// Each field of a book is the member of its name.
const DATA: &[u8] = b"{\"book\":{\"title\":\"Emma\",\"year\":1815}}";

/// The schema of each is told here, what it has is not.
const OF_BOOKS: [&str; 3] = [
    "{ book { title } }",
    "{ __typename book { year } __type(name: \"Book\") { fields { name } } }",
    "{ __typename shelf }",
];

const OF_LOANS: [&str; 2] = [
    "{ __schema { queryType { name } } }",
    "{ __typename loan { due } }",
];

fn main(rt: HostRuntime) -> io::Result<()> {
    match from_bytes_whole(rt.alloc(), &Bytes::from_static(DATA)) {
        Ok(data) => answer_all(rt, &data),
        Err(_) => println!(rt; "the data is no JSON text"),
    }
}

/// Answers the queries to both services.
fn answer_all(rt: HostRuntime, data: &Value) -> io::Result<()> {
    let Some(data) = data.as_object() else {
        return println!(rt; "the data is no JSON object");
    };
    let root = DataObject::root(data);
    let mut books = LocalRemote::new(&root);
    for query in OF_BOOKS {
        print_answer(rt, ask(rt.alloc(), BOOKS, query, &mut books))?;
    }
    let mut loans = Loans::new();
    for query in OF_LOANS {
        print_answer(rt, ask(rt.alloc(), LOANS, query, &mut loans))?;
    }
    println!(rt; "loans failed {} times", loans.failures())
}

/// What the gateway answers to a query over a service.
fn ask<R: Remote>(
    alloc: Global,
    schema: &str,
    query: &str,
    service: &mut R,
) -> Result<Bytes, GatewayError> {
    let variables = Bytes::from_static(b"{}");
    gateway_answer(alloc, schema, query, None, &variables, service)
}

/// Prints a response, or what a client is told where there is none.
fn print_answer(rt: HostRuntime, answer: Result<Bytes, GatewayError>) -> io::Result<()> {
    match answer {
        Ok(response) => print_line(rt, "response", &response),
        Err(refusal) => print_refusal(rt, refusal),
    }
}

/// Prints what a client is told of a refusal.
fn print_refusal(rt: HostRuntime, refusal: GatewayError) -> io::Result<()> {
    let what = cause(&refusal);
    match refusal.into_bytes(rt.alloc()) {
        Ok(errors) => print_line(rt, what, &errors),
        Err(_) => println!(rt; "no memory"),
    }
}

/// Who has to do something about a refusal.
fn cause(refusal: &GatewayError) -> &'static str {
    match refusal {
        GatewayError::Answer(_) | GatewayError::TooLarge => "wrong request",
        GatewayError::Remote | GatewayError::MissingKey(_) => "wrong service",
        GatewayError::Memory => "no memory",
    }
}

/// Prints what it is, and bytes.
fn print_line(rt: HostRuntime, what: &str, bytes: &Bytes) -> io::Result<()> {
    print!(rt; "{what}: ")?;
    io::writer(&rt).write_all(bytes)?;
    println!(rt; "")
}
