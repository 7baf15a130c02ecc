//! A first resolver: a library with one book answers a query, and the response is printed.
#![tactic(auto)]

mod library;

use bytes::Bytes;
use gql_engine::{Memory, answer_uncounted};
use library::Library;
use std::alloc::Global;
use std::io::{self, Write};

const SCHEMA: &str = "type Query { book: Book } type Book { title: String year: Int }";

const QUERY: &str = "{ book { title year } }";

fn main(rt: HostRuntime) -> io::Result<()> {
    match reply(rt.alloc()) {
        Ok(reply) => io::writer(&rt).write_all(&reply),
        Err(_) => println!(rt; "out of memory"),
    }
}

/// The response, or the refusal as JSON.
fn reply(alloc: Global) -> Result<Bytes, Memory> {
    let variables = Bytes::from_static(b"{}");
    let root = Library::Root;
    match answer_uncounted(alloc, SCHEMA, QUERY, None, &variables, false, &root) {
        Ok(response) => Ok(response),
        Err(refusal) => refusal.into_bytes(alloc),
    }
}
