//! A resolver over structs: a library with authors and their books answers queries, and the responses are printed.
#![tactic(auto)]

mod entity;
mod library;

use bytes::Bytes;
use entity::Entity;
use gql_engine::{Memory, answer_uncounted};
use library::Library;
use std::alloc::Global;
use std::io::{self, Write};

const SCHEMA: &str = "
type Query { authors: [Author!]! author(name: String!): Author }
type Author { name: String! books: [Book!]! book(index: Int!): Book }
interface Book { title: String! year: Int author: Author! }
type Novel implements Book { title: String! year: Int author: Author! }
type Treatise implements Book { title: String! year: Int author: Author! subject: Subject! }
enum Subject { GEOMETRY OPTICS }";

const QUERIES: [&str; 5] = [
    "{ authors { name books { title year } } }",
    "{ author(name: \"Euclid\") { books { __typename ... on Treatise { subject } author { name } } } }",
    "{ author(name: \"Euclid\") { first: book(index: 0) { title } tenth: book(index: 9) { title } } }",
    "{ author(name: \"Homer\") { name } }",
    "{ author { title } }",
];

fn main(rt: HostRuntime) -> io::Result<()> {
    match Library::sample(rt.alloc()) {
        Ok(library) => answer_all(rt, &library),
        Err(_) => println!(rt; "out of memory"),
    }
}

/// Answers each query, a line each.
fn answer_all(rt: HostRuntime, library: &Library) -> io::Result<()> {
    for query in QUERIES {
        match reply(rt.alloc(), library, query) {
            Ok(reply) => io::writer(&rt).write_all(&reply)?,
            Err(_) => print!(rt; "out of memory")?,
        }
        println!(rt)?;
    }
    Ok(())
}

/// The response to a query, or the refusal as JSON.
fn reply(alloc: Global, library: &Library, query: &str) -> Result<Bytes, Memory> {
    let variables = Bytes::from_static(b"{}");
    let root = Entity::Library(library);
    match answer_uncounted(alloc, SCHEMA, query, None, &variables, false, &root) {
        Ok(response) => Ok(response),
        Err(refusal) => refusal.into_bytes(alloc),
    }
}
