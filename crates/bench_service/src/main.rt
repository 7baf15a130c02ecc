//! The program: a request is read, a service answers it, and how many bytes it answered with is printed.
//!
//! The request is a JSON object on standard input, as `gql_program` reads it, without an operation's name. Without words the
//! program does each call once. With two words, a call and a count, it does that call alone, so many times, so that the instructions
//! of two runs can be subtracted.
#![tactic(auto)]

mod asked;
mod call;
mod work;

use anyhow::{Context, bail};
use asked::{Asked, introspection, object, text};
use bytes::Bytes;
use call::Call;
use gql_engine::{Map, from_bytes_whole};
use jb_io::{ReaderSource, read_to_end};
use jb_print::to_bytes;
use std::alloc::Global;
use std::env;
use work::answered;

fn main(rt: HostRuntime) -> anyhow::Result<()> {
    let words: Vec<String> = env::args(&rt)?.skip(1).collect(rt.alloc())?;
    let Ok(bytes) = read_to_end(rt.alloc(), &mut ReaderSource::new(rt.reader())) else {
        bail!("the request is not read");
    };
    let Ok(request) = from_bytes_whole(rt.alloc(), &bytes) else {
        bail!("the request is no JSON text");
    };
    let request = request.as_object().context("the request is no object")?;
    call_by(&rt, rt.alloc(), words.as_slice(), request)
}

/// Does what the words say.
fn call_by(rt: &impl Print, alloc: Global, words: &[String], request: &Map) -> anyhow::Result<()> {
    let variables = variables(alloc, request)?;
    let asked = Asked {
        schema: text(request, "schema").context("there is no schema")?,
        query: text(request, "query").context("there is no query")?,
        variables: &variables,
        data: object(request, "data").context("there are no data")?,
        introspection: introspection(request),
    };
    match words {
        [] => all(rt, alloc, &asked),
        [call, count] => {
            let call = Call::named(call.as_str()).context("there is no such call")?;
            let bytes = answered(alloc, call, &asked, count.parse()?);
            println!(rt; "{}", bytes.context("the call is refused")?)?;
            Ok(())
        }
        _ => bail!("usage: bench_service [CALL COUNT]"),
    }
}

/// The text of the variables: that of an object without members where the request has none.
fn variables(alloc: Global, request: &Map) -> anyhow::Result<Bytes> {
    match request.get("variables") {
        Some(value) => Ok(to_bytes(alloc, value)?),
        None => Ok(Bytes::from_static(b"{}")),
    }
}

fn all(rt: &impl Print, alloc: Global, asked: &Asked<'_>) -> anyhow::Result<()> {
    for call in Call::ALL {
        let bytes = answered(alloc, call, asked, 1).context("the call is refused")?;
        println!(rt; "{}: {bytes}", call.name())?;
    }
    Ok(())
}
