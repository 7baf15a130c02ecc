//! The program: a request on standard input; on standard output its response, which a gateway joins of two.
//!
//! The exit status is that of [`gql_gateway::run_gateway`], or 7 where the system refuses to give the arguments.
#![tactic(auto)]

use gql_gateway::run_gateway;
use jb_io::{ReaderSource, WriterSink};
use std::env::Env;
use std::process::ExitCode;
use std::{env, io};

// The status where the system gives no arguments.
const NO_WORDS: u8 = 7;

fn main(rt: HostRuntime) -> ExitCode {
    let Ok(words) = words(&rt) else {
        return ExitCode::from(NO_WORDS);
    };
    let mut source = ReaderSource::new(rt.reader());
    let mut sink = WriterSink::new(io::writer(&rt));
    ExitCode::from(run_gateway(rt.alloc(), words.as_slice(), &mut source, &mut sink))
}

// The arguments without the program's name.
fn words(rt: &(impl Env + AllocGlobal)) -> io::Result<Vec<String>> {
    Ok(env::args(rt)?.skip(1).collect(rt.alloc())?)
}
