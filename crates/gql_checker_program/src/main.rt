//! The program: a request with a response on standard input; on standard output whether the response is explained.
//!
//! The exit status is that of [`gql_checker::run_checker`], or 7 where the system refuses to give the arguments.
#![tactic(auto)]

use gql_checker::run_checker;
use jb_io::{ReaderSource, WriterSink};
use std::env::Env;
use std::process::ExitCode;
use std::{env, io};

// The status where the system gives no arguments.
const NO_WORDS: u8 = 7;

fn main(rt: HostRuntime) -> ExitCode {
    let Ok(words) = words(&rt) else {
        return ExitCode::from(NO_WORDS);
    };
    let mut source = ReaderSource::new(rt.reader());
    let mut sink = WriterSink::new(io::writer(&rt));
    ExitCode::from(run_checker(rt.alloc(), words.as_slice(), &mut source, &mut sink))
}

// The arguments without the program's name.
fn words(rt: &(impl Env + AllocGlobal)) -> io::Result<Vec<String>> {
    Ok(env::args(rt)?.skip(1).collect(rt.alloc())?)
}
