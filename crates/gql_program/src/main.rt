//! The program: a request on standard input, its reply on standard output.
//!
//! The exit status is that of [`gql_engine::run`], or 7 where the system refuses to give the arguments.
#![tactic(auto)]

ghost use Rattle.std.specs.Prelude.{◌≡◌, ◌<◌};

use gql_engine::{Steps, run};
use jb_io::{ReaderSource, Sink, Source, WriterSink};
use std::alloc::Global;
use std::env::Env;
use std::marker::Brand;
use std::process::ExitCode;
use std::sync::ledger::{Blank, Ledger};
use std::{env, io};

// The status where the system gives no arguments.
const NO_WORDS: u8 = 7;

fn main(rt: HostRuntime) -> ExitCode {
    let Ok(words) = words(&rt) else {
        return ExitCode::from(NO_WORDS);
    };
    let mut source = ReaderSource::new(rt.reader());
    let mut sink = WriterSink::new(io::writer(&rt));
    ExitCode::from(run_counted::<_, _, Brand>(
        rt.alloc(),
        words.as_slice(),
        &mut source,
        &mut sink,
        Blank::new(1),
    ))
}

// The run, with a counter of its own.
fn run_counted<S: Source, K: Sink, L: Ledger>(
    alloc: Global,
    words: &[String],
    source: &mut S,
    sink: &mut K,
    blank: Blank,
) -> u8
    requires name { blank.name ≡ L.name }
    requires parts { blank.parts ≡ L.parts }
    requires some { 0 < blank.parts }
{
    let mut steps = Steps::<L>::open(blank);
    run(alloc, words, source, sink, &mut steps)
}

// The arguments without the program's name.
fn words(rt: &(impl Env + AllocGlobal)) -> io::Result<Vec<String>> {
    Ok(env::args(rt)?.skip(1).collect(rt.alloc())?)
}
