//! The program that tells whether texts are sentences of the grammar: its statuses and what it writes.

use bytes::Bytes;
use gql_syntax_tool::run;
use jb_io::{SureSink, SureSource};
use jb_text::Memory;
use std::alloc::Global;
use std::process::Abort;
use std::test::Fail;

/// A list of one word.
fn words_of(alloc: Global, word: &str) -> Result<Vec<String>, Memory> {
    let mut words = Vec::new(alloc);
    words.push(String::from_str(alloc, word)?)?;
    Ok(words)
}

/// The status of a run over this word and this input, whose output the sink takes.
fn ran(alloc: Global, word: &str, text: &str, sink: &mut SureSink) -> Result<u8, Memory> {
    let bytes = Bytes::copy_from_slice(alloc, text.as_bytes())?;
    let words = words_of(alloc, word)?;
    let mut source = SureSource::new(bytes, 64);
    Ok(run(alloc, words.as_slice(), &mut source, sink))
}

/// Words, inputs, and the status and the line that the program gives.
const RUNS: &[(&str, &str, u8, &str)] = &[
    ("document", "{ a }", 0, "tokens 5, nesting 1\n"),
    ("selection_set", "a b", 0, "tokens 3, nesting 0\n"),
    ("type", "[Int!]!", 0, "tokens 5, nesting 1\n"),
    ("type", "[Int", 1, "Unexpected <EOF>. at byte 4\n"),
    ("document", "{ }", 1, "unexpected token at byte 2\n"),
    (
        "tree",
        "",
        2,
        "usage: gql_syntax_program document | selection_set | type\n",
    ),
];

fn check_run(rt: &impl Abort, alloc: Global, row: &(&str, &str, u8, &str)) -> Result<(), Memory> {
    let (word, text, wanted, line) = *row;
    let mut sink = SureSink::new(alloc, 64)?;
    let status = ran(alloc, word, text, &mut sink)?;
    assert!(rt;
        status == wanted && sink.written() == line.as_bytes(),
        "{text}"
    );
    Ok(())
}

#[test]
fn texts_are_told_of(rt: HostRuntime) -> Result<(), Fail> {
    for row in RUNS {
        check_run(&rt, rt.alloc(), row)?;
    }
    Ok(())
}
