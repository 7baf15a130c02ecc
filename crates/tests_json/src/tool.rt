//! The program of JSON texts: its statuses and what it writes.
use bytes::Bytes;
use jb_io::{INPUT_LIMIT, SureSink, SureSource, WriterSink};
use jb_text::Memory;
use jb_tool::{run, run_in_memory};
use std::alloc::Global;

fn words_of(alloc: Global, words: &[&str]) -> Result<Vec<String>, Memory> {
    let mut all = Vec::new(alloc);
    for word in words {
        all.push(String::from_str(alloc, word)?)?;
    }
    Ok(all)
}

/// The status of a run over these words and this input, seven bytes at a time, and whether it wrote just `output`.
fn ran(alloc: Global, words: &[&str], input: Bytes, output: &str) -> Result<(u8, bool), Memory> {
    let words = words_of(alloc, words)?;
    let mut source = SureSource::new(input, 7);
    let mut sink = SureSink::new(alloc, 64)?;
    let status = run_in_memory(alloc, words.as_slice(), &mut source, &mut sink);
    Ok((status, sink.written() == output.as_bytes()))
}

const USAGE: &str = "usage: jb_program compact | pretty\n";

const NO_COMMANDS: &[&[&str]] = &[&[], &["compacts"], &["Pretty"], &["compact", "pretty"]];

#[test]
fn words_that_are_no_command_get_the_usage_line(rt: HostRuntime) -> Result<(), Memory> {
    for words in NO_COMMANDS {
        let answer = ran(rt.alloc(), words, Bytes::from_static(b"{}"), USAGE)?;
        assert_eq!(rt; answer, (2, true), "{words:?}");
    }
    Ok(())
}

/// A word, an input, and what a run over them ends with and writes.
const RUNS: &[(&str, &str, u8, &str)] = &[
    (
        "compact",
        " [1, {\"a\" : \"\\u0041/\"}] ",
        0,
        "[1,{\"a\":\"A/\"}]\n",
    ),
    (
        "compact",
        "{\"b\":1,\"a\":2,\"b\":3}",
        0,
        "{\"b\":3,\"a\":2}\n",
    ),
    (
        "pretty",
        "[[],{\"a\":null}]",
        0,
        "[\n  [],\n  {\n    \"a\": null\n  }\n]\n",
    ),
    ("compact", "[1,]", 1, "syntax at byte 3\n"),
    ("pretty", "", 1, "syntax at byte 0\n"),
    ("compact", "[1.5]", 1, "float at byte 1\n"),
    (
        "compact",
        "[18446744073709551616]",
        1,
        "number range at byte 1\n",
    ),
    ("compact", "1 2", 1, "syntax at byte 2\n"),
];

#[test]
fn texts_are_printed_or_refused(rt: HostRuntime) -> Result<(), Memory> {
    for (word, text, status, line) in RUNS {
        let input = Bytes::copy_from_slice(rt.alloc(), text.as_bytes())?;
        let answer = ran(rt.alloc(), &[*word], input, line)?;
        assert_eq!(rt; answer, (*status, true), "{text}");
    }
    Ok(())
}

/// So many times the same byte.
fn filled(alloc: Global, byte: u8, count: usize) -> Result<Bytes, Memory> {
    Ok(Bytes::from_vec(vec![in alloc; byte; count]?)?)
}

#[test]
fn input_has_limits(rt: HostRuntime) -> Result<(), Memory> {
    for (byte, count, status, line) in [
        (b'[', 128, 1, "depth at byte 127\n"),
        (b' ', INPUT_LIMIT + 1, 6, ""),
    ] {
        let input = filled(rt.alloc(), byte, count)?;
        let answer = ran(rt.alloc(), &["compact"], input, line)?;
        assert_eq!(rt; answer, (status, true), "{line}");
    }
    Ok(())
}

#[test]
fn a_full_sink_has_its_own_status(rt: HostRuntime) -> Result<(), Memory> {
    let words = words_of(rt.alloc(), &["compact"])?;
    let mut room = [0; 5];
    for (asked, wanted) in [(words.as_slice(), b"[1,2,"), (&[], b"usage")] {
        let mut full = WriterSink::new(room.as_mut_slice());
        let mut source = SureSource::new(Bytes::from_static(b"[1,2,3]"), 1);
        assert_eq!(rt; run(rt.alloc(), asked, &mut source, &mut full), 5);
        assert_eq!(rt; room, *wanted);
    }
    Ok(())
}
