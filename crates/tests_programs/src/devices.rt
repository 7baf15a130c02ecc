//! The programs on a source and a sink, each call of which fails once.

use crate::running::{Failing, Program, ran};
use jb_io::{SINK_FAILED, SOURCE_FAILED};
use std::alloc::Global;
use std::test::Fail;

/// A run, and what it writes where no device fails.
struct Run {
    program: Program,
    words: &'static [&'static str],
    input: &'static str,
    output: &'static str,
}

const RUNS: [Run; 3] = [
    Run {
        program: Program::Checker,
        words: &[],
        input: r#"{"schema":"type Query { f: Int }","query":"{ f }","response":"{\"data\":{\"f\":2}}"}"#,
        output: "bad value at [\"f\"]\n",
    },
    Run {
        program: Program::Cost,
        words: &["1", "2"],
        input: r#"{"schema":"type Query { f: Int }","query":"{ f }","data":{"f":1}}"#,
        output: "{\"data\":{\"f\":1}}\n",
    },
    Run {
        program: Program::Gateway,
        words: &[],
        input: r#"{"schema":"type Query { f: Int }","query":"{ f t: __typename }","data":{"f":1}}"#,
        output: "{\"data\":{\"f\":1,\"t\":\"Query\"}}\n",
    },
];

/// Whether a run ends with this status and writes these bytes.
fn ends(
    alloc: Global,
    run: &Run,
    failing: Failing,
    status: u8,
    written: &str,
) -> Result<bool, Fail> {
    let (found, bytes) = ran(alloc, run.program, run.words, run.input, failing)?;
    Ok(found == status && bytes.as_slice() == written.as_bytes())
}

/// The number of the call behind so many others.
fn call_after(others: usize) -> u64 {
    (others as u64).saturating_add(1)
}

/// Whether each read that fails is told, and nothing is written then.
fn reads_are_told(alloc: Global, run: &Run) -> Result<bool, Fail> {
    for before in 0..=run.input.len() {
        let failing = Failing {
            read: Some(call_after(before)),
            write: None,
        };
        if !ends(alloc, run, failing, SOURCE_FAILED, "")? {
            return Ok(false);
        }
    }
    Ok(true)
}

/// Whether each write that fails is told, behind what was written before it.
fn writes_are_told(alloc: Global, run: &Run) -> Result<bool, Fail> {
    for before in 0..run.output.len() {
        let failing = Failing {
            read: None,
            write: Some(call_after(before)),
        };
        let front = run.output.get(..before).ok_or("no such place")?;
        if !ends(alloc, run, failing, SINK_FAILED, front)? {
            return Ok(false);
        }
    }
    Ok(true)
}

#[test]
fn each_read_that_fails_is_told(rt: HostRuntime) -> Result<(), Fail> {
    for run in &RUNS {
        assert!(rt; reads_are_told(rt.alloc(), run)?, "{}", run.output);
    }
    Ok(())
}

#[test]
fn each_write_that_fails_is_told(rt: HostRuntime) -> Result<(), Fail> {
    for run in &RUNS {
        assert!(rt; writes_are_told(rt.alloc(), run)?, "{}", run.output);
    }
    Ok(())
}
