//! Runs of the programs on a source and a sink that move a byte a call.

use bytes::Bytes;
use gql_checker::run_checker;
use gql_cost::run_cost;
use gql_gateway::run_gateway;
use jb_io::{MemorySink, MemorySource};
use jb_text::{Listed, Memory};
use std::alloc::Global;
use std::test::Fail;

/// The programs whose runs are tested here.
#[derive(Clone, Copy)]
pub(crate) enum Program {
    Checker,
    Cost,
    Gateway,
}

/// What a program is asked, and what it ends with and writes where no device fails.
pub(crate) struct Case {
    pub(crate) words: &'static [&'static str],
    pub(crate) input: &'static str,
    pub(crate) status: u8,
    pub(crate) output: &'static str,
}

/// The call of each device that fails, if one does.
#[derive(Clone, Copy)]
pub(crate) struct Failing {
    pub(crate) read: Option<u64>,
    pub(crate) write: Option<u64>,
}

/// More bytes than any run here writes.
const ROOM: usize = 512;

/// The status of a run over these words and this input, and what it wrote.
pub(crate) fn ran(
    alloc: Global,
    program: Program,
    words: &[&str],
    input: &str,
    failing: Failing,
) -> Result<(u8, Bytes), Fail> {
    let words = words_of(alloc, words)?;
    let input = Bytes::copy_from_slice(alloc, input.as_bytes())?;
    let mut source = MemorySource::new(input, 1, listed(alloc, failing.read)?);
    let mut sink = MemorySink::new(alloc, ROOM, 1, listed(alloc, failing.write)?)?;
    let status = match program {
        Program::Checker => run_checker(alloc, words.as_slice(), &mut source, &mut sink),
        Program::Cost => run_cost(alloc, words.as_slice(), &mut source, &mut sink),
        Program::Gateway => run_gateway(alloc, words.as_slice(), &mut source, &mut sink),
    };
    Ok((status, Bytes::copy_from_slice(alloc, sink.written())?))
}

fn words_of(alloc: Global, words: &[&str]) -> Result<Vec<String>, Memory> {
    let mut all = Vec::new(alloc);
    for word in words {
        all.push(String::from_str(alloc, word)?)?;
    }
    Ok(all)
}

/// The numbers of the calls that fail.
fn listed(alloc: Global, call: Option<u64>) -> Result<Listed<u64>, Memory> {
    let mut calls = Listed::new(alloc);
    if let Some(call) = call {
        calls.push(call)?;
    }
    Ok(calls)
}

/// Whether a run where no device fails ends with this status and writes just this output.
pub(crate) fn ends(
    alloc: Global,
    program: Program,
    words: &[&str],
    input: &str,
    status: u8,
    output: &str,
) -> Result<bool, Fail> {
    let none = Failing {
        read: None,
        write: None,
    };
    let (found, written) = ran(alloc, program, words, input, none)?;
    Ok(found == status && written.as_slice() == output.as_bytes())
}

/// Whether a run ends as the case says and writes just its output.
pub(crate) fn is_as_said(alloc: Global, program: Program, case: &Case) -> Result<bool, Fail> {
    ends(
        alloc,
        program,
        case.words,
        case.input,
        case.status,
        case.output,
    )
}
