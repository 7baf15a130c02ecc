//! Runs of the program on a source and a sink that move a byte a call.

ghost use Rattle.std.specs.Prelude.{◌≡◌, ◌<◌};

use bytes::Bytes;
use gql_engine::{Steps, run};
use jb_io::{MemorySink, MemorySource};
use jb_text::{Listed, Memory};
use std::alloc::Global;
use std::marker::Brand;
use std::sync::ledger::{Blank, Ledger};
use std::test::Fail;

/// What the program is asked, and what it ends with and writes where no device fails.
pub(crate) struct Case {
    pub(crate) words: &'static [&'static str],
    pub(crate) input: &'static str,
    pub(crate) status: u8,
    pub(crate) output: &'static str,
}

/// The call of each device that fails, if one does.
#[derive(Clone, Copy)]
pub(crate) struct Failing {
    pub(crate) read: Option<u64>,
    pub(crate) write: Option<u64>,
}

/// The status of a run over these words and this input, and what it wrote.
pub(crate) fn ran(
    alloc: Global,
    words: &[&str],
    input: &str,
    failing: Failing,
) -> Result<(u8, Bytes), Fail> {
    ran_in_pieces(alloc, words, input, failing, 1)
}

/// The same on a sink that takes at most `piece` bytes a call.
pub(crate) fn ran_in_pieces(
    alloc: Global,
    words: &[&str],
    input: &str,
    failing: Failing,
    piece: usize,
) -> Result<(u8, Bytes), Fail>
    requires { 0 < piece }
{
    let words = words_of(alloc, words)?;
    let input = Bytes::copy_from_slice(alloc, input.as_bytes())?;
    let mut source = MemorySource::new(input, 1, listed(alloc, failing.read)?);
    let mut sink = MemorySink::new(alloc, ROOM, piece, listed(alloc, failing.write)?)?;
    let status = counted::<Brand>(
        alloc,
        words.as_slice(),
        &mut source,
        &mut sink,
        Blank::new(1),
    );
    Ok((status, Bytes::copy_from_slice(alloc, sink.written())?))
}

/// More bytes than any run here writes.
const ROOM: usize = 256;

/// The run, with a counter of its own.
fn counted<L: Ledger>(
    alloc: Global,
    words: &[String],
    source: &mut MemorySource,
    sink: &mut MemorySink,
    blank: Blank,
) -> u8
    requires name { blank.name ≡ L.name }
    requires parts { blank.parts ≡ L.parts }
    requires some { 0 < blank.parts }
{
    let mut steps = Steps::<L>::open(blank);
    run(alloc, words, source, sink, &mut steps)
}

pub(crate) fn words_of(alloc: Global, words: &[&str]) -> Result<Vec<String>, Memory> {
    let mut all = Vec::new(alloc);
    for word in words {
        all.push(String::from_str(alloc, word)?)?;
    }
    Ok(all)
}

/// The numbers of the calls that fail.
fn listed(alloc: Global, call: Option<u64>) -> Result<Listed<u64>, Memory> {
    let mut calls = Listed::new(alloc);
    if let Some(call) = call {
        calls.push(call)?;
    }
    Ok(calls)
}
