//! The program in memory, where no device fails.

ghost use Rattle.std.specs.Prelude.{◌≡◌, ◌<◌};

use crate::runs::{Case, words_of};
use bytes::Bytes;
use gql_engine::{ANSWERED, MISUSED, REFUSED, Steps, run_in_memory};
use jb_io::{SureSink, SureSource};
use std::alloc::Global;
use std::marker::Brand;
use std::sync::ledger::{Blank, Ledger};
use std::test::Fail;

/// What is asked, and what it ends with.
const CASES: [Case; 5] = [
    Case {
        words: &["answer"],
        input: r#"{"schema":"type Query { f: Int }","query":"{ f }","data":{"f":42}}"#,
        status: ANSWERED,
        output: "{\"data\":{\"f\":42}}\n",
    },
    Case {
        words: &["answer"],
        input: r#"{"schema":"type Query { f: Int }"}"#,
        status: REFUSED,
        output: "{\"errors\":[{\"message\":\"request: member `query` is missing\"}]}\n",
    },
    Case {
        words: &["check"],
        input: r#"{"schema":"type Query { f: Int }","query":"{ f }"}"#,
        status: ANSWERED,
        output: "ok\n",
    },
    Case {
        words: &["selftest", "3"],
        input: "",
        status: ANSWERED,
        output: "selftest 3: 89 bytes, 0 errors\n",
    },
    Case {
        words: &["answers"],
        input: "",
        status: MISUSED,
        output: "usage: gql_program answer | check | selftest N\n",
    },
];

/// The run, with a counter of its own.
fn counted<L: Ledger>(
    alloc: Global,
    words: &[String],
    source: &mut SureSource,
    sink: &mut SureSink,
    blank: Blank,
) -> u8
    requires name { blank.name ≡ L.name }
    requires parts { blank.parts ≡ L.parts }
    requires some { 0 < blank.parts }
{
    let mut steps = Steps::<L>::open(blank);
    run_in_memory(alloc, words, source, sink, &mut steps)
}

/// Whether a run, seven bytes at a time, ends as the case says and writes just its output.
fn is_as_said(alloc: Global, case: &Case) -> Result<bool, Fail> {
    let words = words_of(alloc, case.words)?;
    let input = Bytes::copy_from_slice(alloc, case.input.as_bytes())?;
    let mut source = SureSource::new(input, 7);
    let mut sink = SureSink::new(alloc, 256)?;
    let status = counted::<Brand>(
        alloc,
        words.as_slice(),
        &mut source,
        &mut sink,
        Blank::new(1),
    );
    Ok(status == case.status && sink.written() == case.output.as_bytes())
}

#[test]
fn runs_in_memory_end_as_runs_on_devices_do(rt: HostRuntime) -> Result<(), Fail> {
    for case in &CASES {
        assert!(rt; is_as_said(rt.alloc(), case)?, "{}", case.output);
    }
    Ok(())
}
