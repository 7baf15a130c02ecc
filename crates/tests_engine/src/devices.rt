//! The program on a source and a sink that move a byte a call, each call of which fails once.

use crate::runs::{Case, Failing, ran, ran_in_pieces};
use gql_engine::{ANSWERED, MISUSED, REFUSED, SINK_FAILED, SOURCE_FAILED};
use std::alloc::Global;
use std::test::Fail;

/// The commands that read: a response with an error, a refusal, and reports.
const READING: [Case; 3] = [
    Case {
        words: &["answer"],
        input: r#"{"schema":"type Query { f: [Int] }","query":"{ f }","data":{"f":[42,{"__error":"!"}]}}"#,
        status: ANSWERED,
        output: "{\"errors\":[{\"message\":\"resolver error: !\",\"locations\":[{\"line\":1,\"column\":3}],\"path\":[\"f\",1]}],\
            \"data\":{\"f\":[42,null]}}\n",
    },
    Case {
        words: &["answer"],
        input: r#"{"schema":"type Query { f: Int }","query":"{ g }"}"#,
        status: REFUSED,
        output: "{\"errors\":[{\"message\":\"type `Query` does not have a field `g`\",\"locations\":[{\"line\":1,\"column\":3}]}]}\n",
    },
    Case {
        words: &["check"],
        input: r#"{"schema":"","query":"{ f }"}"#,
        status: REFUSED,
        output: "Error: syntax error: Unexpected <EOF>.\nschema.graphql:1:1: here\n",
    },
];

/// The words that read nothing.
const NOT_READING: [Case; 2] = [
    Case {
        words: &["selftest", "3"],
        input: "",
        status: ANSWERED,
        output: "selftest 3: 89 bytes, 0 errors\n",
    },
    Case {
        words: &["answers"],
        input: "",
        status: MISUSED,
        output: "usage: gql_program answer | check | selftest N\n",
    },
];

/// Whether a run ends with this status and writes these bytes.
fn ends(
    alloc: Global,
    case: &Case,
    failing: Failing,
    status: u8,
    written: &str,
) -> Result<bool, Fail> {
    let (found, bytes) = ran(alloc, case.words, case.input, failing)?;
    Ok(found == status && bytes.as_slice() == written.as_bytes())
}

/// The number of the call behind so many others.
fn call_after(others: usize) -> u64 {
    (others as u64).saturating_add(1)
}

/// The first call of the source that fails and gives another status than that, or for which something is written; 0 where there
/// is none. The last call is the one that finds the end.
fn source_told_otherwise(alloc: Global, case: &Case) -> Result<u64, Fail> {
    for before in 0..=case.input.len() {
        let call = call_after(before);
        let failing = Failing {
            read: Some(call),
            write: None,
        };
        if !ends(alloc, case, failing, SOURCE_FAILED, "")? {
            return Ok(call);
        }
    }
    Ok(0)
}

/// The first call of the sink that fails and gives another status than that, or for which not just the bytes before are written;
/// 0 where there is none.
fn sink_told_otherwise(alloc: Global, case: &Case) -> Result<u64, Fail> {
    for before in 0..case.output.len() {
        let call = call_after(before);
        let failing = Failing {
            read: None,
            write: Some(call),
        };
        let front = case.output.get(..before).ok_or("no such place")?;
        if !ends(alloc, case, failing, SINK_FAILED, front)? {
            return Ok(call);
        }
    }
    Ok(0)
}

/// Whether a run is as on devices that do not fail, if this call of the source fails and the call of the sink past its last.
fn is_undisturbed(alloc: Global, case: &Case, read: u64) -> Result<bool, Fail> {
    let failing = Failing {
        read: Some(read),
        write: Some(call_after(case.output.len())),
    };
    ends(alloc, case, failing, case.status, case.output)
}

#[test]
fn calls_that_are_not_made_disturb_nothing(rt: HostRuntime) -> Result<(), Fail> {
    for case in &READING {
        let past = call_after(case.input.len()).saturating_add(1);
        assert!(rt; is_undisturbed(rt.alloc(), case, past)?, "{}", case.input);
    }
    for case in &NOT_READING {
        assert!(rt; is_undisturbed(rt.alloc(), case, 1)?, "{}", case.output);
    }
    Ok(())
}

/// A sink takes ten bytes at its first call and fails at its second: it has just these ten.
#[test]
fn the_second_write_fails_the_run(rt: HostRuntime) -> Result<(), Fail> {
    let case = &READING[0];
    let failing = Failing {
        read: None,
        write: Some(2),
    };
    let (status, written) = ran_in_pieces(rt.alloc(), case.words, case.input, failing, 10)?;
    assert_eq!(rt; status, SINK_FAILED);
    assert_eq!(rt; written.as_slice(), b"{\"errors\":".as_slice());
    Ok(())
}

#[test]
fn each_call_of_the_source_fails_the_run(rt: HostRuntime) -> Result<(), Fail> {
    for case in &READING {
        assert_eq!(rt;
            source_told_otherwise(rt.alloc(), case)?,
            0,
            "{}",
            case.input
        );
    }
    Ok(())
}

#[test]
fn each_call_of_the_sink_breaks_the_output_off(rt: HostRuntime) -> Result<(), Fail> {
    for case in &READING {
        assert_eq!(rt; sink_told_otherwise(rt.alloc(), case)?, 0, "{}", case.input);
    }
    for case in &NOT_READING {
        assert_eq!(rt;
            sink_told_otherwise(rt.alloc(), case)?,
            0,
            "{}",
            case.output
        );
    }
    Ok(())
}
