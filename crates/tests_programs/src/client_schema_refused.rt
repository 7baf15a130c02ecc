//! What is told of answers that are no JSON text or whose schema is wrong, and of words.

use crate::client_schema_answers::{ANSWER, written};
use bytes::Bytes;
use gql_client_schema::program::MISUSED;
use gql_client_schema::run_client_schema;
use jb_io::{SureSink, SureSource};
use std::alloc::Global;
use std::test::Fail;

/// An input, and what is written of it.
struct Row {
    input: &'static str,
    output: &'static str,
}

const ROWS: [Row; 5] = [
    Row {
        input: "{\"data\":",
        output: "answer: syntax at byte 8\n",
    },
    Row {
        input: "{\"data\":1.5}",
        output: "answer: float at byte 8\n",
    },
    Row {
        input: "18446744073709551616",
        output: "answer: number range at byte 0\n",
    },
    Row {
        input: "{\"data\":{}}",
        output: "answer: shape at [\"data\",\"__schema\"]\n",
    },
    Row {
        input: ANSWER,
        output: "Error: cannot find type `M` in this document\nschema.graphql:1:33: here\n\
            Error: cannot find type `I` in this document\nschema.graphql:3:23: here\n\
            Error: cannot find type `M` in this document\nschema.graphql:7:15: here\n",
    },
];

fn is_told(alloc: Global, row: &Row) -> Result<bool, Fail> {
    let found = written(alloc, row.input)?;
    Ok(found.as_slice() == row.output.as_bytes())
}

#[test]
fn refusals_tell_their_cause(rt: HostRuntime) -> Result<(), Fail> {
    for row in &ROWS {
        assert!(rt; is_told(rt.alloc(), row)?, "{}", row.output);
    }
    Ok(())
}

#[test]
fn words_are_refused(rt: HostRuntime) -> Result<(), Fail> {
    let alloc = rt.alloc();
    let word = String::from_str(alloc, "schema")?;
    let mut source = SureSource::new(Bytes::new(), 1);
    let mut sink = SureSink::new(alloc, 64)?;
    let status = run_client_schema(alloc, &[word], &mut source, &mut sink);
    assert_eq!(rt; status, MISUSED);
    assert!(rt; sink.written() == b"usage: gql_client_schema\n".as_slice());
    Ok(())
}
