//! Texts that tell no answers, and tables that stay as they were.

use bytes::Bytes;
use gql_rounds::{Answers, AnswersFault, read_answers};
use jb_tree::{Map, Refused, Value};
use std::alloc::Global;
use std::test::Fail;

/// A text, and the index of its first item that is no answer; `None` where it is no list.
struct Case {
    text: &'static str,
    index: Option<usize>,
}

/// An item that is no object, one without a number, with a number below zero, without a field, with arguments that are no object, and
/// without a value; and a text of another value.
const CASES: [Case; 7] = [
    Case {
        text: "[1]",
        index: Some(0),
    },
    Case {
        text: "[{\"object\":1,\"field\":\"a\",\"value\":1},{\"field\":\"a\",\"value\":1}]",
        index: Some(1),
    },
    Case {
        text: "[{\"object\":-1,\"field\":\"a\",\"value\":1}]",
        index: Some(0),
    },
    Case {
        text: "[{\"object\":1,\"value\":1}]",
        index: Some(0),
    },
    Case {
        text: "[{\"object\":1,\"field\":\"a\",\"arguments\":[],\"value\":1}]",
        index: Some(0),
    },
    Case {
        text: "[{\"object\":1,\"field\":\"a\"}]",
        index: Some(0),
    },
    Case {
        text: "{}",
        index: None,
    },
];

/// Whether a text is refused as its case says, and the table has none of its answers.
fn is_refused(alloc: Global, case: &Case) -> Result<bool, Fail> {
    let mut answers = Answers::new(alloc);
    let text = Bytes::from_static(case.text.as_bytes());
    let told = match read_answers(alloc, &text, &mut answers) {
        Err(Refused::Fault(AnswersFault::NotAnswer { index })) => case.index == Some(index),
        Err(Refused::Fault(AnswersFault::NotList)) => case.index.is_none(),
        _ => false,
    };
    let first = answers.tell(alloc, 1, "a", &Map::new(alloc), Value::Null)?;
    Ok(told && first)
}

#[test]
fn texts_that_tell_no_answers_are_refused(rt: HostRuntime) -> Result<(), Fail> {
    for case in &CASES {
        assert!(rt; is_refused(rt.alloc(), case)?, "{}", case.text);
    }
    Ok(())
}
