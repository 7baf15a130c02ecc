//! The program on requests that are cut.

use crate::runs::{Failing, ran};
use gql_engine::REFUSED;
use itoa::Buffer;
use jb_text::Memory;
use std::alloc::Global;
use std::test::Fail;

const REQUEST: &str =
    r#"{"schema":"type Query { f: [Int] }","query":"{ f }","data":{"f":[42,{"__error":"!"}]}}"#;

/// The refusal of a JSON text that ends too early, after so many bytes.
fn refusal_at(alloc: Global, place: usize) -> Result<String, Memory> {
    let mut text = String::from_str(
        alloc,
        "{\"errors\":[{\"message\":\"request: syntax at byte ",
    )?;
    text.push_str(Buffer::new().format(place))?;
    text.push_str("\"}]}\n")?;
    Ok(text)
}

/// Whether the request that is cut after so many bytes is refused there.
fn is_refused(alloc: Global, place: usize) -> Result<bool, Fail> {
    let front = REQUEST.get(..place).ok_or("no such place")?;
    let none = Failing {
        read: None,
        write: None,
    };
    let (status, written) = ran(alloc, &["answer"], front, none)?;
    let wanted = refusal_at(alloc, place)?;
    Ok(status == REFUSED && written.as_slice() == wanted.as_bytes())
}

#[test]
fn requests_that_are_cut_are_refused_at_their_ends(rt: HostRuntime) -> Result<(), Fail> {
    for place in 0..REQUEST.len() {
        assert!(rt; is_refused(rt.alloc(), place)?, "{place}");
    }
    Ok(())
}
