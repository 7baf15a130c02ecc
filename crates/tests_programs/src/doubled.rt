//! Fragments each of which spreads the next one twice: sixty selections, and half a thousand million once each spread is replaced.

use crate::running::{Program, ends};
use jb_io::{ANSWERED, REFUSED};
use std::alloc::Global;
use std::test::Fail;

/// How many fragments there are.
const FRAGMENTS: u32 = 30;

/// A request whose operation spreads the first fragment; the last one selects a field.
fn request(alloc: Global) -> Result<String, Fail> {
    let mut text = String::from_str(
        alloc,
        r#"{"schema":"type Query { f: Int }","query":"{ ...F1 }"#,
    )?;
    for number in 1..FRAGMENTS {
        let next = number + 1;
        text.push_str(format!(in alloc;
            " fragment F{number} on Query {{ ...F{next} ...F{next} }}"
        )?.as_str())?;
    }
    text.push_str(r#" fragment F30 on Query { f }","data":{"f":42}}"#)?;
    Ok(text)
}

#[test]
fn fragments_cost_what_each_spread_of_them_selects(rt: HostRuntime) -> Result<(), Fail> {
    let (alloc, request) = (rt.alloc(), request(rt.alloc())?);
    let answer = "{\"data\":{\"f\":42}}\n";
    let words = ["1", "536870913"];
    let is_answered = ends(
        alloc,
        Program::Cost,
        &words,
        request.as_str(),
        ANSWERED,
        answer,
    )?;
    assert!(rt; is_answered, "within its cost");
    let refusal = "{\"errors\":[{\"message\":\"cost above limit\"}]}\n";
    let words = ["1", "536870912"];
    let is_refused = ends(
        alloc,
        Program::Cost,
        &words,
        request.as_str(),
        REFUSED,
        refusal,
    )?;
    assert!(rt; is_refused, "within less");
    Ok(())
}

#[test]
fn an_expansion_that_is_too_large_is_refused(rt: HostRuntime) -> Result<(), Fail> {
    let request = request(rt.alloc())?;
    let refusal = "{\"errors\":[{\"message\":\"gateway: expansion too large\"}]}\n";
    let is_refused = ends(
        rt.alloc(),
        Program::Gateway,
        &[],
        request.as_str(),
        REFUSED,
        refusal,
    )?;
    assert!(rt; is_refused);
    Ok(())
}
