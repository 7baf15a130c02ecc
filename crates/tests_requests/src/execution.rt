//! Executions (GraphQL October 2021, section 6): resolvers that give what does not fit, requests that are refused, and
//! executions that are told what they are of.

mod completing;
mod refusals;
mod selecting;
mod settings;

use crate::fixtures::{response_to, told};
use crate::sample::Sample;
use std::alloc::Global;
use std::test::Fail;

/// The first row that is answered otherwise, and the answer; no text where each row has its response. A row is a query, the
/// object that each field is asked of, and the response.
fn answered_otherwise(
    alloc: Global,
    schema: &str,
    rows: &[(&str, Sample, &str)],
) -> Result<String, Fail> {
    for (query, object, response) in rows {
        let answer = response_to(alloc, schema, query, "{}", object)?;
        if answer.as_slice() != response.as_bytes() {
            return Ok(told(alloc, query, &answer)?);
        }
    }
    Ok(String::new(alloc))
}
