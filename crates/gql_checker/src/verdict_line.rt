//! The line that tells a verdict.

ghost use Rattle.std.specs.Prelude.{◌≡◌, IfOk, string_bytes};
ghost use Rattle.gql_checker.specs.Told as spec;
ghost use Rattle.gql_checker.specs.Told.{path_text};
ghost use Rattle.gql_checker.specs.bridge.Told.{output_of};
ghost use Rattle.gql_response.specs.Response.{segment_value};

use bytes::Bytes;
use gql_engine::response::ResponseDataPathSegment;
use gql_engine::serving::{Output, done_with, line};
use gql_response_check::Verdict;
use jb_print::to_text;
use jb_tree::{Listed, Memory, Number, Text, Value};
use std::alloc::Global;

/// The line that tells a verdict. `Err` only when out of memory.
pub(crate) fn verdict_line(alloc: Global, verdict: &Verdict) -> Result<Output, Memory>
    ensures { IfOk result (λ output. output ≡ output_of verdict.now) }
{
    let text = told(alloc, verdict)?;
    match verdict {
        Verdict::Explained => done_with(alloc, text),
        Verdict::NotResponse(_) | Verdict::FalseError { .. } | Verdict::BadValue { .. } => {
            Ok(Output::Refused(line(alloc, text)?))
        }
    }
}

/// A verdict in words. `Err` only when out of memory.
fn told(alloc: Global, verdict: &Verdict) -> Result<Bytes, Memory>
    ensures { IfOk result (λ text. text ≡ spec.told verdict.now) }
{
    match verdict {
        Verdict::Explained => text_bytes(String::from_str(alloc, "explained")?),
        Verdict::NotResponse(_) => text_bytes(String::from_str(alloc, "not a response")?),
        Verdict::FalseError { index } => text_bytes(format!(in alloc; "false error {index}")?),
        Verdict::BadValue { path } => {
            let path = path_text(alloc, path)?;
            let path = path.as_str();
            text_bytes(format!(in alloc; "bad value at {path}")?)
        }
    }
}

/// A text as bytes. `Err` only when out of memory.
fn text_bytes(text: String) -> Result<Bytes, Memory>
    ensures { IfOk result (λ bytes. bytes ≡ string_bytes text) }
{
    Ok(Bytes::from_vec(text.into_bytes())?)
}

/// A path as a list of JSON without white space. `Err` only when out of memory.
fn path_text(alloc: Global, path: &Listed<ResponseDataPathSegment>) -> Result<Text, Memory>
    ensures { IfOk result (λ text. text ≡ path_text path.now) }
{
    let mut steps = Listed::with_capacity(alloc, path.len())?;
    for segment in path.as_slice() {
        steps.push(segment_value(alloc, segment)?)?;
    }
    to_text(alloc, &Value::Array(steps))
}

/// A step as a JSON value. `Err` only when out of memory.
fn segment_value(alloc: Global, segment: &ResponseDataPathSegment) -> Result<Value, Memory>
    ensures { IfOk result (λ value. value ≡ segment_value segment.now) }
{
    match segment {
        ResponseDataPathSegment::Field(name) => Ok(Value::String(name.text().copy(alloc)?)),
        ResponseDataPathSegment::ListIndex(index) => {
            Ok(Value::Number(Number::from_u64(*index as u64)))
        }
    }
}
