//! The reply to the bytes of an answer.

ghost use Rattle.std.specs.Prelude.{◌≡◌, IfOk};
ghost use Rattle.jb_io.specs.Reply.{line};
ghost use Rattle.gql_response.specs.Response.{segment_value};
ghost use Rattle.gql_client_schema.specs.Program as spec;
ghost use Rattle.gql_client_schema.specs.bridge.Program as spec_bridge;

use crate::making::{ClientFault, ClientSchema, client_schema};
use crate::reports::list_reports;
use bytes::Bytes;
use gql_response::ResponseDataPathSegment;
use jb_io::{Command, Reply};
use jb_print::append_value;
use jb_read::ReadFault;
use jb_text::{Listed, Memory, Number, Refused};
use jb_tree::Value;
use std::alloc::{AllocError, Global};

/// That an answer is to be printed as a schema.
#[derive(Clone, Copy)]
pub(crate) struct Printing {}

/// What the words ask for: there are none.
pub(crate) fn printing_asked(words: &[String]) -> Option<Printing>
    ensures { result ≡ spec.printing_asked words.now }
{
    if words.is_empty() {
        Some(Printing {})
    } else {
        None
    }
}

impl Command for Printing {
    ghost use Rattle.gql_client_schema.specs.Program.{Prints, Refuses};

    ghost answers = { λ _. Prints };

    ghost refuses = { λ _. Refuses };

    fn reply(&self, alloc: Global, bytes: &Bytes) -> Result<Reply, Memory> {
        match client_schema(alloc, bytes) {
            Ok(made) => Ok(Reply::Answer(output(made)?)),
            Err(Refused::Fault(fault)) => Ok(Reply::Refusal(refusal(alloc, fault)?)),
            Err(Refused::Memory) => Err(AllocError),
        }
    }
}

/// The schema's text without its last LF, or with the remark behind it.
fn output(made: ClientSchema) -> Result<Bytes, Memory>
    requires { spec_bridge.EndsLine made.text }
    ensures { IfOk result (λ text. line text ≡ spec.output_of made) }
{
    let mut text = made.text.into_string();
    if made.same {
        return Ok(before_line_feed(Bytes::from_string(text)?));
    }
    text.push_str("# introspection differs")?;
    Bytes::from_string(text)
}

/// What is told of a fault, without its last LF.
fn refusal(alloc: Global, fault: ClientFault) -> Result<Bytes, Memory>
    requires { spec_bridge.EndsLine (spec.refusal_of fault) }
    ensures { IfOk result (λ text. line text ≡ spec.refusal_of fault) }
{
    match fault {
        ClientFault::Read(fault) => read_text(alloc, fault),
        ClientFault::Shape { path } => shape_text(alloc, &path),
        ClientFault::Schema(list) => Ok(before_line_feed(list_reports(alloc, list)?)),
    }
}

fn read_text(alloc: Global, fault: ReadFault) -> Result<Bytes, Memory>
    ensures { IfOk result (λ text. text ≡ spec.read_text fault) }
{
    let kind = fault.kind.name();
    let place = fault.place;
    let text = format!(in alloc; "answer: {kind} at byte {place}")?;
    Bytes::from_string(text)
}

fn shape_text(alloc: Global, path: &Listed<ResponseDataPathSegment>) -> Result<Bytes, Memory>
    ensures { IfOk result (λ text. text ≡ spec.shape_text path.now) }
{
    let mut values = Listed::new(alloc);
    for step in path.as_slice() {
        values.push(step_value(alloc, step)?)?;
    }
    let mut text = String::from_str(alloc, "answer: shape at ")?;
    append_value(&mut text, &Value::Array(values))?;
    Bytes::from_string(text)
}

fn step_value(alloc: Global, step: &ResponseDataPathSegment) -> Result<Value, Memory>
    ensures { IfOk result (λ value. value ≡ segment_value step.now) }
{
    match step {
        ResponseDataPathSegment::Field(name) => Ok(Value::String(name.text().copy(alloc)?)),
        ResponseDataPathSegment::ListIndex(index) => {
            Ok(Value::Number(Number::from_u64(*index as u64)))
        }
    }
}

/// The text before the LF that ends it.
fn before_line_feed(text: Bytes) -> Bytes
    requires { spec_bridge.EndsLine text }
    ensures { line result ≡ text }
{
    let mut front = text;
    let len = front.len();
    front.truncate(len - 1);
    front
}
