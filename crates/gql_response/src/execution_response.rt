//! Responses: what an execution gives.

ghost use Rattle.std.specs.Prelude.{◌≡◌, ◌++◌, ◌∷◌, [], false, List, Option, map, codes, IfOk, OnOk, string_bytes};
ghost use Rattle.jb_print.specs.bridge.Pieces.{pieces_text, member_piece};
ghost use Rattle.jb_print.specs.Compact.{compact};
ghost use Rattle.jb_shape.specs.Outcome.{Answers};
ghost use Rattle.gql_response.specs.Response.{Member, data_value, error_value, list_member, refusal_value, response_value};
ghost use Rattle.gql_response.specs.Reading.{put_response, read_data, read_response, response_read, shaped, Answered};

use crate::error_parts::read_object;
use crate::fault::ResponseFault;
use crate::graphql_error::GraphQLError;
use crate::parts::{Parts, read_parts};
use crate::printed::{Printed, append_key, append_list};
use bytes::Bytes;
use jb_print::append_object;
use jb_read::from_bytes_whole;
use jb_shape::{FromValue, ShapeError};
use jb_text::{Listed, Memory, Refused};
use jb_tree::{Map, Value};
use std::alloc::Global;

/// Room for a short response, so that it is allocated once.
const FIRST_ROOM: usize = 256;

/// What an execution gives (GraphQL October 2021, section 7.1): the errors in the order in which they came, and the
/// data. `root` is `None` where the data are null. Responses are compared part by part; the order of the pairs of maps
/// does not count.
#[derive(PartialEq, Eq)]
pub struct ExecutionResponse {
    pub errors: Listed<GraphQLError>,
    pub root: Option<Map>,
}

impl Drop for ExecutionResponse {
    fn drop(self) {
        let ExecutionResponse { errors: _, root: _ } = self;
    }
}

impl ExecutionResponse {
    /// The response as JSON without white space: `errors` where there are any, then `data` (GraphQL October 2021, section 7.1).
    /// `Err` only when out of memory.
    pub fn to_bytes(&self, alloc: Global) -> Result<Bytes, Memory>
        ensures { IfOk result (λ bytes. bytes ≡ compact (response_value self.now)) }
    {
        let mut out = String::with_capacity(alloc, FIRST_ROOM)?;
        self.append(&mut out)?;
        Ok(Bytes::from_vec(out.into_bytes())?)
    }

    /// The bytes of a response with these errors whose data are written already, as JSON without white space: `written` is the
    /// text of an object, or `null`. `Err` only when out of memory.
    pub fn bytes_with(
        alloc: Global,
        errors: &[GraphQLError],
        written: &str,
    ) -> Result<Bytes, Memory>
        ensures { IfOk result (λ bytes. (root : Option (List Member)) → written.now ≡ compact (data_value root)
            → bytes ≡ compact (response_value (record { errors = errors.now; root = root }))) }
    {
        let room = FIRST_ROOM.saturating_add(written.len());
        let mut out = String::with_capacity(alloc, room)?;
        append_before_data(&mut out, errors)?;
        out.push_str(written)?;
        out.push_str("}")?;
        Ok(Bytes::from_vec(out.into_bytes())?)
    }

    /// The bytes of a refusal for these errors, as JSON without white space: an object with `errors` alone (GraphQL October 2021,
    /// section 7.1.2). `Err` only when out of memory.
    pub fn refusal_bytes(alloc: Global, errors: &[GraphQLError]) -> Result<Bytes, Memory>
        ensures { IfOk result (λ bytes. bytes ≡ compact (refusal_value errors.now)) }
    {
        let mut out = String::with_capacity(alloc, FIRST_ROOM)?;
        out.push_str("{\"errors\":")?;
        append_list(&mut out, errors)?;
        out.push_str("}")?;
        Ok(Bytes::from_vec(out.into_bytes())?)
    }

    /// The response that the bytes spell, as one whole text (GraphQL October 2021, section 7.1), with members in any order. Where
    /// there are no `errors` there are none, and where there are no `data` they are null. Names in paths come from no place. The
    /// text is nested at most 127 deep, and its numbers are whole.
    ///
    /// # Errors
    ///
    /// - [`ResponseFault::Read`] where the bytes are no JSON text: the first fault from the left.
    /// - [`ResponseFault::Shape`] of the first part that does not fit: a member that is unknown or of a wrong kind or a
    ///   number outside its type, at its turn, and a member that is missing after all others of its object. A text
    ///   in a path that is no name is of a wrong kind.
    /// - [`Refused::Memory`] when out of memory.
    pub fn from_bytes(
        alloc: Global,
        bytes: &Bytes,
    ) -> Result<ExecutionResponse, Refused<ResponseFault>>
        ensures { Answered (response_read bytes.now) result }
    {
        match from_bytes_whole(alloc, bytes) {
            Ok(value) => read_shape(alloc, &value),
            Err(Refused::Fault(fault)) => Err(Refused::Fault(ResponseFault::Read(fault))),
            Err(Refused::Memory) => Err(Refused::Memory),
        }
    }
}

impl Parts for ExecutionResponse {
    ghost put_gives = { put_response };

    fn put(&mut self, alloc: Global, key: &str, value: &Value) -> Result<(), Refused<ShapeError>> {
        if key == "errors" {
            self.errors = Listed::from_value(alloc, value)?;
            return Ok(());
        }
        if key == "data" {
            self.root = read_data(alloc, value)?;
            return Ok(());
        }
        Err(Refused::Fault(ShapeError::UnknownField))
    }
}

impl Printed for ExecutionResponse {
    ghost value_of = { response_value };

    fn append(&self, out: &mut String) -> Result<(), Memory> {
        append_before_data(out, self.errors.as_slice())?;
        append_data(out, &self.root)?;
        out.push_str("}")?;
        Ok(())
    }
}

/// Appends all that a response with these errors has before its data.
fn append_before_data(out: &mut String, errors: &[GraphQLError]) -> Result<(), Memory>
    ensures { OnOk result ((root : Option (List Member)) → (string_bytes out.new ++ compact (data_value root)) ++ codes "}"
        ≡ string_bytes out.old ++ compact (response_value (record { errors = errors.now; root = root }))) }
{
    out.push_str("{")?;
    append_errors(out, errors)?;
    append_key(out, false, "data")?;
    Ok(())
}

/// Appends the errors where there are any, and the comma that then stands before another member.
fn append_errors(out: &mut String, errors: &[GraphQLError]) -> Result<(), Memory>
    ensures { OnOk result ((member : Member) → string_bytes out.new ++ member_piece member
        ≡ string_bytes out.old ++ pieces_text false (map member_piece (list_member (codes "errors") (map error_value errors.now) ++ member ∷ []))) }
{
    if errors.is_empty() {
        return Ok(());
    }
    append_key(out, false, "errors")?;
    append_list(out, errors)?;
    out.push_str(",")?;
    Ok(())
}

fn append_data(out: &mut String, root: &Option<Map>) -> Result<(), Memory>
    ensures { OnOk result (string_bytes out.new ≡ string_bytes out.old ++ compact (data_value root.now)) }
{
    match root {
        Some(members) => append_object(out, members),
        None => out.push_str("null"),
    }
}

fn read_shape(alloc: Global, value: &Value) -> Result<ExecutionResponse, Refused<ResponseFault>>
    ensures { Answered (shaped (read_response value.now)) result }
{
    match read_response(alloc, value) {
        Ok(response) => Ok(response),
        Err(Refused::Fault(cause)) => Err(Refused::Fault(ResponseFault::Shape(cause))),
        Err(Refused::Memory) => Err(Refused::Memory),
    }
}

fn read_response(alloc: Global, value: &Value) -> Result<ExecutionResponse, Refused<ShapeError>>
    ensures { Answers (read_response value.now) result }
{
    let none = ExecutionResponse {
        errors: Listed::new(alloc),
        root: None,
    };
    read_parts(alloc, none, value)
}

fn read_data(alloc: Global, value: &Value) -> Result<Option<Map>, Refused<ShapeError>>
    ensures { Answers (read_data value.now) result }
{
    if value.is_null() {
        return Ok(None);
    }
    Ok(Some(read_object(alloc, value)?))
}
