//! A schema's text, of what introspection shows of it.

ghost use Rattle.std.specs.Prelude.{◌≡◌, IfOk, IfErr, IsErrAnd};
ghost use Rattle.std.specs.Option.{option_copied};
ghost use Rattle.gql_client_schema.specs.Answers.{data_in as data_of};
ghost use Rattle.gql_client_schema.specs.ClientSchema as spec;
ghost use Rattle.gql_client_schema.specs.bridge.ClientSchema as spec_bridge;
ghost use Rattle.gql_client_schema.specs.declared.making.ClientFault.{ClientFault as FaultOf};

use crate::again::gives_again;
use crate::answer::read_answer;
use bytes::Bytes;
use gql_cst::laws as cst_laws;
use gql_diag::DiagnosticList;
use gql_parser::{laws as text_laws, schema_of_text};
use gql_response::ResponseDataPathSegment;
use gql_sdl::{ShownSchema, print_schema};
use jb_read::{ReadFault, from_bytes_whole, laws as json_laws};
use jb_text::{Listed, Refused, Text};
use jb_tree::Value;
use std::alloc::Global;

/// A schema that was read back from an answer to [`FULL_QUERY`](crate::FULL_QUERY).
#[derive(Drop)]
pub struct ClientSchema {
    /// The definitions, each in a line of its own.
    pub text: Text,
    /// Whether the schema that the text means gives the very data of the answer again, to the order of their members.
    pub same: bool,
}

/// Why an answer is no schema.
#[derive(Drop)]
pub enum ClientFault {
    /// The bytes are no JSON text (RFC 8259, section 2).
    Read(ReadFault),
    /// A part of the answer is not what the query asks for. This is the way to the first, parts before the whole.
    Shape {
        path: Listed<ResponseDataPathSegment>,
    },
    /// Something is wrong with the schema that the answer shows: the diagnostics of its text (GraphQL October 2021, section 3).
    Schema(DiagnosticList),
}

/// The text of the schema that an answer to [`FULL_QUERY`](crate::FULL_QUERY) shows (GraphQL October 2021, section 4), and whether that
/// text, introspected, gives the answer's data again.
///
/// An answer to a query that asks for less is read too: an absent `description`, `isOneOf`, `specifiedByURL` or `deprecationReason` counts
/// as null, and an absent `isRepeatable`, or `isDeprecated` of an input value, as false. Then `same` is false, as it is where a server has
/// built-in definitions other than this library's.
///
/// # Errors
///
/// The [`ClientFault`] of the first step that finds something, exactly where one does. Otherwise only when out of memory.
pub fn client_schema(alloc: Global, answer: &Bytes) -> Result<ClientSchema, Refused<ClientFault>>
    ensures made { IfOk result (spec.IsClientSchema answer.now) }
    ensures refused { IfErr result (spec.IsRefused answer.now) }
    ensures exact { (fault : FaultOf) → spec.HasCause answer.now fault → IsErrAnd result (spec.ComesFor fault) }
{
    json_laws::each_text_has_one_answer();
    text_laws::texts_have_one_schema();
    cst_laws::texts_have_one_tree();
    match from_bytes_whole(alloc, answer) {
        Ok(value) => made_of(alloc, &value),
        Err(refused) => Err(unread(refused)),
    }
}

/// The refusal of bytes that are no JSON text.
fn unread(refused: Refused<ReadFault>) -> Refused<ClientFault>
    ensures { result ≡ spec_bridge.unread_as refused }
{
    match refused {
        Refused::Fault(fault) => Refused::Fault(ClientFault::Read(fault)),
        Refused::Memory => Refused::Memory,
    }
}

/// What is made of the value of an answer.
fn made_of(alloc: Global, value: &Value) -> Result<ClientSchema, Refused<ClientFault>>
    ensures { spec_bridge.IsMadeOf value.now result }
{
    match read_answer(alloc, value) {
        Ok(shown) => made_of_shown(alloc, &shown, value),
        Err(Refused::Fault(path)) => Err(Refused::Fault(ClientFault::Shape {
            path: path.into_steps(alloc)?,
        })),
        Err(Refused::Memory) => Err(Refused::Memory),
    }
}

/// What is made of what the answer shows.
fn made_of_shown(
    alloc: Global,
    shown: &ShownSchema,
    value: &Value,
) -> Result<ClientSchema, Refused<ClientFault>>
    ensures { spec_bridge.IsOfShown shown.now value.now result }
{
    let text = print_schema(alloc, shown)?;
    match schema_of_text(alloc, text.as_str()) {
        Ok(schema) => {
            let same = gives_again(alloc, schema, data_in(value))?;
            Ok(ClientSchema { text, same })
        }
        Err(Refused::Fault(list)) => Err(Refused::Fault(ClientFault::Schema(list))),
        Err(Refused::Memory) => Err(Refused::Memory),
    }
}

/// The data of the answer.
fn data_in(value: &Value) -> Option<&Value>
    ensures { option_copied result ≡ data_of value.now }
{
    match value {
        Value::Object(members) => members.get("data"),
        _ => None,
    }
}
