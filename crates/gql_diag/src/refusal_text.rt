//! The text of a refusal.

ghost use Rattle.std.specs.Prelude.{◌≡◌, ◌++◌, [], ◌∷◌, map, IfOk, OnOk, string_bytes};
ghost use Rattle.jb_tree.specs.declared.value.Value.TheVariants as json;
ghost use Rattle.jb_print.specs.Compact.{compact};
ghost use Rattle.jb_print.specs.bridge.Pieces.{comma_after};
ghost use Rattle.gql_response.specs.RequestFault.{request_error};
ghost use Rattle.gql_response.specs.Response.{error_value};
ghost use Rattle.gql_diag.specs.Refusal.{error_of, errors_of, message_error, refusal_value};

use crate::diagnostic_list::DiagnosticList;
use crate::error_text::{append_diagnostic, append_request};
use bytes::Bytes;
use gql_diag_messages::DiagnosticData;
use gql_response::RequestError;
use gql_source::SourceMap;
use jb_print::append_string;
use jb_text::Memory;
use std::alloc::Global;

/// The text of a refusal with this one message. `Err` only when out of memory.
pub fn refusal_of_message(alloc: Global, message: &str) -> Result<Bytes, Memory>
    ensures { IfOk result (λ text. text ≡ compact (refusal_value (message_error message.now ∷ []))) }
{
    let mut out = String::new(alloc);
    out.push_str("{\"errors\":[{\"message\":")?;
    append_string(&mut out, message)?;
    out.push_str("}]}")?;
    Ok(Bytes::from_vec(out.into_bytes())?)
}

/// The text of a refusal with the one error of a request, whose place is looked up in the files. `Err` only when out of
/// memory.
pub fn refusal_of_request(
    alloc: Global,
    error: &RequestError,
    sources: &SourceMap,
) -> Result<Bytes, Memory>
    ensures { IfOk result (λ text. text ≡ compact (refusal_value (request_error error.now sources.now ∷ []))) }
{
    let mut out = String::new(alloc);
    out.push_str("{\"errors\":[")?;
    append_request(&mut out, sources, error)?;
    out.push_str("]}")?;
    Ok(Bytes::from_vec(out.into_bytes())?)
}

/// The text of a refusal with an error for each diagnostic of a list, in its order. `Err` only when out of memory.
pub fn refusal_of_diagnostics(alloc: Global, list: DiagnosticList) -> Result<Bytes, Memory>
    ensures { IfOk result (λ text. text ≡ compact (refusal_value (errors_of list))) }
{
    let (sources, items) = list.into_parts();
    let mut out = String::new(alloc);
    out.push_str("{\"errors\":")?;
    append_errors(alloc, &mut out, &sources, items.as_slice())?;
    out.push_str("}")?;
    Ok(Bytes::from_vec(out.into_bytes())?)
}

/// Appends an array with the error of each diagnostic.
fn append_errors(
    alloc: Global,
    out: &mut String,
    sources: &SourceMap,
    items: &[DiagnosticData],
) -> Result<(), Memory>
    ensures { OnOk result (string_bytes out.new ≡ string_bytes out.old
        ++ compact (json.Array (map error_value (map (error_of sources.now) items.now)))) }
{
    out.push_str("[")?;
    let mut later = false;
    for item in items {
        append_comma(out, later)?;
        append_diagnostic(alloc, out, sources, item)?;
        later = true;
    }
    out.push_str("]")?;
    Ok(())
}

fn append_comma(out: &mut String, later: bool) -> Result<(), Memory>
    ensures { OnOk result (string_bytes out.new ≡ string_bytes out.old ++ comma_after later) }
{
    if later { out.push_str(",") } else { Ok(()) }
}
