//! The text of an error with a message, and with a place if it has one.

ghost use Rattle.std.specs.Prelude.{◌≡◌, ◌++◌, [], ◌∷◌, true, pos, map, option_to_list, codes, OnOk, string_bytes};
ghost use Rattle.jb_tree.specs.declared.value.Value.TheVariants as json;
ghost use Rattle.jb_print.specs.Compact.{compact};
ghost use Rattle.jb_print.specs.bridge.Pieces.{member_piece, pieces_text};
ghost use Rattle.gql_response.specs.RequestFault.{request_error, suspected_bug};
ghost use Rattle.gql_response.specs.ErrorAt.{place_in};
ghost use Rattle.gql_response.specs.Response.{error_value, list_member, location_value, object_member};
ghost use Rattle.gql_diag.specs.Refusal.{error_of};
ghost use Rattle.gql_diag.specs.bridge.Refusal.{error_marked, extensions_marked};

use gql_diag_messages::DiagnosticData;
use gql_response::RequestError;
use gql_source::{LineColumn, SourceMap, SourceSpan};
use jb_print::{append_string, append_value};
use jb_text::{Memory, Number};
use jb_tree::Value;
use std::alloc::Global;

/// Appends the error of a diagnostic. `Err` only when out of memory.
pub(crate) fn append_diagnostic(
    alloc: Global,
    out: &mut String,
    sources: &SourceMap,
    item: &DiagnosticData,
) -> Result<(), Memory>
    ensures { OnOk result (string_bytes out.new ≡ string_bytes out.old ++ compact (error_value (error_of sources.now item.now))) }
{
    let message = item.details.message(alloc)?;
    let place = place_in(item.location, sources);
    append_error(out, message.as_str(), place, false)
}

/// Appends the error of a refused request. `Err` only when out of memory.
pub(crate) fn append_request(
    out: &mut String,
    sources: &SourceMap,
    error: &RequestError,
) -> Result<(), Memory>
    ensures { OnOk result (string_bytes out.new ≡ string_bytes out.old ++ compact (error_value (request_error error.now sources.now))) }
{
    let place = place_in(error.location, sources);
    append_error(
        out,
        error.message(),
        place,
        error.is_suspected_validation_bug,
    )
}

/// The line and column of the start of a location, where they are found in the files.
fn place_in(location: Option<SourceSpan>, sources: &SourceMap) -> Option<LineColumn>
    ensures { result ≡ place_in location sources.now }
{
    match location {
        Some(location) => location.line_column(sources),
        None => None,
    }
}

/// Appends an error with a message, with a place if there is one, and marked as a fault of validation or not.
fn append_error(
    out: &mut String,
    message: &str,
    place: Option<LineColumn>,
    marked: bool,
) -> Result<(), Memory>
    ensures { OnOk result (string_bytes out.new ≡ string_bytes out.old ++ compact (error_value (error_marked message.now (option_to_list place) marked))) }
{
    out.push_str("{\"message\":")?;
    append_string(out, message)?;
    append_places(out, place)?;
    append_mark(out, marked)?;
    out.push_str("}")?;
    Ok(())
}

/// Appends the member of an error that marks it as a fault of validation, where it is one.
fn append_mark(out: &mut String, marked: bool) -> Result<(), Memory>
    ensures { OnOk result (string_bytes out.new ≡ string_bytes out.old
        ++ pieces_text true (map member_piece (object_member (codes "extensions") (extensions_marked marked)))) }
{
    if marked {
        append_suspected(out)
    } else {
        Ok(())
    }
}

fn append_suspected(out: &mut String) -> Result<(), Memory>
    ensures { OnOk result (string_bytes out.new ≡ string_bytes out.old
        ++ pieces_text true (map member_piece (object_member (codes "extensions") suspected_bug))) }
{
    out.push_str(",\"extensions\":{\"APOLLO_SUSPECTED_VALIDATION_BUG\":true}")?;
    Ok(())
}

/// Appends the member of an error that has its places, where there is one.
fn append_places(out: &mut String, place: Option<LineColumn>) -> Result<(), Memory>
    ensures { OnOk result (string_bytes out.new ≡ string_bytes out.old
        ++ pieces_text true (map member_piece (list_member (codes "locations") (map location_value (option_to_list place))))) }
{
    match place {
        Some(place) => append_place(out, place),
        None => Ok(()),
    }
}

fn append_place(out: &mut String, place: LineColumn) -> Result<(), Memory>
    ensures { OnOk result (string_bytes out.new ≡ string_bytes out.old
        ++ pieces_text true (map member_piece (list_member (codes "locations") (map location_value (place ∷ []))))) }
{
    out.push_str(",\"locations\":[{\"line\":")?;
    append_whole(out, place.line)?;
    out.push_str(",\"column\":")?;
    append_whole(out, place.column)?;
    out.push_str("}]")?;
    Ok(())
}

/// Appends a count as a JSON number.
fn append_whole(out: &mut String, count: usize) -> Result<(), Memory>
    ensures { OnOk result (string_bytes out.new ≡ string_bytes out.old ++ compact (json.Number (pos count))) }
{
    append_value(out, &Value::Number(Number::from_u64(count as u64)))
}
