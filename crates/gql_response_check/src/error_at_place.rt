//! Which of the errors that are listed at a place tell its fault.

ghost use Rattle.std.specs.Prelude.{◌≡◌, option_to_list};
ghost use Rattle.gql_response.specs.ErrorAt.{place_in};
ghost use Rattle.gql_source.specs.File.{Files};
ghost use Rattle.gql_checker_laws.specs.Shows as spec;
ghost use Rattle.gql_checker_laws.specs.Findings.{with_all_told};
ghost use Rattle.gql_checker_laws.specs.Told.{any_told, is_told, told_numbers};
ghost use Rattle.gql_response_check.specs.bridge.Views.{claim_of, claims_of, fault_in, findings_of};

use crate::claim::Claim;
use crate::findings::Findings;
use gql_response::{GraphQLError, JsonMap, RequestError};
use gql_source::{LineColumn, SourceMap, SourceSpan};

/// The key of the mark of a suspected fault of validation.
const MARK: &str = "APOLLO_SUSPECTED_VALIDATION_BUG";

/// Marks the claims that end here as true where they say what the fault is, and gives whether any does.
pub(crate) fn tell_fault(
    sources: &SourceMap,
    fault: &RequestError,
    claims: &[Claim<'_>],
    findings: &mut Findings,
) -> bool
    ensures any { result ≡ any_told sources.now (fault_in fault.now) (claims_of claims.now) }
    ensures told { findings_of findings.new ≡ with_all_told (told_numbers sources.now (fault_in fault.now) (claims_of claims.now)) (findings_of findings.old) }
{
    if claims.is_empty() {
        return false;
    }
    let place = place_in(fault.location, sources);
    let mut any = false;
    for claim in claims {
        if is_told(claim, fault, place) {
            findings.tell(claim.number);
            any = true;
        }
    }
    any
}

/// Whether a claim ends here and says what the fault is, which is found at this place of the document.
fn is_told(claim: &Claim<'_>, fault: &RequestError, place: Option<LineColumn>) -> bool
    ensures { (sources : Files) → place ≡ place_in fault.now.location sources → result ≡ is_told sources (fault_in fault.now) (claim_of claim.now) }
{
    claim.rest.is_empty() && is_said(claim.error, fault, place)
}

/// The line and column of the start of a location, where they are found in the files.
fn place_in(location: Option<SourceSpan>, sources: &SourceMap) -> Option<LineColumn>
    ensures { result ≡ place_in location sources.now }
{
    match location {
        Some(location) => location.line_column(sources),
        None => None,
    }
}

/// Whether the error says what the fault is, which is found at this place of the document; the path aside.
fn is_said(error: &GraphQLError, fault: &RequestError, place: Option<LineColumn>) -> bool
    ensures { result ≡ spec.says error.now fault.now.message (option_to_list place) fault.now.is_suspected_validation_bug }
{
    error.message.as_str() == fault.message()
        && are_locations(error.locations.as_slice(), place)
        && is_marked(&error.extensions, fault.is_suspected_validation_bug)
}

/// Whether the locations are this place alone, or none where there is no place.
fn are_locations(locations: &[LineColumn], place: Option<LineColumn>) -> bool
    ensures { result ≡ spec.same_places locations.now (option_to_list place) }
{
    let Some((first, rest)) = locations.split_first() else {
        return place.is_none();
    };
    let Some(place) = place else {
        return false;
    };
    is_place(first, place) && rest.is_empty()
}

/// Whether these are the same line and column.
fn is_place(one: &LineColumn, other: LineColumn) -> bool
    ensures { result ≡ spec.same_place one.now other }
{
    one.line == other.line && one.column == other.column
}

/// Whether the extensions are the mark of a suspected fault of validation alone, or nothing where there is to be none.
fn is_marked(extensions: &JsonMap, marked: bool) -> bool
    ensures { result ≡ spec.is_marked marked extensions.now }
{
    if !marked {
        return extensions.is_empty();
    }
    extensions.len() == 1
        && extensions.key_at(0).as_str() == MARK
        && extensions.value_at(0).eq_bool(true)
}
