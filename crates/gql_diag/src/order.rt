//! The order in which diagnostics are listed.

ghost use Rattle.std.specs.Prelude.{◌≡◌, Some, OnOk, OnErr};
ghost use Rattle.std.specs.Cmp.Lexicographic.{slice_cmp};
ghost use Rattle.std.specs.Ordering.{nat_cmp};
ghost use Rattle.gql_diag.specs.Order.{place_order, row_of, names_of, other_of, details_order, by_place, list_order};
ghost use Rattle.gql_diag.specs.List.{IsStableSort};

use gql_diag_messages::{Details, DiagnosticData};
use gql_source::SourceSpan;
use jb_text::{Memory, Text};
use std::cmp::Ordering;

/// The row of what is not a broken rule but a chain that is too long, behind all rows of rules.
const LAST_ROW: usize = 69;

/// Sorts by place; what is at one place stays as it stands. Where memory has run out, nothing is moved.
pub(crate) fn sort_by_place(items: &mut Vec<DiagnosticData>) -> Result<(), Memory>
    ensures sorted { OnOk result (IsStableSort by_place items.old.items items.new.items) }
    ensures unchanged { OnErr result (items.new.items ≡ items.old.items) }
{
    items.sort_by(|item, other| compare_places(item.location, other.location))?;
    Ok(())
}

/// Sorts by place, row, names and other place; ties stay as they stand. Where memory has run out, nothing is moved.
pub(crate) fn sort_in_order(items: &mut Vec<DiagnosticData>) -> Result<(), Memory>
    ensures sorted { OnOk result (IsStableSort list_order items.old.items items.new.items) }
    ensures unchanged { OnErr result (items.new.items ≡ items.old.items) }
{
    items.sort_by(|item, other| compare_items(item, other))?;
    Ok(())
}

fn compare_items(item: &DiagnosticData, other: &DiagnosticData) -> Ordering
    ensures { result ≡ list_order item.now other.now }
{
    match compare_places(item.location, other.location) {
        Ordering::Equal => compare_details(&item.details, &other.details),
        apart => apart,
    }
}

fn compare_details(details: &Details, other: &Details) -> Ordering
    ensures { result ≡ details_order details.now other.now }
{
    match row_of(details).cmp(&row_of(other)) {
        Ordering::Equal => match compare_names(names_of(details), names_of(other)) {
            Ordering::Equal => compare_places(other_of(details), other_of(other)),
            apart => apart,
        },
        apart => apart,
    }
}

/// No place comes first, and then places go by file and by offset.
fn compare_places(place: Option<SourceSpan>, other: Option<SourceSpan>) -> Ordering
    ensures { result ≡ place_order place other }
{
    match (place, other) {
        (None, None) => Ordering::Equal,
        (None, Some(_)) => Ordering::Less,
        (Some(_), None) => Ordering::Greater,
        (Some(place), Some(other)) => compare_spans(place, other),
    }
}

fn compare_spans(span: SourceSpan, other: SourceSpan) -> Ordering
    ensures { result ≡ place_order (Some span) (Some other) }
{
    match span.file_id().number.cmp(&other.file_id().number) {
        Ordering::Equal => span.offset().cmp(&other.offset()),
        apart => apart,
    }
}

/// By the bytes of the first names that differ; fewer names come first where these are the beginning of the others.
fn compare_names(names: &[Text], others: &[Text]) -> Ordering
    ensures { result ≡ slice_cmp (slice_cmp nat_cmp) names.now others.now }
{
    let count = names.len().min(others.len());
    for index in 0..count {
        match names[index].as_str().cmp(&others[index].as_str()) {
            Ordering::Equal => {}
            apart => return apart,
        }
    }
    names.len().cmp(&others.len())
}

fn row_of(details: &Details) -> usize
    ensures { result ≡ row_of details.now }
{
    match details {
        Details::ParserLimit { .. } | Details::SyntaxError { .. } => 0,
        Details::SchemaBuildError(fault)
        | Details::ExecutableBuildError(fault)
        | Details::CompilerDiagnostic(fault) => fault.rule.row(),
        Details::RecursionLimitError => LAST_ROW,
    }
}

fn names_of(details: &Details) -> &[Text]
    ensures { result.now ≡ names_of details.now }
{
    match details {
        Details::SchemaBuildError(fault)
        | Details::ExecutableBuildError(fault)
        | Details::CompilerDiagnostic(fault) => fault.names.as_slice(),
        _ => &[],
    }
}

fn other_of(details: &Details) -> Option<SourceSpan>
    ensures { result ≡ other_of details.now }
{
    match details {
        Details::SchemaBuildError(fault)
        | Details::ExecutableBuildError(fault)
        | Details::CompilerDiagnostic(fault) => fault.other,
        _ => None,
    }
}
