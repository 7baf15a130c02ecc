//! The reports of a list of diagnostics, as people read them on the command line.

ghost use Rattle.std.specs.Prelude.{◌≡◌, ◌++◌, IfOk, OnOk, string_bytes};
ghost use Rattle.std.specs.List.{flat_map};
ghost use Rattle.gql_engine.specs.Reports.{report_of, reports_of};

use bytes::Bytes;
use gql_diag::{DiagnosticData, DiagnosticList, ToCliReport};
use gql_source::SourceMap;
use jb_tree::Memory;
use std::alloc::Global;

/// The reports of the diagnostics of a list, one after the other, each with its line feeds: its message, and a line for each place
/// that it is about. `Err` only when out of memory.
pub fn reports(alloc: Global, list: DiagnosticList) -> Result<Bytes, Memory>
    ensures { IfOk result (λ text. text ≡ reports_of list) }
{
    let (sources, items) = list.into_parts();
    let mut out = String::new(alloc);
    append_reports(alloc, &mut out, &sources, items.as_slice())?;
    Bytes::from_string(out)
}

/// Appends the report of each of these.
fn append_reports(
    alloc: Global,
    out: &mut String,
    sources: &SourceMap,
    items: &[DiagnosticData],
) -> Result<(), Memory>
    ensures { OnOk result (string_bytes out.new ≡ string_bytes out.old ++ flat_map (report_of sources.now) items.now) }
{
    for item in items {
        append_report(alloc, out, sources, item)?;
    }
    Ok(())
}

/// Appends the report of one.
fn append_report(
    alloc: Global,
    out: &mut String,
    sources: &SourceMap,
    item: &DiagnosticData,
) -> Result<(), Memory>
    ensures { OnOk result (string_bytes out.new ≡ string_bytes out.old ++ report_of sources.now item.now) }
{
    let report = item.to_report(alloc, sources)?;
    let text = report.into_string(alloc)?;
    out.push_str(text.as_str())
}
