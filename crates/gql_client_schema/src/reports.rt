//! What is wrong with a schema, as people read it.

ghost use Rattle.std.specs.Prelude.{◌≡◌, ◌++◌, IfOk, OnOk, string_bytes};
ghost use Rattle.gql_client_schema.specs.Program.{item_report, list_reports};

use bytes::Bytes;
use gql_diag::{DiagnosticData, DiagnosticList, ToCliReport};
use gql_source::SourceMap;
use jb_text::Memory;
use std::alloc::Global;

/// The report of each diagnostic, with its LF at the end of each line. `Err` only when out of memory.
pub(crate) fn list_reports(alloc: Global, list: DiagnosticList) -> Result<Bytes, Memory>
    ensures { IfOk result (λ text. text ≡ list_reports list) }
{
    let (sources, items) = list.into_parts();
    let mut text = String::new(alloc);
    for item in items.as_slice() {
        append_item(alloc, &mut text, &sources, item)?;
    }
    Bytes::from_string(text)
}

fn append_item(
    alloc: Global,
    text: &mut String,
    sources: &SourceMap,
    item: &DiagnosticData,
) -> Result<(), Memory>
    ensures { OnOk result (string_bytes text.new ≡ string_bytes text.old ++ item_report sources.now item.now) }
{
    let report = item.to_report(alloc, sources)?.into_string(alloc)?;
    text.push_str(report.as_str())
}
