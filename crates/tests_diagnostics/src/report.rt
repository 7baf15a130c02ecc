//! Whole reports, as they are written.

use gql_diag::CliReport;
use gql_source::{FileId, SourceFile, SourceMap, SourceSpan};
use jb_io::SureSink;
use jb_text::Memory;
use std::alloc::Global;
use std::test::Fail;

const FILE: FileId = FileId { number: 3 };

/// Tells one place in the file, and three that are found nowhere.
fn fill(report: &mut CliReport<'_>) -> Result<(), Memory> {
    report.with_message("old")?;
    report.with_message("m")?;
    report.with_label_opt(Some(SourceSpan::new(FILE, 0, 4)), "l")?;
    report.with_label_opt(None, "nowhere")?;
    report.with_label_opt(Some(SourceSpan::new(FILE, 7, 7)), "past the end")?;
    report.with_label_opt(Some(SourceSpan::new(FileId::NONE, 0, 0)), "in no file")?;
    report.with_note("n")?;
    report.with_help("h")
}

fn sources(alloc: Global) -> Result<SourceMap, Memory> {
    let mut sources = SourceMap::new(alloc);
    sources.insert(FILE, SourceFile::new(alloc, "p", "type A")?)?;
    Ok(sources)
}

fn filled(alloc: Global, sources: &SourceMap) -> Result<CliReport<'_>, Memory> {
    let start = Some(SourceSpan::new(FILE, 0, 4));
    let mut report = CliReport::builder(alloc, sources, start);
    fill(&mut report)?;
    Ok(report)
}

#[test]
fn a_report_is_its_lines(rt: HostRuntime) -> Result<(), Fail> {
    let mut sink = SureSink::new(rt.alloc(), 64)?;
    let sources = sources(rt.alloc())?;
    let report = filled(rt.alloc(), &sources)?;
    let is_written = report.write(rt.alloc(), &mut sink).is_ok();
    assert_eq!(rt;
        (is_written, sink.written()),
        (true, b"Error: m\np:1:1: l\nHelp: h\nNote: n\n".as_slice())
    );
    Ok(())
}

#[test]
fn an_empty_report_has_an_empty_message(rt: HostRuntime) -> Result<(), Fail> {
    let sources = sources(rt.alloc())?;
    let empty = CliReport::builder(rt.alloc(), &sources, None);
    assert_eq!(rt; empty.into_string(rt.alloc())?.as_str(), "Error: \n");
    Ok(())
}

/// A report that was refused after its first message.
fn refused(alloc: Global, sources: &SourceMap) -> Result<CliReport<'_>, Memory> {
    let mut report = CliReport::builder(alloc, sources, None);
    report.with_message("m")?;
    let _alloc = report.allocator();
    report.refuse();
    Ok(report)
}

/// Whether each call that adds to a report is refused.
fn refuses_each(report: &mut CliReport<'_>) -> bool {
    report.with_message("m").is_err()
        && report.with_help("h").is_err()
        && report.with_note("n").is_err()
        && report.with_label_opt(None, "l").is_err()
}

#[test]
fn a_refused_report_answers_that_from_then_on(rt: HostRuntime) -> Result<(), Fail> {
    let mut sink = SureSink::new(rt.alloc(), 64)?;
    let sources = SourceMap::new(rt.alloc());
    let mut report = refused(rt.alloc(), &sources)?;
    let is_refused = refuses_each(&mut report);
    let is_written = report.write(rt.alloc(), &mut sink).is_ok();
    assert_eq!(rt;
        (is_refused, is_written, sink.written()),
        (true, false, b"".as_slice())
    );
    Ok(())
}
