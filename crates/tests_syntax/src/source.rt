//! Worked rows, and each public call once.

use gql_source::{
    FileId, FileIds, LineColumn, LineCursor, Memory, SourceFile, SourceMap, SourceSpan,
};
use std::alloc::Global;
use std::process::Abort;
use std::test::Fail;

fn at(line: usize, column: usize) -> Option<LineColumn> {
    Some(LineColumn { line, column })
}

/// Texts, and the line and the column of each offset from 0 on, the text's end included.
const PLACES: &[(&str, &[(usize, usize)])] = &[
    ("", &[(1, 1)]),
    ("ab", &[(1, 1), (1, 2), (1, 3)]),
    ("é\r\nx", &[(1, 1), (1, 2), (1, 2), (1, 3), (2, 1), (2, 2)]),
    ("\n\n", &[(1, 1), (2, 1), (3, 1)]),
    ("\r\r\n", &[(1, 1), (2, 1), (2, 2), (3, 1)]),
    ("\n\r", &[(1, 1), (2, 1), (3, 1)]),
    (
        "a\u{2028}\rb",
        &[(1, 1), (1, 2), (1, 3), (1, 3), (1, 3), (2, 1), (2, 2)],
    ),
    ("𝒳y", &[(1, 1), (1, 2), (1, 2), (1, 2), (1, 2), (1, 3)]),
];

/// The place of an offset, up to the text's end.
fn place_of(places: &[(usize, usize)], offset: usize) -> Option<LineColumn> {
    let (line, column) = places.get(offset)?;
    at(*line, *column)
}

fn check_file(rt: &impl Abort, file: &SourceFile, places: &[(usize, usize)]) {
    for offset in 0..places.len() + 1 {
        assert_eq!(rt; file.get_line_column(offset), place_of(places, offset));
    }
}

fn check_forwards(rt: &impl Abort, cursor: &mut LineCursor<'_>, places: &[(usize, usize)]) {
    for offset in 0..places.len() + 1 {
        assert_eq!(rt; cursor.get_line_column(offset), place_of(places, offset));
    }
}

fn check_backwards(rt: &impl Abort, cursor: &mut LineCursor<'_>, places: &[(usize, usize)]) {
    for offset in (0..places.len()).rev() {
        assert_eq!(rt; cursor.get_line_column(offset), place_of(places, offset));
    }
}

fn check_cursor(rt: &impl Abort, text: &str, places: &[(usize, usize)]) {
    let mut cursor = LineCursor::new(text);
    check_forwards(rt, &mut cursor, places);
    check_backwards(rt, &mut cursor, places);
}

#[test]
fn lines_and_columns(rt: HostRuntime) -> Result<(), Fail> {
    for (text, places) in PLACES {
        check_cursor(&rt, text, places);
        let file = SourceFile::new(rt.alloc(), "rows.graphql", text)?;
        check_file(&rt, &file, places);
    }
    Ok(())
}

const FIRST: FileId = FileId { number: 3 };

const SECOND: FileId = FileId { number: 4 };

#[test]
fn numbers_of_files(rt: HostRuntime) {
    let mut ids = FileIds::new();
    assert!(rt; ids.next() == Some(FIRST) && ids.next() == Some(SECOND));
    assert!(rt; FileIds::default().next() == Some(FIRST));
    assert!(rt; FileId::BUILT_IN.number == 1 && FileId::NONE.number == 2);
    let mut last = FileIds::starting_at(0x7FFF_FFFF_FFFF_FFFF);
    assert!(rt; last.next().is_some() && last.at_end() && last.next().is_none());
}

/// Files with these numbers, paths and texts, put in one after the other.
fn sources_of(alloc: Global, files: &[(FileId, &str, &str)]) -> Result<SourceMap, Memory> {
    let mut sources = SourceMap::new(alloc);
    for (id, path, text) in files {
        sources.insert(*id, SourceFile::new(alloc, path, text)?)?;
    }
    Ok(sources)
}

/// The path and the text of a file.
fn file_of(sources: &SourceMap, id: FileId) -> Option<(&str, &str)> {
    let file = sources.get(id)?;
    Some((file.path(), file.source_text()))
}

const FILES: &[(FileId, &str, &str)] = &[
    (FIRST, "a", "old"),
    (SECOND, "b", "x"),
    (FIRST, "c", "new"),
];

fn copied(alloc: Global) -> Result<SourceMap, Memory> {
    let sources = sources_of(alloc, FILES)?;
    sources.copy(alloc)
}

#[test]
fn files(rt: HostRuntime) -> Result<(), Fail> {
    let copy = copied(rt.alloc())?;
    assert!(rt; file_of(&copy, FIRST) == Some(("c", "new")));
    assert!(rt; file_of(&copy, FileId::NONE).is_none());
    Ok(())
}

fn check_span(rt: &impl Abort, sources: &SourceMap, span: SourceSpan) {
    assert!(rt; span.file_id() == SECOND && span.offset() == 2 && span.end_offset() == 5);
    assert!(rt; span.node_len() == 3 && span.line_column(sources) == at(2, 1));
    let start = LineColumn { line: 2, column: 1 };
    let end = LineColumn { line: 2, column: 4 };
    assert!(rt; span.line_column_range(sources) == Some(start..end));
}

#[test]
fn spans(rt: HostRuntime) -> Result<(), Fail> {
    let sources = sources_of(rt.alloc(), &[(SECOND, "b", "x\ny z")])?;
    check_span(&rt, &sources, SourceSpan::new(SECOND, 2, 5));
    let nowhere = SourceSpan::new(FileId::NONE, 0, 0);
    assert!(rt; nowhere.line_column(&sources).is_none());
    Ok(())
}

/// A file's number, and where a span of it starts and ends.
type Place = (u64, usize, usize);

/// Two spans or less, and what they are recomposed to.
const RECOMPOSED: &[(Option<Place>, Option<Place>, Option<Place>)] = &[
    (None, None, None),
    (Some((3, 5, 9)), None, Some((3, 5, 9))),
    (None, Some((3, 0, 2)), Some((3, 0, 2))),
    (Some((3, 5, 9)), Some((3, 0, 2)), Some((3, 0, 2))),
    (Some((3, 0, 2)), Some((3, 5, 9)), Some((3, 0, 9))),
    (Some((3, 5, 9)), Some((3, 0, 5)), Some((3, 5, 5))),
    (Some((4, 0, 2)), Some((3, 5, 9)), Some((3, 5, 9))),
];

fn span_at(place: Option<Place>) -> Option<SourceSpan> {
    let (number, offset, end_offset) = place?;
    if offset > end_offset {
        return None;
    }
    Some(SourceSpan::new(FileId { number }, offset, end_offset))
}

#[test]
fn recomposed_spans(rt: HostRuntime) {
    for (start, end, joined) in RECOMPOSED {
        let found = SourceSpan::recompose(span_at(*start), span_at(*end));
        assert_eq!(rt; found, span_at(*joined));
    }
}
