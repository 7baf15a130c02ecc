//! Spans of source texts.

ghost use Rattle.std.specs.Prelude.{◌≡◌, ◌-◌, ◌≤◌};
ghost use Rattle.std.specs.Option.{option_and_then};
ghost use Rattle.std.specs.Map.{lookup};
ghost use Rattle.gql_source.specs.File.{is_file};
ghost use Rattle.gql_source.specs.Lines as lines;
ghost use Rattle.gql_source.specs.Span as spec;

use crate::{FileId, LineColumn, SourceMap};
use std::marker::Model;
use std::ops::Range;

/// A part of a file's text, by the offsets of its bytes.
///
/// A contract sees a record with `file_id`, `offset` and `end_offset`.
#[derive(Clone, Copy, Debug, PartialEq, Eq, Hash)]
pub struct SourceSpan {
    file_id: FileId,
    offset: usize,
    end_offset: usize,
}

impl Model for SourceSpan {
    ghost use Rattle.std.specs.Prelude.{◌≤◌};
    ghost use Rattle.gql_source.specs.Span.{Span};

    ghost Value = { Span };

    ghost view = { λ span. record { file_id = span.file_id; offset = span.offset; end_offset = span.end_offset } };

    ghost invariant = { λ span. span.offset ≤ span.end_offset };

    ghost inverse = { λ span. record { file_id = span.file_id; offset = span.offset; end_offset = span.end_offset } };
}

impl SourceSpan {
    /// The bytes from `offset` on and before `end_offset`, in the file's text.
    #[must_use]
    pub fn new(file_id: FileId, offset: usize, end_offset: usize) -> SourceSpan
        requires { offset ≤ end_offset }
        ensures { result ≡ record { file_id = file_id; offset = offset; end_offset = end_offset } }
    {
        SourceSpan {
            file_id,
            offset,
            end_offset,
        }
    }

    /// The span that begins where `start_of` does and ends where `end_of` does. Where one of them is
    /// absent it is the other, and where they do not lie in one file and in this order it is `end_of`.
    #[must_use]
    pub fn recompose(start_of: Option<SourceSpan>, end_of: Option<SourceSpan>) -> Option<SourceSpan>
        ensures { result ≡ spec.recompose start_of end_of }
    {
        match (start_of, end_of) {
            (None, None) => None,
            (Some(only), None) | (None, Some(only)) => Some(only),
            (Some(start), Some(end)) => Some(start.joined(end)),
        }
    }

    /// From this span's start to the other's end, or the other where that is no span.
    fn joined(self, end: SourceSpan) -> SourceSpan
        ensures { result ≡ spec.joined self end }
    {
        if self.file_id == end.file_id && self.offset <= end.end_offset {
            SourceSpan::new(self.file_id, self.offset, end.end_offset)
        } else {
            end
        }
    }

    /// The file that the span lies in.
    #[must_use]
    pub fn file_id(&self) -> FileId
        ensures { result ≡ self.now.file_id }
    {
        self.file_id
    }

    /// Where the span starts.
    #[must_use]
    pub fn offset(&self) -> usize
        ensures value { result ≡ self.now.offset }
        ensures ordered { result ≤ self.now.end_offset }
    {
        self.offset
    }

    /// Where the span ends: the offset of the first byte behind it.
    #[must_use]
    pub fn end_offset(&self) -> usize
        ensures value { result ≡ self.now.end_offset }
        ensures ordered { self.now.offset ≤ result }
    {
        self.end_offset
    }

    /// The number of its bytes.
    #[must_use]
    pub fn node_len(&self) -> usize
        ensures { result ≡ self.now.end_offset - self.now.offset }
    {
        self.end_offset - self.offset
    }

    /// The line and the column of the span's start. `None` where `sources` lacks its file, or the start
    /// passes the length of the file's text.
    #[must_use]
    pub fn line_column(&self, sources: &SourceMap) -> Option<LineColumn>
        ensures { result ≡ option_and_then (λ file. lines.line_column_within file.source_text self.now.offset) (lookup (is_file self.now.file_id) sources.now) }
    {
        sources.get(self.file_id)?.get_line_column(self.offset)
    }

    /// The lines and the columns of both ends of the span. `None` where `sources` lacks its file, or either
    /// passes the length of the file's text.
    #[must_use]
    pub fn line_column_range(&self, sources: &SourceMap) -> Option<Range<LineColumn>>
        ensures { result ≡ option_and_then (λ file. lines.line_column_range_within file.source_text self.now.offset self.now.end_offset) (lookup (is_file self.now.file_id) sources.now) }
    {
        sources
            .get(self.file_id)?
            .get_line_column_range(self.offset..self.end_offset)
    }
}
