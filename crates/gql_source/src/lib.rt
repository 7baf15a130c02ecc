//! Source files, spans of their texts, and the lines and columns of places in them.
//!
//! A [`SourceFile`] has a path and a text, and finds the line and the column of an offset by a binary
//! search over the starts of its lines and by characters that it has counted ahead. A [`LineCursor`] finds
//! those of many offsets in order, in time that is linear in the text. A [`SourceMap`] has files by their
//! numbers, which a [`FileIds`] hands out, and a [`SourceSpan`] is a part of one file's text.
//!
//! Offsets count bytes from 0. Lines and columns count from 1, as in section 7.1.2 of GraphQL October
//! 2021, and a line ends at the line terminators of section 2.1.2: LF, CR LF, or CR alone.
#![tactic(auto)]

mod characters;
mod file_id;
mod line_column;
mod line_cursor;
mod source_file;
mod source_map;
mod span;

pub use file_id::{FileId, FileIds};
pub use jb_text::Memory;
pub use line_column::LineColumn;
pub use line_cursor::LineCursor;
pub use source_file::SourceFile;
pub use source_map::SourceMap;
pub use span::SourceSpan;
