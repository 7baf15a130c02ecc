//! A source file, and the lines of its text.

ghost use Rattle.std.specs.Prelude.{◌≡◌, ◌+◌, ◌-◌, ◌/◌, ◌<◌, ◌≤◌, IfOk, length, slice_index, Some, None, Option};
ghost use Rattle.gql_source.specs.bridge.Characters.{counts_at_marks as counts_at_marks_of, step};
ghost use Rattle.gql_source.specs.Lines as lines;

use crate::LineColumn;
use crate::characters::{characters_before, counts_at_marks};
use jb_text::{ByteString, Memory};
use memchr::memchr2_iter;
use std::alloc::{AllocError, Global};
use std::fmt::{self, Debug, Formatter, Write};
use std::marker::Model;
use std::ops::Range;
use std::sync::Arc;

/// A source file: a path and a text.
///
/// A contract sees a record of their bytes, `path` and `source_text`. The starts of the lines are kept, and how many
/// characters come before each of a row of marks, so looking up a place takes time in the logarithm of the number of
/// lines alone, however long they are. Copies share what they hold.
pub struct SourceFile {
    shared: Arc<Contents>,
}

impl Drop for SourceFile {
    fn drop(self) {
        let SourceFile { shared: _ } = self;
    }
}

/// What the copies of a file share.
struct Contents {
    path: String,
    source_text: ByteString,
    line_starts: Vec<usize>,
    counts: Vec<usize>,
}

impl Drop for Contents {
    fn drop(self) {
        let Contents {
            path: _,
            source_text: _,
            line_starts: _,
            counts: _,
        } = self;
    }
}

impl Model for SourceFile {
    ghost use Rattle.std.specs.Prelude.{◌≡◌, ◌/◌, length, string_bytes};
    ghost use Rattle.gql_source.specs.bridge.Characters.{counts_at_marks, step};
    ghost use Rattle.gql_source.specs.File.{File};
    ghost use Rattle.gql_source.specs.Lines as lines;

    ghost Value = { File };

    ghost view = { λ file. record { path = string_bytes file.shared.value.path; source_text = file.shared.value.source_text } };

    ghost invariant = { λ file. (file.shared.value.line_starts.items ≡ lines.line_starts file.shared.value.source_text (length file.shared.value.source_text))
        × (file.shared.value.counts.items ≡ counts_at_marks file.shared.value.source_text (length file.shared.value.source_text / step)) };
}

impl Debug for SourceFile {
    fn fmt<W: Write>(&self, formatter: &mut Formatter<W>) -> fmt::Result {
        formatter
            .debug_struct("SourceFile")
            .field("path", &self.path())
            .field("source_text", &self.source_text())
            .finish()
    }
}

impl SourceFile {
    /// A file with this path and a copy of this text.
    pub fn new(alloc: Global, path: &str, source_text: &str) -> Result<SourceFile, Memory>
        ensures { IfOk result (λ file. file ≡ record { path = path.now; source_text = source_text.now }) }
    {
        SourceFile::sharing(alloc, path, ByteString::from_text(alloc, source_text)?)
    }

    /// A file with this path and this text, which is shared and not copied.
    pub fn sharing(alloc: Global, path: &str, source_text: ByteString) -> Result<SourceFile, Memory>
        ensures { IfOk result (λ file. file ≡ record { path = path.now; source_text = source_text }) }
    {
        let bytes = source_text.as_str().as_bytes();
        let contents = Contents {
            path: String::from_str(alloc, path)?,
            line_starts: line_starts(alloc, bytes)?,
            counts: counts_at_marks(alloc, bytes)?,
            source_text,
        };
        match Arc::new(alloc, contents) {
            Ok(shared) => Ok(SourceFile { shared }),
            Err(_) => Err(AllocError),
        }
    }

    /// The file's path.
    #[must_use]
    pub fn path(&self) -> &str
        ensures { result.now ≡ self.now.path }
    {
        self.shared.path.as_str()
    }

    /// The file's text.
    #[must_use]
    pub fn source_text(&self) -> &str
        ensures { result.now ≡ self.now.source_text }
    {
        self.shared.source_text.as_str()
    }

    /// The file's text, to be shared.
    #[must_use]
    pub fn shared_text(&self) -> &ByteString
        ensures { result.now ≡ self.now.source_text }
    {
        &self.shared.as_ref().source_text
    }

    /// The line and the column of the character at `offset` bytes from the text's beginning, or of the
    /// text's end. `None` where the offset passes the text's length.
    #[must_use]
    pub fn get_line_column(&self, offset: usize) -> Option<LineColumn>
        ensures { result ≡ lines.line_column_within self.now.source_text offset }
    {
        let contents = self.shared.as_ref();
        let bytes = contents.source_text.as_str().as_bytes();
        if offset > bytes.len() {
            return None;
        }
        Some(line_column(
            bytes,
            contents.line_starts.as_slice(),
            contents.counts.as_slice(),
            offset,
        ))
    }

    /// The lines and columns of both ends of the range. `None` where either passes the text's length.
    #[must_use]
    pub fn get_line_column_range(&self, range: Range<usize>) -> Option<Range<LineColumn>>
        ensures { result ≡ lines.line_column_range_within self.now.source_text range.start range.end }
    {
        let start = self.get_line_column(range.start)?;
        let end = self.get_line_column(range.end)?;
        Some(start..end)
    }

    /// A copy of the file, which shares its text. `Err` only where there are too many copies.
    pub fn copy(&self, _alloc: Global) -> Result<SourceFile, Memory>
        ensures { IfOk result (λ file. file ≡ self.now) }
    {
        Ok(SourceFile {
            shared: self.shared.clone()?,
        })
    }
}

/// Whether the line ends with the byte at `at`.
pub(crate) fn ends_line(text: &[u8], at: usize) -> bool
    requires { at < length text.now }
    ensures { result ≡ lines.ends_line text.now at }
{
    match text[at] {
        b'\n' => true,
        b'\r' => at + 1 == text.len() || text[at + 1] != b'\n',
        _ => false,
    }
}

/// The starts of all lines of a text.
#[tactic(auto, unfolding(crate::specs::Lines::line_starts))]
fn line_starts(alloc: Global, text: &[u8]) -> Result<Vec<usize>, Memory>
    ensures { IfOk result (λ starts. starts.items ≡ lines.line_starts text.now (length text.now)) }
{
    let mut starts = vec![in alloc; 0]?;
    for at in memchr2_iter(b'\n', b'\r', text) {
        if ends_line(text, at) {
            starts.push(at + 1)?;
        }
    }
    Ok(starts)
}

/// The number of the line that the offset lies in, from the starts of the text's lines.
fn line_of(text: &[u8], starts: &[usize], offset: usize) -> usize
    requires starts { starts.now ≡ lines.line_starts text.now (length text.now) }
    requires within { offset ≤ length text.now }
    ensures value { result ≡ length (lines.line_starts text.now offset) }
    ensures within { (0 < result) × (result ≤ length starts.now) }
    ensures start { slice_index starts.now (result - 1) ≡ lines.line_start text.now offset }
    ensures ordered { lines.line_start text.now offset ≤ offset }
{
    starts.partition_point(|start| *start <= offset)
}

/// The line and the column of a place in a text, from the starts of the text's lines and the counts at its marks.
#[tactic(auto, unfolding(crate::specs::Lines::line_column))]
fn line_column(text: &[u8], starts: &[usize], counts: &[usize], offset: usize) -> LineColumn
    requires starts { starts.now ≡ lines.line_starts text.now (length text.now) }
    requires counts { counts.now ≡ counts_at_marks_of text.now (length text.now / step) }
    requires within { offset ≤ length text.now }
    ensures { result ≡ lines.line_column text.now offset }
{
    let line = line_of(text, starts, offset);
    let start = starts[line - 1];
    let before = characters_before(text, counts, start);
    let column = characters_before(text, counts, offset) - before + 1;
    LineColumn { line, column }
}
