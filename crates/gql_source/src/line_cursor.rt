//! Places of a text, one behind the other.

ghost use Rattle.std.specs.Prelude.{◌≡◌, ◌+◌, ◌<◌, ◌≤◌, length};
ghost use Rattle.gql_source.specs.Lines as lines;

use crate::LineColumn;
use crate::characters::begins_character;
use crate::source_file::ends_line;
use std::marker::Model;

/// Finds the lines and columns of offsets in a text, going on from the last one.
///
/// A place that does not lie before the last one costs what lies between the two, so all places of a text, in order,
/// cost the text's length once. A place before the last one is looked for from the text's beginning.
/// A contract sees the bytes of the text.
#[derive(Drop)]
pub struct LineCursor<'t> {
    text: &'t str,
    offset: usize,
    place: LineColumn,
}

impl<'t> Model for LineCursor<'t> {
    ghost use Rattle.std.specs.Prelude.{◌≡◌, ◌≤◌, ℕ, List, length};
    ghost use Rattle.gql_source.specs.Lines as lines;

    ghost Value = { List ℕ };

    ghost view = { λ cursor. cursor.text.now };

    ghost invariant = { λ cursor. (cursor.offset ≤ length cursor.text.now) × (cursor.place ≡ lines.line_column cursor.text.now cursor.offset) };
}

impl<'t> LineCursor<'t> {
    /// A cursor at the beginning of the text.
    #[must_use]
    pub fn new(text: &'t str) -> LineCursor<'t>
        ensures { result ≡ text.now }
    {
        LineCursor {
            text,
            offset: 0,
            place: START,
        }
    }

    /// The line and the column of the character at `offset` bytes from the text's beginning, or of the text's end.
    /// `None` where the offset passes the text's length.
    pub fn get_line_column(&mut self, offset: usize) -> Option<LineColumn>
        ensures place { result ≡ lines.line_column_within self.old offset }
        ensures text { self.new ≡ self.old }
    {
        if offset > self.text.len() {
            return None;
        }
        let text = self.text.as_bytes();
        let place = if self.offset <= offset {
            moved(text, self.offset, self.place, offset)
        } else {
            moved(text, 0, START, offset)
        };
        self.offset = offset;
        self.place = place;
        Some(place)
    }
}

/// Where each text begins.
const START: LineColumn = LineColumn { line: 1, column: 1 };

/// The place at the offset `to`, where `place` is that at the offset `from`, which lies not behind it.
fn moved(text: &[u8], from: usize, place: LineColumn, to: usize) -> LineColumn
    requires ordered { from ≤ to }
    requires within { to ≤ length text.now }
    requires place { place ≡ lines.line_column text.now from }
    ensures { result ≡ lines.line_column text.now to }
{
    let mut reached = place;
    for at in from..to {
        reached = place_after(text, at, reached);
    }
    reached
}

/// The place behind the byte at `at`, where `place` is that of the byte.
fn place_after(text: &[u8], at: usize, place: LineColumn) -> LineColumn
    requires within { at < length text.now }
    requires place { place ≡ lines.line_column text.now at }
    ensures { result ≡ lines.line_column text.now (at + 1) }
{
    if ends_line(text, at) {
        LineColumn {
            line: place.line + 1,
            column: 1,
        }
    } else if begins_character(text[at]) {
        LineColumn {
            line: place.line,
            column: place.column + 1,
        }
    } else {
        place
    }
}
