//! The lines of a text, which end with LF, CR LF or CR.

ghost use Rattle.std.specs.Prelude.{◌≡◌, ◌<◌, ◌≤◌, length, slice_index, IfSome, IfNone, ◌∷◌, []};
ghost use Rattle.std.specs.Str.{IsUtf8};
ghost use Rattle.gql_lexer.specs.BlockString as spec;
ghost use Rattle.gql_lexer.specs.bridge.BlockWriting as writing;

use crate::cut::{skip, split_run};
use crate::run::{ByteRun, byte};

/// The length of the line end that a text begins with, or 0 for the end of the text.
fn end_len(behind: &[u8]) -> usize
    ensures { result ≡ writing.end_len behind.now }
{
    if behind.is_empty() {
        0
    } else if byte(behind, 0) == b'\r' && byte(behind, 1) == b'\n' {
        2
    } else {
        1
    }
}

/// The first line of a text, and what is behind it: the line's end and the other lines.
pub(crate) fn split_line(s: &str) -> (&str, &str)
    ensures lines { spec.lines s.now ≡ result.0.now ∷ writing.following result.1.now }
    ensures ascii { slice_index result.1.now 0 < 128 }
    ensures fewer { length result.1.now ≤ length s.now }
    ensures text { IsUtf8 result.1.now }
{
    split_run(ByteRun::WithinLine, s)
}

/// The line that comes behind a line, and what is behind it. `None` at the end of the text.
pub(crate) fn next_line(behind: &str) -> Option<(&str, &str)>
    requires { slice_index behind.now 0 < 128 }
    ensures some { IfSome result (λ next. writing.following behind.now ≡ next.0.now ∷ writing.following next.1.now) }
    ensures none { IfNone result (writing.following behind.now ≡ []) }
    ensures ascii { IfSome result (λ next. slice_index next.1.now 0 < 128) }
    ensures fewer { IfSome result (λ next. length next.1.now < length behind.now) }
    ensures text { IfSome result (λ next. IsUtf8 next.1.now) }
{
    let end = end_len(behind.as_bytes());
    if end == 0 {
        return None;
    }
    Some(split_line(skip(behind, end)))
}
