//! Cuts of texts at the bounds of characters.

ghost use Rattle.std.specs.Prelude.{◌≡◌, ◌-◌, ◌<◌, ◌≤◌, ℕ, length, drop, take, slice_index, false};
ghost use Rattle.std.specs.List.{prefix_len};
ghost use Rattle.std.specs.Str.{IsUtf8};
ghost use Rattle.gql_lexer.specs.Lex as lex;

use crate::run::{ByteRun, past};

/// The bytes of a run that a text begins with, and the rest. The bytes that end the run are ASCII.
pub(crate) fn split_run(run: ByteRun, s: &str) -> (&str, &str)
    requires { (b : ℕ) → lex.is_in run b ≡ false → b < 128 }
    ensures front { result.0.now ≡ take (prefix_len (lex.is_in run) s.now) s.now }
    ensures rest { result.1.now ≡ drop (prefix_len (lex.is_in run) s.now) s.now }
    ensures text { IsUtf8 result.1.now }
{
    s.split_at(past(run, s.as_bytes(), 0))
}

/// The text behind its first `n` bytes, of which the last is ASCII.
pub(crate) fn skip(s: &str, n: usize) -> &str
    requires some { 0 < n }
    requires within { n ≤ length s.now }
    requires ascii { slice_index s.now (n - 1) < 128 }
    ensures { result.now ≡ drop n s.now }
{
    &s[n..]
}
