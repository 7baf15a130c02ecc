//! The values of block strings.

ghost use Rattle.std.specs.Prelude.{◌≡◌, ◌-◌, ◌<◌, ◌≤◌, length, slice_index, slice_range, true, [], OnOk, IfOk, string_bytes, unwrap_or};
ghost use Rattle.gql_lexer.specs.BlockString as spec;
ghost use Rattle.gql_lexer.specs.bridge.BlockWriting as writing;
ghost use Rattle.gql_lexer.specs.Lex as lex;

use crate::Memory;
use crate::cut::{skip, split_run};
use crate::line::{next_line, split_line};
use crate::run::{ByteRun, past};
use crate::string::is_block_quote;
use std::alloc::Global;

/// The length of the white space that a line begins with.
fn white_len(line: &[u8]) -> usize
    ensures value { result ≡ spec.white_len line.now }
    ensures within { result ≤ length line.now }
{
    past(ByteRun::Space, line, 0)
}

/// Whether a line is white space alone.
fn is_white_line(line: &str) -> bool
    ensures { result ≡ spec.is_white_line line.now }
{
    white_len(line.as_bytes()) == line.len()
}

/// The white space that a line begins with, if it holds anything else.
fn indent(line: &str) -> Option<usize>
    ensures { result ≡ spec.indent line.now }
{
    if is_white_line(line) {
        None
    } else {
        Some(white_len(line.as_bytes()))
    }
}

fn least(a: Option<usize>, b: Option<usize>) -> Option<usize>
    ensures { result ≡ spec.least a b }
{
    match (a, b) {
        (Some(a), Some(b)) => Some(a.min(b)),
        (a, None) => a,
        (None, b) => b,
    }
}

/// The least indent of the lines behind the first, or 0 where all are white space alone.
fn common_indent(behind: &str) -> usize
    requires { slice_index behind.now 0 < 128 }
    ensures { result ≡ unwrap_or (spec.common_indent (writing.following behind.now)) 0 }
{
    let mut common = None;
    let mut rest = behind;
    'lines: while let Some((line, others)) = next_line(rest) {
        common = least(common, indent(line));
        rest = others;
    }
    common.unwrap_or(0)
}

/// A line without its white space, or without `n` characters of it where it has more.
fn without_indent(line: &str, n: usize) -> &str
    ensures { result.now ≡ writing.without_indent n line.now }
{
    &line[n.min(white_len(line.as_bytes()))..]
}

/// Takes in one line more. Lines of white space alone are kept apart in `white` until another line follows.
fn push_line(text: &mut String, white: &mut String, line: &str) -> Result<(), Memory>
    requires { string_bytes text.old ≡ [] → string_bytes white.old ≡ [] }
    ensures { OnOk result (writing.TakesIn (string_bytes text.old) (string_bytes white.old) line.now (string_bytes text.new) (string_bytes white.new)) }
{
    match (text.as_str().is_empty(), is_white_line(line)) {
        (true, true) => {}
        (true, false) => text.push_str(line)?,
        (false, true) => {
            white.push('\n')?;
            white.push_str(line)?;
        }
        (false, false) => {
            text.push_str(white.as_str())?;
            white.clear();
            text.push('\n')?;
            text.push_str(line)?;
        }
    }
    Ok(())
}

/// The lines of a raw value without their common indent, and without those of white space alone at either end.
fn joined_lines(alloc: Global, raw: &str) -> Result<String, Memory>
    ensures { IfOk result (λ value. string_bytes value ≡ spec.joined (spec.unindented (spec.lines raw.now))) }
{
    let mut text = String::new(alloc);
    let mut white = String::new(alloc);
    let (first, mut behind) = split_line(raw);
    push_line(&mut text, &mut white, first)?;
    let common = common_indent(behind);
    'lines: while let Some((line, rest)) = next_line(behind) {
        push_line(&mut text, &mut white, without_indent(line, common))?;
        behind = rest;
    }
    Ok(text)
}

/// The backslash that a text begins with, unless it escapes three quotes.
fn kept_backslash(at: &[u8]) -> &'static str
    requires { slice_index at.now 0 ≡ 0x5C }
    ensures { result.now ≡ writing.kept_backslash at.now }
{
    if is_block_quote(at, 1) { "" } else { "\\" }
}

/// A text with `"""` in place of each `\"""`.
fn raw_value(alloc: Global, s: &str) -> Result<String, Memory>
    ensures { IfOk result (λ raw. string_bytes raw ≡ spec.raw_value s.now) }
{
    let mut out = String::new(alloc);
    let mut rest = s;
    'pieces: loop {
        let (plain, behind) = split_run(ByteRun::NoBackslash, rest);
        out.push_str(plain)?;
        if behind.is_empty() {
            return Ok(out);
        }
        out.push_str(kept_backslash(behind.as_bytes()))?;
        rest = skip(behind, 1);
    }
}

/// Whether a text has the quotes of a block string: three at either end, apart from each other. Of the tokens that
/// [`Lexer`](crate::Lexer) gives as strings, it tells block strings from those on one line.
#[must_use]
pub fn is_block_string(token: &str) -> bool
    ensures { result ≡ spec.is_block_string token.now }
{
    let bytes = token.as_bytes();
    bytes.len() >= 6 && is_block_quote(bytes, 0) && is_block_quote(bytes, bytes.len() - 3)
}

/// The text between the quotes of a block string.
fn between_quotes(token: &str) -> &str
    requires opens { lex.is_block_quote token.now 0 ≡ true }
    requires closes { lex.is_block_quote token.now (length token.now - 3) ≡ true }
    requires apart { 6 ≤ length token.now }
    ensures { result.now ≡ slice_range token.now 3 (length token.now - 3) }
{
    &token[3..token.len() - 3]
}

/// The value of a block string, which is given with its quotes: [`is_block_string`] holds of the text.
///
/// Section 2.9.4 of GraphQL October 2021: each `\"""` stands for `"""`. Then the least indent of all lines but
/// the first that are not white space alone is taken off each line but the first, lines of white space alone
/// are dropped at either end, and the others are joined by LF.
pub fn block_string_value(alloc: Global, token: &str) -> Result<String, Memory>
    requires { spec.is_block_string token.now ≡ true }
    ensures { IfOk result (λ value. string_bytes value ≡ spec.block_string_value token.now) }
{
    let text = between_quotes(token);
    if past(ByteRun::NoBackslash, text.as_bytes(), 0) == text.len() {
        // No escape stands in the text, so it is the raw value.
        return joined_lines(alloc, text);
    }
    let raw = raw_value(alloc, text)?;
    joined_lines(alloc, raw.as_str())
}
