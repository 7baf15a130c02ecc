//! Runs of bytes and of items.

ghost use Rattle.std.specs.Prelude.{◌≡◌, ◌+◌, ◌<◌, ◌≤◌, length, drop, slice_index};
ghost use Rattle.gql_lexer.specs.Lex as spec;
ghost use Rattle.gql_lexer.specs.bridge.Lex as spec_bridge;

use crate::class::{
    is_blank, is_block_plain, is_continuation, is_digit, is_line, is_name_continue, is_plain,
    is_source, is_space, is_within_line,
};
use crate::string::{block_len, string_len};

/// The runs whose bytes are told one by one.
#[derive(Clone, Copy)]
pub(crate) enum ByteRun {
    Name,
    Digit,
    Line,
    Plain,
    BlockPlain,
    Continuation,
    Space,
    WithinLine,
    NoBackslash,
    Blank,
}

/// The runs of items of several lengths.
#[derive(Clone, Copy)]
pub(crate) enum ItemRun {
    Blank,
    String,
    Block,
}

/// The byte at a place, or 0 past the end.
#[inline(always)]
pub(crate) fn byte(at: &[u8], place: usize) -> u8
    ensures value { result ≡ slice_index at.now place }
{
    if place < at.len() { at[place] } else { 0 }
}

#[inline(always)]
fn is_in(run: ByteRun, b: u8) -> bool
    ensures { result ≡ spec.is_in run b }
{
    match run {
        ByteRun::Name => is_name_continue(b),
        ByteRun::Digit => is_digit(b),
        ByteRun::Line => is_line(b),
        ByteRun::Plain => is_plain(b),
        ByteRun::BlockPlain => is_block_plain(b),
        ByteRun::Continuation => is_continuation(b),
        ByteRun::Space => is_space(b),
        ByteRun::WithinLine => is_within_line(b),
        ByteRun::NoBackslash => b != b'\\',
        ByteRun::Blank => is_blank(b),
    }
}

/// The first place from `from` on whose byte is not of the run.
#[inline(always)]
pub(crate) fn past(run: ByteRun, at: &[u8], from: usize) -> usize
    requires { from ≤ length at.now }
    ensures value { result ≡ spec.past run at.now from }
    ensures within { (from ≤ result) × (result ≤ length at.now) }
{
    let mut end = from;
    while end < at.len() && is_in(run, at[end]) {
        end += 1;
    }
    end
}

/// The length of the character of white space or byte order mark that the text begins with, or 0.
#[inline(always)]
#[tactic(auto, unfolding(crate::specs::Lex::blank_len))]
fn blank_len(at: &[u8]) -> usize
    ensures value { result ≡ spec.blank_len at.now }
    ensures within { result ≤ length at.now }
{
    if is_blank(byte(at, 0)) {
        1
    } else if is_mark(at) {
        3
    } else {
        0
    }
}

/// Whether the text begins with a byte order mark.
pub(crate) fn is_mark(at: &[u8]) -> bool
    ensures { result ≡ spec.is_mark at.now }
{
    byte(at, 0) == 0xEF && byte(at, 1) == 0xBB && byte(at, 2) == 0xBF
}

#[inline(always)]
fn item_len(run: ItemRun, at: &[u8]) -> usize
    ensures value { result ≡ spec_bridge.item_len run at.now }
    ensures within { result ≤ length at.now }
{
    match run {
        ItemRun::Blank => blank_len(at),
        ItemRun::String => string_len(at),
        ItemRun::Block => block_len(at),
    }
}

/// The first place from `from` on at which no item of the run begins.
#[inline(always)]
pub(crate) fn past_items(run: ItemRun, at: &[u8], from: usize) -> usize
    requires { from ≤ length at.now }
    ensures value { result ≡ from + spec.run_len (spec_bridge.item_len run) (drop from at.now) }
    ensures within { (from ≤ result) × (result ≤ length at.now) }
{
    let mut end = from;
    loop {
        let len = item_len(run, &at[end..]);
        if len == 0 {
            return end;
        }
        end += len;
    }
}
