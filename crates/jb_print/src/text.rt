//! A text as a JSON string.

ghost use Rattle.std.specs.Prelude.{◌≡◌, ◌++◌, ◌<◌, false, OnOk, string_bytes};
ghost use Rattle.std.specs.Char.{digit_char};
ghost use Rattle.std.specs.List.{prefix_len, flat_map};
ghost use Rattle.std.specs.Option.{option_copied};
ghost use Rattle.jb_print.specs.Quoted.{short_escape, escaped, quoted};
ghost use Rattle.jb_text.specs.Plain.{is_plain};

use jb_text::plain_length;
use jb_tree::Memory;

/// Appends the text in quotes, with its escapes.
#[inline(always)]
pub(crate) fn write_text(out: &mut String, text: &str) -> Result<(), Memory>
    ensures { OnOk result (string_bytes out.new ≡ string_bytes out.old ++ quoted text.now) }
{
    out.push('"')?;
    write_escaped(out, text)?;
    out.push('"')
}

// Each run of bytes that need no escape is copied in one piece.
#[inline(always)]
fn write_escaped(out: &mut String, text: &str) -> Result<(), Memory>
    ensures { OnOk result (string_bytes out.new
        ≡ string_bytes out.old ++ flat_map escaped text.now) }
{
    let mut rest = text;
    loop {
        let stop = plain_len(rest);
        out.push_str(&rest[..stop])?;
        if stop == rest.len() {
            return Ok(());
        }
        write_escape(out, rest.as_bytes()[stop])?;
        rest = &rest[stop + 1..];
    }
}

// How many bytes stand before the first one that needs an escape.
fn plain_len(text: &str) -> usize
    ensures { result ≡ prefix_len is_plain text.now }
{
    plain_length(text.as_bytes())
}

fn write_escape(out: &mut String, byte: u8) -> Result<(), Memory>
    requires { is_plain byte ≡ false }
    ensures { OnOk result (string_bytes out.new ≡ string_bytes out.old ++ escaped byte) }
{
    match short_escape(byte) {
        Some(escape) => out.push_str(escape),
        None => {
            out.push_str("\\u00")?;
            out.push(hex_digit(byte / 16))?;
            out.push(hex_digit(byte % 16))
        }
    }
}

fn short_escape(byte: u8) -> Option<&'static str>
    ensures { option_copied result ≡ short_escape byte }
{
    match byte {
        b'"' => Some("\\\""),
        b'\\' => Some("\\\\"),
        0x08 => Some("\\b"),
        0x0c => Some("\\f"),
        b'\n' => Some("\\n"),
        b'\r' => Some("\\r"),
        b'\t' => Some("\\t"),
        _ => None,
    }
}

fn hex_digit(digit: u8) -> char
    requires { digit < 16 }
    ensures { result ≡ digit_char digit }
{
    if digit < 10 {
        char::from(b'0' + digit)
    } else {
        char::from(b'a' + (digit - 10))
    }
}
