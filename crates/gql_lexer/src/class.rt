//! The classes of bytes.

ghost use Rattle.std.specs.Prelude.{◌≡◌};
ghost use Rattle.gql_lexer.specs.Class as spec;

/// What a token that begins with a byte can be.
#[derive(Clone, Copy, PartialEq, Eq)]
pub(crate) enum ByteClass {
    Name,
    Number,
    Blank,
    Punctuator,
    Dot,
    Quote,
    Comment,
    Comma,
    /// The first byte of a byte order mark, and of other characters.
    Mark,
    Other,
}

/// Whether each byte goes on with a name: a letter, a digit or `_`. A look-up takes less time than six comparisons.
#[rattlefmt::skip]
const NAME_GOES_ON: [bool; 256] = [
    false, false, false, false, false, false, false, false, false, false, false, false, false, false, false, false,
    false, false, false, false, false, false, false, false, false, false, false, false, false, false, false, false,
    false, false, false, false, false, false, false, false, false, false, false, false, false, false, false, false,
    true, true, true, true, true, true, true, true, true, true, false, false, false, false, false, false,
    false, true, true, true, true, true, true, true, true, true, true, true, true, true, true, true,
    true, true, true, true, true, true, true, true, true, true, true, false, false, false, false, true,
    false, true, true, true, true, true, true, true, true, true, true, true, true, true, true, true,
    true, true, true, true, true, true, true, true, true, true, true, false, false, false, false, false,
    false, false, false, false, false, false, false, false, false, false, false, false, false, false, false, false,
    false, false, false, false, false, false, false, false, false, false, false, false, false, false, false, false,
    false, false, false, false, false, false, false, false, false, false, false, false, false, false, false, false,
    false, false, false, false, false, false, false, false, false, false, false, false, false, false, false, false,
    false, false, false, false, false, false, false, false, false, false, false, false, false, false, false, false,
    false, false, false, false, false, false, false, false, false, false, false, false, false, false, false, false,
    false, false, false, false, false, false, false, false, false, false, false, false, false, false, false, false,
    false, false, false, false, false, false, false, false, false, false, false, false, false, false, false, false,
];

pub(crate) fn class_of(b: u8) -> ByteClass
    ensures { result ≡ spec.class_of b }
{
    match b {
        b'_' | b'A'..=b'Z' | b'a'..=b'z' => ByteClass::Name,
        b'-' | b'0'..=b'9' => ByteClass::Number,
        b'\t' | b'\n' | b'\r' | b' ' => ByteClass::Blank,
        b'!' | b'$' | b'&' | b'(' | b')' | b':' | b'=' | b'@' | b'[' | b']' | b'{' | b'|' | b'}' =>
            ByteClass::Punctuator,
        b'.' => ByteClass::Dot,
        b'"' => ByteClass::Quote,
        b'#' => ByteClass::Comment,
        b',' => ByteClass::Comma,
        0xEF => ByteClass::Mark,
        _ => ByteClass::Other,
    }
}

pub(crate) fn is_digit(b: u8) -> bool
    ensures { result ≡ spec.is_digit b }
{
    b.is_ascii_digit()
}

pub(crate) fn is_name_start(b: u8) -> bool
    ensures { result ≡ spec.is_name_start b }
{
    matches!(b, b'_' | b'A'..=b'Z' | b'a'..=b'z')
}

pub(crate) fn is_name_continue(b: u8) -> bool
    ensures { result ≡ spec.is_name_continue b }
{
    NAME_GOES_ON[usize::from(b)]
}

pub(crate) fn is_blank(b: u8) -> bool
    ensures { result ≡ spec.is_blank b }
{
    matches!(b, b'\t' | b'\n' | b'\r' | b' ')
}

pub(crate) fn is_source(b: u8) -> bool
    ensures { result ≡ spec.is_source b }
{
    b >= b' ' || matches!(b, b'\t' | b'\n' | b'\r')
}

pub(crate) fn is_line(b: u8) -> bool
    ensures { result ≡ spec.is_line b }
{
    b >= b' ' || b == b'\t'
}

pub(crate) fn is_plain(b: u8) -> bool
    ensures { result ≡ spec.is_plain b }
{
    is_line(b) && b != b'"' && b != b'\\'
}

/// Whether a byte stands for itself in a block string, whatever follows.
pub(crate) fn is_block_plain(b: u8) -> bool
    ensures { result ≡ spec.is_block_plain b }
{
    is_source(b) && b != b'"' && b != b'\\'
}

pub(crate) fn is_continuation(b: u8) -> bool
    ensures { result ≡ spec.is_continuation b }
{
    matches!(b, 0x80..=0xBF)
}

/// Whether a byte is white space within a line: a space or a tab.
pub(crate) fn is_space(b: u8) -> bool
    ensures { result ≡ spec.is_space b }
{
    matches!(b, b' ' | b'\t')
}

/// Whether a byte ends no line.
pub(crate) fn is_within_line(b: u8) -> bool
    ensures { result ≡ spec.is_within_line b }
{
    b != b'\n' && b != b'\r'
}
