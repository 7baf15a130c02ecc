//! The words that tokens are.

ghost use Rattle.std.specs.Prelude.{◌≡◌, ◌<◌, length};
ghost use Rattle.gql_cst.specs.Words as spec;

use gql_grammar::Word;

/// A number with a fraction or an exponent is a FloatValue, and any other an IntValue.
fn number_word(number: &str) -> Word
    ensures { result ≡ spec.number_word number.now }
{
    let bytes = number.as_bytes();
    if bytes.contains(&b'.') || bytes.contains(&b'e') || bytes.contains(&b'E') {
        Word::FloatLiteral
    } else {
        Word::IntLiteral
    }
}

/// The word of a token that is not ignored.
#[inline(always)]
pub(crate) fn word_of(token: &str) -> Word
    requires { 0 < length token.now }
    ensures { result ≡ spec.word_of token.now }
{
    match token.as_bytes()[0] {
        b'_' | b'A'..=b'Z' | b'a'..=b'z' => Word::of_name(token),
        b'"' => Word::StringLiteral,
        b'-' | b'0'..=b'9' => number_word(token),
        first => Word::of_punctuator(first),
    }
}
