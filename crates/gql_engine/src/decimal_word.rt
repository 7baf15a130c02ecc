//! Numbers among the words of a program.

ghost use Rattle.std.specs.Prelude.{◌≡◌, ℕ, true, Some, MatchOption};
ghost use Rattle.std.specs.Fmt.{decimal};
ghost use Rattle.gql_engine.specs.DecimalWord.{IsDecimalWord, IsNoDecimalWord};

use itoa::Buffer;

/// The number that a word is in decimal, from 0 to 4294967295 and without a leading zero; none where it is no such number.
#[must_use]
pub fn decimal_word(word: &str) -> Option<u32>
    ensures is { MatchOption result (IsNoDecimalWord word.now) (IsDecimalWord word.now) }
    ensures only { (n : ℕ) → IsDecimalWord word.now n → result ≡ Some n }
{
    match word.parse::<u32>() {
        Ok(number) if is_decimal(number, word) => Some(number),
        _ => None,
    }
}

/// Whether a word is the number in decimal.
fn is_decimal(number: u32, word: &str) -> bool
    ensures is { result ≡ true → word.now ≡ decimal number }
    ensures found { word.now ≡ decimal number → result ≡ true }
{
    let mut buffer = Buffer::new();
    buffer.format(number) == word
}
