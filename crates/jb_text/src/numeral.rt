//! Digits that write whole numbers, and signs before them.

ghost use Rattle.std.specs.Prelude.{◌≡◌};
ghost use Rattle.std.specs.Char.{is_ascii_digit};
ghost use Rattle.std.specs.List.{list_all};
ghost use Rattle.std.specs.Str.Parse.{without_leading_plus, without_leading_sign};
ghost use Rattle.jb_text.specs.Numeral as spec;

/// Whether a text is one digit or more, and nothing else.
#[must_use]
pub fn is_numeral(digits: &[u8]) -> bool
    ensures { result ≡ spec.is_numeral digits.now }
{
    !digits.is_empty() && are_digits(digits)
}

fn are_digits(bytes: &[u8]) -> bool
    ensures { result ≡ list_all is_ascii_digit bytes.now }
{
    bytes.iter().all(|byte| byte.is_ascii_digit())
}

/// The text without a plus at its front.
#[must_use]
pub fn without_plus(text: &[u8]) -> &[u8]
    ensures { result.now ≡ without_leading_plus text.now }
{
    match text {
        [b'+', digits @ ..] => digits,
        _ => text,
    }
}

/// The text without a plus or a minus at its front.
#[must_use]
pub fn without_sign(text: &[u8]) -> &[u8]
    ensures { result.now ≡ without_leading_sign text.now }
{
    match text {
        [b'-', digits @ ..] => digits,
        _ => without_plus(text),
    }
}
