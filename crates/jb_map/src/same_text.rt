//! Comparing short texts without a call.

ghost use Rattle.std.specs.Prelude.{◌≡◌, length};
ghost use Rattle.std.specs.Str.{bytes_eq};

/// Up to this many bytes texts are compared on the spot.
const MOST_ON_THE_SPOT: usize = 16;

/// Whether the texts are the same. The bytes of short ones, as names and keys are, are gone through on the spot,
/// which costs less than the call of `==`.
#[inline(always)]
pub(crate) fn is_same_text(left: &str, right: &str) -> bool
    ensures { result ≡ bytes_eq left.now right.now }
{
    if left.len() != right.len() {
        return false;
    }
    if left.len() > MOST_ON_THE_SPOT {
        return left == right;
    }
    are_same(left.as_bytes(), right.as_bytes())
}

/// Whether all bytes are the same.
#[inline(always)]
fn are_same(left: &[u8], right: &[u8]) -> bool
    requires { length left.now ≡ length right.now }
    ensures { result ≡ bytes_eq left.now right.now }
{
    for at in 0..left.len() {
        if left[at] != right[at] {
            return false;
        }
    }
    true
}
