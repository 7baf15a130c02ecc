//! Whole numbers read from their decimal digits.
ghost use Rattle.std.specs.Prelude.{◌≡◌, ◌^◌, ◌<◌, ◌≤◌, ◌≤ℤ◌, pos, negsuc, IfOk};
ghost use Rattle.jb_shape.specs.Keys.{unsigned_key, signed_key};

use crate::shape_error::ShapeError;
use jb_text::{is_numeral, without_plus, without_sign};

/// The number from zero to `most` that digits write, behind a plus or alone.
pub(crate) fn unsigned_key(key: &str, most: u64) -> Result<u64, ShapeError>
    ensures number { result ≡ unsigned_key most key.now }
    ensures within { IfOk result (λ n. n ≤ most) }
{
    if !is_numeral(without_plus(key.as_bytes())) {
        return Err(ShapeError::WrongKind);
    }
    match key.parse::<u64>() {
        Ok(value) if value <= most => Ok(value),
        _ => Err(ShapeError::NumberTooLarge),
    }
}

/// The number from -`most` - 1 to `most` that digits write, behind a sign or alone.
pub(crate) fn signed_key(key: &str, most: u64) -> Result<i64, ShapeError>
    requires { most < 2 ^ 63 }
    ensures number { result ≡ signed_key most key.now }
    ensures low { IfOk result (λ z. negsuc most ≤ℤ z) }
    ensures high { IfOk result (λ z. z ≤ℤ pos most) }
{
    if !is_numeral(without_sign(key.as_bytes())) {
        return Err(ShapeError::WrongKind);
    }
    let greatest = most as i64;
    match key.parse::<i64>() {
        Ok(value) if -1 - greatest <= value && value <= greatest => Ok(value),
        _ => Err(ShapeError::NumberTooLarge),
    }
}
