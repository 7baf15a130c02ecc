//! Counts.

ghost use Rattle.std.specs.Prelude.{◌≡◌, ◌+◌, IfOk};

use crate::Memory;
use std::alloc::AllocError;

/// The sum. No memory holds as many nodes or tokens as it would take to pass 64 bits.
pub(crate) fn raised(count: usize, by: usize) -> Result<usize, Memory>
    ensures { IfOk result (λ sum. sum ≡ count + by) }
{
    count.checked_add(by).ok_or(AllocError)
}
