//! Things made side by side: all of them, or out of memory where one of them is.
//!
//! A function that asks for the parts of a tree together has one way out when out of memory, in place of one for each
//! part. Each way out lets go of what was made before it, and each is proved.

ghost use Rattle.std.specs.Prelude.{◌≡◌, IfOk, Ok};

use jb_text::Memory;

/// Both of them. `Err` only when out of memory.
pub fn both<A: Drop, B: Drop>(
    one: Result<A, Memory>,
    two: Result<B, Memory>,
) -> Result<(A, B), Memory>
    ensures one { IfOk result (λ made. one ≡ Ok made.0) }
    ensures two { IfOk result (λ made. two ≡ Ok made.1) }
{
    Ok((one?, two?))
}

/// All three of them. `Err` only when out of memory.
pub fn all_three<A: Drop, B: Drop, C: Drop>(
    one: Result<A, Memory>,
    two: Result<B, Memory>,
    three: Result<C, Memory>,
) -> Result<(A, B, C), Memory>
    ensures one { IfOk result (λ made. one ≡ Ok made.0) }
    ensures two { IfOk result (λ made. two ≡ Ok made.1) }
    ensures three { IfOk result (λ made. three ≡ Ok made.2) }
{
    Ok((one?, two?, three?))
}

/// All four of them. `Err` only when out of memory.
pub fn all_four<A: Drop, B: Drop, C: Drop, D: Drop>(
    one: Result<A, Memory>,
    two: Result<B, Memory>,
    three: Result<C, Memory>,
    four: Result<D, Memory>,
) -> Result<(A, B, C, D), Memory>
    ensures one { IfOk result (λ made. one ≡ Ok made.0) }
    ensures two { IfOk result (λ made. two ≡ Ok made.1) }
    ensures three { IfOk result (λ made. three ≡ Ok made.2) }
    ensures four { IfOk result (λ made. four ≡ Ok made.3) }
{
    Ok((one?, two?, three?, four?))
}
