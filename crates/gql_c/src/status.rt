//! What a call tells. The first three have the numbers of the program's exit statuses that mean the same.

/// The call did what it says.
pub const ANSWERED: u32 = 0;

/// The text or the request is refused: the reply tells why.
pub const REFUSED: u32 = 1;

/// Memory ran out.
pub const NO_MEMORY: u32 = 3;

/// A handle holds nothing, or another kind of value than the call takes.
pub const WRONG_HANDLE: u32 = 8;

/// Bytes are no UTF-8, or, as data, no JSON text of an object, or tell no answers.
pub const UNREAD: u32 = 9;

/// The cost of an operation is above the limit: the reply says so.
pub const TOO_COSTLY: u32 = 10;

/// A step of a request asks: the reply tells what.
pub const ASKS: u32 = 11;
