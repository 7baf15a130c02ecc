//! What is said of a response.

use gql_response::{ResponseDataPathSegment, ResponseFault};
use jb_text::Listed;

/// What is said of bytes that are said to be a response to a request: the first of the four that applies.
#[derive(Drop)]
pub enum Verdict {
    /// They are a response whose errors are true, and whose data are as they were resolved, or null where an error brings it.
    Explained,
    /// They are no response.
    NotResponse(ResponseFault),
    /// The first error that is no true fault, by its place in the list, from 0: no place on its path has that fault.
    FalseError {
        index: usize,
    },
    /// All errors are true. The path of the first value, depth first in order, that is neither as it was resolved nor a null that a
    /// listed error brings; the empty path where the data themselves are so.
    BadValue {
        path: Listed<ResponseDataPathSegment>,
    },
}
