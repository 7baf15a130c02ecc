//! Why bytes are no response.

use jb_read::ReadFault;
use jb_shape::ShapeError;

/// Why bytes are no response.
#[derive(Clone, Copy, Debug, PartialEq, Eq)]
pub enum ResponseFault {
    /// They are no JSON text.
    Read(ReadFault),
    /// The value that they spell is no response: the first part of it that does not fit.
    Shape(ShapeError),
}
