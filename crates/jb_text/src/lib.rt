//! Texts, lists, whole numbers and slices of a shared buffer: the parts that JSON values are made of; and the walks of a map.
//!
//! A contract sees each type as the mathematical value that it stands for: a [`Text`] and a [`ByteString`] as
//! their bytes, a [`Listed`] as a list, a [`Number`] as a whole number.
//!
//! Reading and printing both look for the first byte that does not stand for itself in a JSON string (RFC 8259, section 7):
//! [`plain_length`] tells how many do at the front. A key of a map that stands for a number, and a number of a query, are digits
//! behind a sign or alone: [`is_numeral`] tells.
//!
//! A walk gives the keys of a map, its values or its pairs, each once, from either end. A map holds its keys in one list and its
//! values in another, and a walk goes along both. Contracts see a walk as the list of what it has left. Once a walk has ended it
//! may be asked on, at either end, and goes on to give `None`: [`laws`] has that of all six.
#![tactic(auto)]

mod byte_string;
mod iter;
mod iter_mut;
pub mod laws;
mod listed;
mod number;
mod numeral;
mod parts;
mod plain;
mod refused;
mod text;

pub use byte_string::{ByteString, SliceFault};
pub use iter::{IntoIter, Iter};
pub use iter_mut::{IterMut, ValuesMut};
pub use listed::{Listed, ListedIter};
pub use number::Number;
pub use numeral::{is_numeral, without_plus, without_sign};
pub use parts::{Keys, Values};
pub use plain::plain_length;
pub use refused::{Memory, Refused};
pub use text::Text;
