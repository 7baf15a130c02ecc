//! JSON values over shared buffers: texts, lists, whole numbers, ordered maps and the tree of them.
//!
//! A contract sees each type as the mathematical value that it stands for: a [`Text`] and a [`ByteString`] as
//! their bytes, a [`Listed`] as a list, a [`Number`] as a whole number, a [`Map`] as the list of its pairs.
//! So a [`Value`], as contracts see it, is the JSON tree itself (RFC 8259, section 3).
#![tactic(auto)]

mod compare;
mod convert;
mod identical;
mod index;
mod kinds;
pub mod laws;
mod parts;
mod pointer;
mod pointer_put;
mod sort;
mod value;

pub use index::{Index, IndexError};
pub use jb_map::{
    Entry, IntoIter, Iter, IterMut, Keys, OccupiedEntry, Pairs, TryClone, VacantEntry, Values,
    ValuesMut,
};
pub use jb_text::{ByteString, Listed, ListedIter, Memory, Number, Refused, SliceFault, Text};
pub use value::{Map, Value};
