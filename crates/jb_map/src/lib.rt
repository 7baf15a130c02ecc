//! Maps from texts to values that keep the order of insertion, which contracts see as the list of their pairs.
//!
//! [`Pairs`] is the map for any value. A JSON object is such a map of JSON values (RFC 8259, section 4). [`KeyTable`] is the
//! table of hashes that it keeps beside many members, for others that look texts up.
#![tactic(auto)]

mod by_key;
mod columns;
mod compared;
mod copy;
mod entry;
mod growth;
mod into_iter;
mod key_column;
mod key_list;
mod key_table;
mod lent;
mod order;
mod pairs;
mod removal;
mod same_text;

pub use copy::TryClone;
pub use entry::{Entry, OccupiedEntry, VacantEntry};
pub use jb_text::{IntoIter, Iter, IterMut, Keys, Memory, Values, ValuesMut};
pub use key_table::KeyTable;
pub use pairs::Pairs;
