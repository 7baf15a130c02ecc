//! The pairs of a map, each taken by value.
ghost use Rattle.std.specs.Prelude.{◌≡◌};

use crate::pairs::Pairs;
use jb_text::{ByteString, IntoIter};

impl<V: Drop> IntoIterator for Pairs<V> {
    type Item = (ByteString, V);

    type IntoIter = IntoIter<V>;

    ghost into_iter_gives = { λ m r. r ≡ m };

    fn into_iter(self) -> IntoIter<V> {
        let (keys, values) = self.into_columns();
        let alloc = *values.allocator();
        IntoIter::new(keys.into_texts(alloc), values)
    }
}
