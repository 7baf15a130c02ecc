//! The calls of a map that lend its values to be changed in place.
ghost use Rattle.std.specs.Prelude.{◌≡◌, ◌<◌, Some, length, slice_get};
ghost use Rattle.std.specs.Option.{option_copied_mut};
ghost use Rattle.std.specs.Borrow.{Array, Lends, LendsIf, follows, sem};
ghost use Rattle.std.specs.Str.{bytes_eq};
ghost use Rattle.std.specs.Map.{values_of, lookup, set_value};
ghost use Rattle.indexmap.specs.IndexMap.{set_value_at};
ghost use Rattle.indexmap.specs.Layout.{set_values};
ghost use Rattle.jb_text.specs.WalkMut.{pairs_left, pairs_name, values_left, values_name};
ghost use Rattle.jb_map.specs.contracts.pairs.Pairs.{the_row};

use crate::pairs::Pairs;
use jb_text::{IterMut, ValuesMut};

impl<V> Pairs<V> {
    /// The value at `key`, to be changed in place, `None` exactly where it is not there. What is written there changes that value alone.
    pub fn get_mut(&mut self, key: &str) -> Option<&mut V>
        ensures* writes_back { sem 𝓛 (LendsIf (the_row V.row) V.row self.entry result (set_value (bytes_eq key.now) self.old) self.old) }
        ensures value { option_copied_mut result ≡ lookup (bytes_eq key.now) self.old }
    {
        match self.find(key) {
            Some(at) => Some(self.value_mut_at(at)),
            None => None,
        }
    }

    /// The value of the pair at `index`, which is below the number of pairs, to be changed in place.
    pub fn value_mut_at(&mut self, index: usize) -> &mut V
        requires { index < length self.old }
        ensures* writes_back { sem 𝓛 (Lends (the_row V.row) V.row self.entry result (set_value_at self.old index)) }
        ensures value { slice_get (values_of self.old) index ≡ Some result.now }
    {
        &mut self.values[index]
    }

    /// The pairs in order, the values to be changed in place. The keys stay, and so does their order.
    pub fn iter_mut(&mut self) -> IterMut<'_, V>
        ensures* writes_back { sem 𝓛 (follows (the_row V.row) (Array V.row 0) self.entry.ghost_name (pairs_name result) (set_values self.old)) }
        ensures left { pairs_left result ≡ self.old }
    {
        IterMut::new(self.keys.as_slice(), self.values.as_mut_slice())
    }

    /// The values in order, to be changed in place. The keys stay, and so does their order.
    pub fn values_mut(&mut self) -> ValuesMut<'_, V>
        ensures* writes_back { sem 𝓛 (follows (the_row V.row) (Array V.row 0) self.entry.ghost_name (values_name result) (set_values self.old)) }
        ensures left { values_left result ≡ values_of self.old }
    {
        ValuesMut::new(self.values.as_mut_slice())
    }
}
