//! Pairs taken out of a map.
ghost use Rattle.std.specs.Prelude.{◌≡◌, ◌<◌, Some, length, slice_get, swap_remove};
ghost use Rattle.std.specs.Str.{bytes_eq};
ghost use Rattle.std.specs.Map.{lookup, lookup_entry};
ghost use Rattle.indexmap.specs.IndexMap.{swap_remove_entry};

use crate::pairs::Pairs;
use jb_text::ByteString;

impl<V: Drop> Pairs<V> {
    /// Takes the pair of `key` out and gives its value, `None` exactly where it is not there. The last pair moves into the gap. It
    /// takes no memory.
    pub fn remove(&mut self, key: &str) -> Option<V>
        ensures value { result ≡ lookup (bytes_eq key.now) self.old }
        ensures pairs { self.new ≡ swap_remove_entry (bytes_eq key.now) self.old }
    {
        match self.remove_entry(key) {
            Some((_, value)) => Some(value),
            None => None,
        }
    }

    /// Takes the pair of `key` out and gives it, `None` exactly where it is not there. The last pair moves into the gap. It takes
    /// no memory.
    pub fn remove_entry(&mut self, key: &str) -> Option<(ByteString, V)>
        ensures pair { result ≡ lookup_entry (bytes_eq key.now) self.old }
        ensures pairs { self.new ≡ swap_remove_entry (bytes_eq key.now) self.old }
    {
        match self.find(key) {
            Some(at) => Some(self.remove_at(at)),
            None => None,
        }
    }

    /// Takes the pair at `index` out. The last pair moves into the gap.
    pub(crate) fn remove_at(&mut self, index: usize) -> (ByteString, V)
        requires { index < length self.old }
        ensures pair { slice_get self.old index ≡ Some result }
        ensures pairs { self.new ≡ swap_remove self.old index result }
    {
        (self.keys.swap_remove(index), self.values.swap_remove(index))
    }
}
