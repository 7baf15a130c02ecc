//! Equality and hash of maps, which leave the order of pairs aside.
ghost use Rattle.std.specs.Prelude.{◌≡◌, Some};
ghost use Rattle.std.specs.Option.{option_eq};
ghost use Rattle.std.specs.Str.{bytes_eq};
ghost use Rattle.std.specs.Map.{lookup};
ghost use Rattle.jb_map.specs.ByKey.{same_pairs, same_pairs_per, same_pairs_equiv, same_pairs_Alike, pairs_input};

use crate::pairs::Pairs;
use std::hash::{Hash, Hasher};

/// Two maps are equal where they have the same pairs in any order.
impl<V: PartialEq> PartialEq for Pairs<V> {
    ghost eq = { same_pairs V.eq };

    ghost laws = { same_pairs_per V.laws };

    fn eq(&self, other: &Pairs<V>) -> bool {
        let len = self.len();
        if len != other.len() {
            return false;
        }
        for index in 0..len {
            if !other.has(self.key_at(index).as_str(), self.value_at(index)) {
                return false;
            }
        }
        true
    }
}

impl<V: Eq> Eq for Pairs<V> {
    ghost laws = { same_pairs_equiv V.Eq.laws };
}

/// A hasher is fed the number of pairs and then each of them in the order of the keys, so that equal maps feed it
/// alike. No memory is taken: each next key is found by going through all of them.
impl<V: Hash> Hash for Pairs<V> {
    ghost hash_input = { pairs_input V.hash_input };

    ghost respects_eq = { (same_pairs_Alike (record { fed = V.respects_eq })).fed };

    fn hash<H: Hasher>(&self, state: &mut H) {
        state.write_usize(self.len());
        let mut last = None;
        while let Some(at) = self.next_by_key(last) {
            self.key_at(at).hash(state);
            self.value_at(at).hash(state);
            last = Some(at);
        }
    }
}

impl<V: PartialEq> Pairs<V> {
    /// Whether the value at `key` is there and equal to `value`.
    fn has(&self, key: &str, value: &V) -> bool
        ensures { result ≡ option_eq V.eq (Some value.now) (lookup (bytes_eq key.now) self.now) }
    {
        match self.get(key) {
            Some(found) => value == found,
            None => false,
        }
    }
}
