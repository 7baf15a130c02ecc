//! The pairs of a map taken in the order of their keys.
ghost use Rattle.std.specs.Prelude.{◌≡◌, ◌<◌, ℕ, List, Some, IfSome, length, slice_get};
ghost use Rattle.std.specs.Option.{ForSome};
ghost use Rattle.std.specs.Map.{keys_of};
ghost use Rattle.jb_map.specs.bridge.NextByKey.{key_of, is_after, is_before, lesser_key, next_key};

use crate::pairs::Pairs;

impl<V> Pairs<V> {
    /// The place of the least key above the one at `last`, or of the least key of all.
    pub(crate) fn next_by_key(&self, last: Option<usize>) -> Option<usize>
        requires { ForSome last (λ i. i < length self.now) }
        ensures within { IfSome result (λ i. i < length self.now) }
        ensures key { key_of self.now result ≡ next_key (key_of self.now last) (keys_of self.now) }
    {
        let mut least = None;
        for index in 0..self.len() {
            least = self.lesser(last, least, index);
        }
        least
    }

    /// The lesser of the keys at `least` and at `index`, where that comes after the one at `last`.
    fn lesser(&self, last: Option<usize>, least: Option<usize>, index: usize) -> Option<usize>
        requires last { ForSome last (λ i. i < length self.now) }
        requires least { ForSome least (λ i. i < length self.now) }
        requires index { index < length self.now }
        ensures within { IfSome result (λ i. i < length self.now) }
        ensures key { (q : List ℕ) → slice_get (keys_of self.now) index ≡ Some q → key_of self.now result ≡ lesser_key (key_of self.now last) (key_of self.now least) q }
    {
        if self.is_after(last, index) && self.is_before(least, index) {
            Some(index)
        } else {
            least
        }
    }

    /// Whether the key at `index` comes after the one at `last`.
    fn is_after(&self, last: Option<usize>, index: usize) -> bool
        requires last { ForSome last (λ i. i < length self.now) }
        requires index { index < length self.now }
        ensures { (q : List ℕ) → slice_get (keys_of self.now) index ≡ Some q → result ≡ is_after (key_of self.now last) q }
    {
        match last {
            Some(at) => self
                .key_at(at)
                .as_str()
                .cmp(self.key_at(index).as_str())
                .is_lt(),
            None => true,
        }
    }

    /// Whether the key at `index` comes before the one at `least`.
    fn is_before(&self, least: Option<usize>, index: usize) -> bool
        requires least { ForSome least (λ i. i < length self.now) }
        requires index { index < length self.now }
        ensures { (q : List ℕ) → slice_get (keys_of self.now) index ≡ Some q → result ≡ is_before (key_of self.now least) q }
    {
        match least {
            Some(at) => self
                .key_at(index)
                .as_str()
                .cmp(self.key_at(at).as_str())
                .is_lt(),
            None => true,
        }
    }
}
