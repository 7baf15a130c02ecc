//! What holds of all JSON values, as contracts see them: of all lists of pairs, those with repeated keys included.
//! Each function computes nothing; its contract is the law.
ghost use Rattle.std.specs.Prelude.{◌≡◌, ◌↔◌, ℕ, List, IsTrue};
ghost use Rattle.std.specs.Str.{bytes_eq};
ghost use Rattle.std.specs.List.{IsDistinct};
ghost use Rattle.std.specs.Map.{keys_of};
ghost use Rattle.jb_map.specs.ByKey.{same_pairs};
ghost use Rattle.jb_tree.specs.Same.{Same, SameItems, SameMembers, sorted};
ghost use Rattle.jb_tree.specs.declared.value.Value.{Value as Tree, Array, Object};
ghost use Rattle.jb_tree.specs.contracts.value.ValuePartialEq.TheImpl.{ghosts as compared};
ghost use Rattle.jb_tree.specs.contracts.value.ValueHash.TheImpl.{ghosts as hashed};

use crate::value::{Map, Value};
pub use jb_text::laws::walks_end_for_good;

/// Being the same, the order of pairs aside, is an equivalence.
pub fn same_is_an_equivalence()
    ensures reflexive { (a : Tree) → Same a a }
    ensures symmetric { (a b : Tree) → Same a b → Same b a }
    ensures transitive { (a b c : Tree) → Same a b → Same b c → Same a c }
{}

/// Sorting the pairs of two values that are the same, at every level, gives identical values.
pub fn sorting_makes_the_same_identical()
    ensures { (a b : Tree) → Same a b → sorted a ≡ sorted b }
{}

/// A hasher is fed alike by values that are the same, the order of pairs aside.
pub fn the_same_is_hashed_alike()
    ensures { (a b : Tree) → Same a b → hashed.hash_input a ≡ hashed.hash_input b }
{}

/// Values are equal just where they are the same, the order of pairs aside.
pub fn equality_is_sameness(a: &Value, b: &Value) -> bool
    ensures { IsTrue result ↔ Same a.now b.now }
{
    a == b
}

/// Equal maps are those that are the same, the order of pairs aside.
pub fn equality_of_maps_is_sameness(one: &Map, other: &Map) -> bool
    ensures { IsTrue result ↔ Same (Object one.now) (Object other.now) }
{
    one == other
}

/// Equality, as contracts see it, is sameness: of all values, and of all lists of pairs.
pub fn equality_decides_sameness()
    ensures values { (a b : Tree) → IsTrue (compared.eq a b) ↔ Same a b }
    ensures maps { (es fs : List (List ℕ × Tree)) → IsTrue (same_pairs compared.eq es fs) ↔ Same (Object es) (Object fs) }
{}

/// Objects with distinct keys are the same where they have the same keys, and the same value at each: the same pairs in
/// any order. Arrays are the same where they have the same items in order.
pub fn the_same_have_the_same_parts()
    ensures objects { (es fs : List (List ℕ × Tree)) → IsDistinct bytes_eq (keys_of es) → IsDistinct bytes_eq (keys_of fs) → Same (Object es) (Object fs) ↔ SameMembers es fs }
    ensures arrays { (xs ys : List Tree) → Same (Array xs) (Array ys) ↔ SameItems xs ys }
{}
