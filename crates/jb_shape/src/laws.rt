//! The law of shapes: what was given comes back.

ghost use Rattle.std.specs.Prelude.{◌≡◌, ◌≤◌, ◌^◌, ◌-◌, ⊤, Ok, refl};
ghost use Rattle.std.proofs.Common.{arith};
ghost use Rattle.jb_shape.specs.Outcome.{Answers, and_then};
ghost use Rattle.jb_shape.specs.Faithful.{AllOf, AreMembers, IsSigned};
ghost use Rattle.jb_shape.specs.KeyBack.{unsigned_key_back, signed_key_back};
ghost use Rattle.jb_shape.specs.MembersBack.{members_back};
ghost use Rattle.jb_shape.specs.Back.{unsigned_back, signed_back, truth_back, text_back, list_back, pair_back};

use crate::members::Members;
use crate::shape_error::ShapeError;
use crate::shapes::{FromValue, MapKey, ToValue, from_value, to_value};
use jb_tree::{Listed, Refused, Text};
use std::alloc::Global;

/// What comes back from the value that stands for it.
pub trait Faithful: ToValue + FromValue {
    // What the type holds: each number is in its range.
    ghost held: { Self → Type 0 };

    // It has a value, and that is read as it.
    ghost comes_back: { (x : Self) → held x → and_then (Self.shape x) Self.reading ≡ Ok x };
}

/// A key that comes back from its text.
pub trait FaithfulKey: MapKey {
    // What the type holds: each number is in its range.
    ghost key_held: { Self → Type 0 };

    // It has a text, and that is read as it.
    ghost key_comes_back: { (k : Self) → key_held k → and_then (Self.key_text k) Self.key_reading ≡ Ok k };
}

/// Makes the value that stands for `given`, and reads it: that gives `given` again.
///
/// # Errors
///
/// Only when out of memory.
pub fn comes_back<T: Faithful>(alloc: Global, given: &T) -> Result<T, Refused<ShapeError>>
    requires { T.held given.now }
    ensures { Answers (Ok given.now) result }
{
    let value = to_value(alloc, given)?;
    from_value(alloc, &value)
}

impl Faithful for bool {
    ghost held = { λ _. ⊤ };

    ghost comes_back = { λ b _. truth_back b };
}

impl Faithful for Text {
    ghost held = { λ _. ⊤ };

    ghost comes_back = { λ text _. text_back text };
}

impl Faithful for u8 {
    ghost held = { λ n. n ≤ 2 ^ 8 - 1 };

    ghost comes_back = { unsigned_back (2 ^ 8 - 1) };
}

impl Faithful for u16 {
    ghost held = { λ n. n ≤ 2 ^ 16 - 1 };

    ghost comes_back = { unsigned_back (2 ^ 16 - 1) };
}

impl Faithful for u32 {
    ghost held = { λ n. n ≤ 2 ^ 32 - 1 };

    ghost comes_back = { unsigned_back (2 ^ 32 - 1) };
}

impl Faithful for u64 {
    ghost held = { λ n. n ≤ 2 ^ 64 - 1 };

    ghost comes_back = { unsigned_back (2 ^ 64 - 1) };
}

impl Faithful for usize {
    ghost held = { λ n. n ≤ 2 ^ 64 - 1 };

    ghost comes_back = { unsigned_back (2 ^ 64 - 1) };
}

impl Faithful for i8 {
    ghost held = { IsSigned (2 ^ 7 - 1) };

    ghost comes_back = { signed_back (2 ^ 7 - 1) };
}

impl Faithful for i16 {
    ghost held = { IsSigned (2 ^ 15 - 1) };

    ghost comes_back = { signed_back (2 ^ 15 - 1) };
}

impl Faithful for i32 {
    ghost held = { IsSigned (2 ^ 31 - 1) };

    ghost comes_back = { signed_back (2 ^ 31 - 1) };
}

impl Faithful for i64 {
    ghost held = { IsSigned (2 ^ 63 - 1) };

    ghost comes_back = { signed_back (2 ^ 63 - 1) };
}

impl Faithful for isize {
    ghost held = { IsSigned (2 ^ 63 - 1) };

    ghost comes_back = { signed_back (2 ^ 63 - 1) };
}

impl<T: Faithful> Faithful for Listed<T> {
    ghost held = { AllOf T.held };

    ghost comes_back = { list_back T.shape T.reading T.held T.comes_back };
}

impl<A: Faithful, B: Faithful> Faithful for (A, B) {
    ghost held = { λ pair. A.held pair.0 × B.held pair.1 };

    ghost comes_back = { pair_back A.shape A.reading A.held A.comes_back B.shape B.reading B.held B.comes_back };
}

impl<K: FaithfulKey, V: Faithful> Faithful for Members<K, V> {
    ghost held = { λ members. AreMembers K.key_held V.held members.pairs };

    ghost comes_back = { members_back K.key_reading V.reading K.key_text K.key_held K.key_comes_back V.shape V.held V.comes_back };
}

impl FaithfulKey for Text {
    ghost key_held = { λ _. ⊤ };

    ghost key_comes_back = { λ _ _. refl };
}

impl FaithfulKey for u8 {
    ghost key_held = { λ n. n ≤ 2 ^ 8 - 1 };

    ghost key_comes_back = { λ n held. unsigned_key_back (2 ^ 8 - 1) n (Prim.omega arith) held };
}

impl FaithfulKey for u16 {
    ghost key_held = { λ n. n ≤ 2 ^ 16 - 1 };

    ghost key_comes_back = { λ n held. unsigned_key_back (2 ^ 16 - 1) n (Prim.omega arith) held };
}

impl FaithfulKey for u32 {
    ghost key_held = { λ n. n ≤ 2 ^ 32 - 1 };

    ghost key_comes_back = { λ n held. unsigned_key_back (2 ^ 32 - 1) n (Prim.omega arith) held };
}

impl FaithfulKey for u64 {
    ghost key_held = { λ n. n ≤ 2 ^ 64 - 1 };

    ghost key_comes_back = { λ n held. unsigned_key_back (2 ^ 64 - 1) n (Prim.omega arith) held };
}

impl FaithfulKey for usize {
    ghost key_held = { λ n. n ≤ 2 ^ 64 - 1 };

    ghost key_comes_back = { λ n held. unsigned_key_back (2 ^ 64 - 1) n (Prim.omega arith) held };
}

impl FaithfulKey for i8 {
    ghost key_held = { IsSigned (2 ^ 7 - 1) };

    ghost key_comes_back = { λ z held. signed_key_back (2 ^ 7 - 1) z (Prim.omega arith) held };
}

impl FaithfulKey for i16 {
    ghost key_held = { IsSigned (2 ^ 15 - 1) };

    ghost key_comes_back = { λ z held. signed_key_back (2 ^ 15 - 1) z (Prim.omega arith) held };
}

impl FaithfulKey for i32 {
    ghost key_held = { IsSigned (2 ^ 31 - 1) };

    ghost key_comes_back = { λ z held. signed_key_back (2 ^ 31 - 1) z (Prim.omega arith) held };
}

impl FaithfulKey for i64 {
    ghost key_held = { IsSigned (2 ^ 63 - 1) };

    ghost key_comes_back = { λ z held. signed_key_back (2 ^ 63 - 1) z (Prim.omega arith) held };
}

impl FaithfulKey for isize {
    ghost key_held = { IsSigned (2 ^ 63 - 1) };

    ghost key_comes_back = { λ z held. signed_key_back (2 ^ 63 - 1) z (Prim.omega arith) held };
}
