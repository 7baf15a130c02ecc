//! Whole numbers that an `i64` or a `u64` holds.
ghost use Rattle.std.specs.Prelude.{◌≡◌, ◌↔◌, ◌≤ℤ◌, IsTrue, false, pos, FitsSigned, IfNone};
ghost use Rattle.std.specs.Int.{w64};
ghost use Rattle.std.specs.Option.{SomeIff};
ghost use Rattle.jb_text.specs.Number.{IsUnsigned};

use std::marker::Model;

/// A whole number from -2^63 to 2^64-1, which is what a JSON number may be here (RFC 8259, section 6, without
/// fractions and exponents). Equal numbers are equal however they were made.
#[derive(Clone, Copy, Debug, PartialEq, Eq, Hash)]
pub struct Number {
    held: Whole,
}

/// A number below zero as an `i64`, any other as a `u64`.
#[derive(Clone, Copy, Debug, PartialEq, Eq, Hash)]
enum Whole {
    Unsigned(u64),
    Negative(i64),
}

impl Model for Number {
    ghost use Rattle.std.specs.Prelude.{◌≡◌, ℤ};
    ghost use Rattle.jb_text.specs.Number.{whole_value};
    ghost use Rattle.jb_text.specs.bridge.Number.{whole_of};

    ghost Value = { ℤ };

    ghost view = { λ n. whole_value n.held };

    ghost invariant = { λ n. whole_of (whole_value n.held) ≡ n.held };

    ghost inverse = { λ z. record { held = whole_of z } };

    ghost inverse_ok = { λ a h i. record { held = h i } };
}

impl Number {
    /// The number that equals `value`.
    pub fn from_i64(value: i64) -> Number
        ensures { result ≡ value }
    {
        if value < 0 {
            Number {
                held: Whole::Negative(value),
            }
        } else {
            Number {
                held: Whole::Unsigned(value as u64),
            }
        }
    }

    /// The number that equals `value`.
    pub fn from_u64(value: u64) -> Number
        ensures { result ≡ pos value }
    {
        Number {
            held: Whole::Unsigned(value),
        }
    }

    /// Whether an `i64` holds the number.
    pub fn is_i64(&self) -> bool
        ensures { IsTrue result ↔ FitsSigned w64 self.now }
    {
        self.as_i64().is_some()
    }

    /// Whether a `u64` holds the number.
    pub fn is_u64(&self) -> bool
        ensures { IsTrue result ↔ (pos 0 ≤ℤ self.now) }
    {
        self.as_u64().is_some()
    }

    /// Never: each number is whole.
    pub fn is_f64(&self) -> bool
        ensures { result ≡ false }
    {
        false
    }

    /// The number where an `i64` holds it, else `None`.
    pub fn as_i64(&self) -> Option<i64>
        ensures value { SomeIff result (FitsSigned w64 self.now) self.now }
        ensures unsigned { IfNone result (pos 0 ≤ℤ self.now) }
    {
        match self.held {
            Whole::Unsigned(value) if value <= i64::MAX as u64 => Some(value as i64),
            Whole::Unsigned(_) => None,
            Whole::Negative(value) => Some(value),
        }
    }

    /// The number where a `u64` holds it, else `None`.
    pub fn as_u64(&self) -> Option<u64>
        ensures { IsUnsigned result self.now }
    {
        match self.held {
            Whole::Unsigned(value) => Some(value),
            Whole::Negative(_) => None,
        }
    }
}
