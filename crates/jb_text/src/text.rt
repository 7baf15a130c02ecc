//! Texts that own their bytes.
ghost use Rattle.std.specs.Prelude.{◌≡◌, IfOk, nat_eq, string_bytes};
ghost use Rattle.std.specs.Cmp.Lexicographic.{pointwise, nat_list_eq_equiv};
ghost use Rattle.std.specs.Cmp.{partial_equiv_from_equiv};

use crate::refused::Memory;
use std::alloc::Global;
use std::marker::Model;

/// An owned text, which contracts see as its UTF-8 bytes.
#[derive(Debug)]
pub struct Text {
    held: String,
}

impl Drop for Text {
    fn drop(self) {
        let Text { held: _ } = self;
    }
}

impl Model for Text {
    ghost use Rattle.std.specs.Prelude.{List, ℕ, string_bytes};

    ghost Value = { List ℕ };

    ghost view = { λ t. string_bytes t.held };
}

impl Text {
    /// A copy of `text`. `Err` only when out of memory.
    pub fn from_str(alloc: Global, text: &str) -> Result<Text, Memory>
        ensures { IfOk result (λ made. made ≡ text.now) }
    {
        Ok(Text {
            held: String::from_str(alloc, text)?,
        })
    }

    /// Takes a `String` over as it is.
    pub fn from_string(held: String) -> Text
        ensures { result ≡ string_bytes held }
    {
        Text { held }
    }

    /// The same text in memory of its own. `Err` only when out of memory.
    pub fn copy(&self, alloc: Global) -> Result<Text, Memory>
        ensures { IfOk result (λ copy. copy ≡ self.now) }
    {
        Text::from_str(alloc, self.as_str())
    }

    /// The `String` that holds it.
    pub fn into_string(self) -> String
        ensures { string_bytes result ≡ self }
    {
        let Text { held } = self;
        held
    }

    /// The text, lent.
    pub fn as_str(&self) -> &str
        ensures { result.now ≡ self.now }
    {
        self.held.as_str()
    }
}

/// Texts are compared byte by byte.
impl PartialEq for Text {
    ghost eq = { pointwise nat_eq };

    ghost laws = { partial_equiv_from_equiv nat_list_eq_equiv };

    fn eq(&self, other: &Text) -> bool {
        self.as_str() == other.as_str()
    }
}

impl Eq for Text {
    ghost laws = { nat_list_eq_equiv };
}
