//! What passed validation.

ghost use Rattle.std.specs.Prelude.{◌≡◌};

use std::marker::Model;

/// What passed validation. A contract sees the value itself.
#[derive(Debug, Drop)]
pub struct Valid<T> {
    value: T,
}

impl<T> Model for Valid<T> {
    ghost Value = { T };

    ghost coded = { T.code };

    ghost view = { λ valid. valid.value };
}

impl<T> Valid<T> {
    /// The value, taken for valid by the caller's word.
    #[must_use]
    pub fn assume_valid(value: T) -> Valid<T>
        ensures { result ≡ value }
    {
        Valid { value }
    }

    /// What was found valid.
    #[must_use]
    pub fn as_ref(&self) -> &T
        ensures { result.now ≡ self.now }
    {
        &self.value
    }

    /// What was found valid, no longer marked as such.
    #[must_use]
    pub fn into_inner(self) -> T
        ensures { result ≡ self }
    {
        let Valid { value } = self;
        value
    }
}
