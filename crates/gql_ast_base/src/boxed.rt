//! A value in a place of its own on the heap.

ghost use Rattle.std.specs.Prelude.{◌≡◌, IfOk};

use jb_text::Memory;
use std::alloc::Global;
use std::marker::Model;

/// A `Box` that contracts see as its value, so that two trees of equal parts are equal wherever the parts lie.
#[derive(Debug, Drop)]
pub struct Boxed<T> {
    held: Box<T>,
}

impl<T> Model for Boxed<T> {
    ghost Value = { T };

    ghost coded = { T.code };

    ghost view = { λ boxed. boxed.held.value };
}

impl<T> Boxed<T> {
    /// The value.
    #[must_use]
    pub fn get(&self) -> &T
        ensures { result.now ≡ self.now }
    {
        &self.held
    }

    /// Takes the value out.
    #[must_use]
    pub fn into_inner(self) -> T
        ensures { result ≡ self }
    {
        let Boxed { held } = self;
        Box::into_inner(held)
    }
}

impl<T: Drop> Boxed<T> {
    /// Puts the value on the heap. `Err` only where memory runs out, and the value is then dropped.
    pub fn new(alloc: Global, value: T) -> Result<Boxed<T>, Memory>
        ensures { IfOk result (λ boxed. boxed ≡ value) }
    {
        Ok(Boxed {
            held: Box::new(alloc, value)?,
        })
    }
}
