//! Copies of trees.

ghost use Rattle.std.specs.Prelude.{◌≡◌, IfOk};

use jb_text::{Listed, Memory, Text};
use std::alloc::Global;

/// What can be copied into memory of its own.
pub trait Copying: Sized + Drop {
    /// An equal value. `Err` only when out of memory.
    fn copy(&self, alloc: Global) -> Result<Self, Memory>
        ensures { IfOk result (λ copy. copy ≡ self.now) };
}

impl Copying for Text {
    fn copy(&self, alloc: Global) -> Result<Text, Memory> {
        Text::copy(self, alloc)
    }
}

impl<T: Copying> Copying for Listed<T> {
    fn copy(&self, alloc: Global) -> Result<Listed<T>, Memory> {
        let mut copies = Listed::new(alloc);
        for item in self.as_slice() {
            copies.push(item.copy(alloc)?)?;
        }
        Ok(copies)
    }
}

impl<T: Copying> Copying for Option<T> {
    fn copy(&self, alloc: Global) -> Result<Option<T>, Memory> {
        match self {
            Some(value) => Ok(Some(value.copy(alloc)?)),
            None => Ok(None),
        }
    }
}

impl<S: Copying, T: Copying> Copying for (S, T) {
    fn copy(&self, alloc: Global) -> Result<(S, T), Memory> {
        let first = self.0.copy(alloc)?;
        let second = self.1.copy(alloc)?;
        Ok((first, second))
    }
}
