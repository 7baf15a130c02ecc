//! Copies of maps.
ghost use Rattle.std.specs.Prelude.{◌≡◌, IfOk};

use crate::pairs::Pairs;
use jb_text::Memory;
use std::alloc::Global;

/// What can be copied into memory of its own.
pub trait TryClone: Drop + Sized {
    /// A value equal to this one. `Err` only when out of memory.
    fn try_clone(&self, alloc: Global) -> Result<Self, Memory>
        ensures { IfOk result (λ copy. copy ≡ self.now) };
}

impl<V: TryClone> Pairs<V> {
    /// The same pairs in the same order, in memory of its own; the keys share their buffers. `Err` only when out of
    /// memory.
    pub fn copy(&self, alloc: Global) -> Result<Pairs<V>, Memory>
        ensures { IfOk result (λ copy. copy ≡ self.now) }
    {
        let mut copies = Pairs::new(alloc);
        for index in 0..self.len() {
            let key = self.key_at(index).copy(alloc)?;
            let value = self.value_at(index).try_clone(alloc)?;
            copies.insert_new(key, value)?;
        }
        Ok(copies)
    }
}
