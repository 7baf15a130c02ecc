//! Texts that are slices of a shared buffer.
ghost use Rattle.std.specs.Prelude.{◌≡◌, ◌≤◌, IfOk, Some, length, nat_eq, slice_range, refl};
ghost use Rattle.std.specs.Ordering.{nat_cmp};
ghost use Rattle.std.specs.Hash as fed;
ghost use Rattle.std.specs.Cmp.Lexicographic.{pointwise, slice_cmp, nat_list_eq_equiv, nat_list_cmp_total, texts_ties, texts_po};
ghost use Rattle.std.specs.Cmp.{partial_equiv_from_equiv};
ghost use Rattle.std.specs.Cmp.Rules.{hashing};
ghost use Rattle.std.proofs.Common.{rules};
ghost use Rattle.std.specs.Str.{IsUtf8};
ghost use Rattle.jb_text.specs.ByteString.{IsSlice};

use crate::refused::{Memory, Refused};
use bytes::Bytes;
use std::alloc::Global;
use std::cmp::Ordering;
use std::hash::{Hash, Hasher};
use std::marker::Model;
use std::ops::Range;
use std::str;
use thiserror::Error;

/// Why some bytes of a buffer are no [`ByteString`].
#[derive(Clone, Copy, Debug, PartialEq, Eq, Error)]
pub enum SliceFault {
    /// The bytes are not UTF-8.
    #[error("the bytes are no text")]
    NotText,
}

/// A text that may share its bytes with the buffer that it was cut from. Contracts see its UTF-8 bytes.
pub struct ByteString {
    held: Bytes,
}

impl Drop for ByteString {
    fn drop(self) {
        let ByteString { held: _ } = self;
    }
}

impl Model for ByteString {
    ghost use Rattle.std.specs.Prelude.{List, ℕ};
    ghost use Rattle.std.specs.Str.{IsUtf8};

    ghost Value = { List ℕ };

    ghost view = { λ s. s.held };

    ghost invariant = { λ s. IsUtf8 s.held };
}

impl ByteString {
    /// A copy of `text`. `Err` only when out of memory.
    pub fn from_text(alloc: Global, text: &str) -> Result<ByteString, Memory>
        ensures { IfOk result (λ made. made ≡ text.now) }
    {
        Ok(ByteString {
            held: Bytes::copy_from_slice(alloc, text.as_bytes())?,
        })
    }

    /// The bytes of `origin` in `range`, shared with it. `NotText` exactly where they are not UTF-8.
    pub fn from_slice(
        _alloc: Global,
        origin: &Bytes,
        range: Range<usize>,
    ) -> Result<ByteString, Refused<SliceFault>>
        requires start_le_end { range.start ≤ range.end }
        requires in_bounds { range.end ≤ length origin.now }
        ensures { IsSlice result (slice_range origin.now range.start range.end) }
    {
        let held = origin.slice(range)?;
        match str::from_utf8(held.as_slice()) {
            Ok(_) => Ok(ByteString { held }),
            Err(_) => Err(Refused::Fault(SliceFault::NotText)),
        }
    }

    /// The bytes of `origin` in `range`, which are UTF-8, shared with it. `Err` only when out of memory.
    #[inline(always)]
    pub fn shared(_alloc: Global, origin: &Bytes, range: Range<usize>) -> Result<ByteString, Memory>
        requires start_le_end { range.start ≤ range.end }
        requires in_bounds { range.end ≤ length origin.now }
        requires text { IsUtf8 (slice_range origin.now range.start range.end) }
        ensures { IfOk result (λ made. made ≡ slice_range origin.now range.start range.end) }
    {
        Ok(ByteString {
            held: origin.slice(range)?,
        })
    }

    /// The same text over the same buffer. `Err` only when out of memory.
    pub fn copy(&self, _alloc: Global) -> Result<ByteString, Memory>
        ensures { IfOk result (λ copy. copy ≡ self.now) }
    {
        Ok(ByteString {
            held: self.held.clone()?,
        })
    }

    /// The text.
    pub fn as_str(&self) -> &str
        ensures { result.now ≡ self.now }
    {
        unsafe { str::from_utf8_unchecked(self.held.as_slice()) }
    }

    /// The bytes of the text, shared and not copied.
    pub fn inner(&self) -> &Bytes
        ensures { result.now ≡ self.now }
    {
        &self.held
    }
}

/// Byte strings are compared, ordered and hashed as their texts.
impl PartialEq for ByteString {
    ghost eq = { pointwise nat_eq };

    ghost laws = { partial_equiv_from_equiv nat_list_eq_equiv };

    fn eq(&self, other: &ByteString) -> bool {
        self.as_str() == other.as_str()
    }
}

impl Eq for ByteString {
    ghost laws = { nat_list_eq_equiv };
}

impl PartialOrd for ByteString {
    ghost partial_cmp = { λ x y. Some (slice_cmp nat_cmp x y) };

    ghost laws = { texts_po };

    fn partial_cmp(&self, other: &ByteString) -> Option<Ordering> {
        Some(self.cmp(other))
    }
}

impl Ord for ByteString {
    ghost cmp = { slice_cmp nat_cmp };

    ghost total = { nat_list_cmp_total };

    ghost matches_partial_cmp = { λ x y. refl };

    ghost matches_eq = { texts_ties };

    fn cmp(&self, other: &ByteString) -> Ordering {
        self.as_str().cmp(other.as_str())
    }
}

impl Hash for ByteString {
    ghost hash_input = { fed.str };

    ghost respects_eq = { Prim.search (hashing, rules) };

    fn hash<H: Hasher>(&self, state: &mut H) {
        self.as_str().hash(state);
    }
}
