//! Where bytes come from: the trait, a source in memory that never fails, and one over a reader of std.

ghost use Rattle.std.specs.Prelude.{◌≡◌, ℕ, ◌<◌, ◌≤◌, List, Option, Some, OnErr, IsOk};
ghost use Rattle.std.specs.Io.KnownBytes.{ReadConsumes};
ghost use Rattle.jb_io.specs.Stream.{Counts, HasFailed, IsWithin, MovesAtMost};

use bytes::Bytes;
use std::io::{ErrorKind, Read};
use thiserror::Error;

/// A source could not be read.
#[derive(Clone, Copy, Debug, PartialEq, Eq, Error)]
#[error("the source could not be read")]
pub struct SourceFault;

/// Where bytes come from.
pub trait Source {
    // The bytes that are left, where the source tells them.
    ghost left: { Self → Option (List ℕ) };

    // How many faults it has met. The count stops at 2^64 - 1.
    ghost faults: { Self → ℕ };

    /// Moves some of the bytes that are left to the front of `buffer`, and gives their number: 0 for a buffer
    /// with room means that none is left.
    ///
    /// # Errors
    ///
    /// [`SourceFault`] where the source could not be read: it raised its count of faults and gave nothing.
    fn read(&mut self, buffer: &mut [u8]) -> Result<usize, SourceFault>
        ensures within { IsWithin result buffer.new }
        ensures bytes { ReadConsumes (left self.old) (left self.new) result buffer.new }
        ensures later { faults self.old ≤ faults self.new }
        ensures cause { OnErr result (HasFailed (faults self.old) (faults self.new)) };
}

/// A source over bytes in memory, which never fails.
pub struct SureSource {
    rest: Bytes,
    piece: usize,
    ghost some: { 0 < piece },
}

impl Drop for SureSource {
    fn drop(self) {
        let SureSource { rest: _, piece: _ } = self;
    }
}

impl SureSource {
    /// A source of `bytes` that gives at most `piece` of them in one call.
    pub fn new(bytes: Bytes, piece: usize) -> SureSource
        requires { 0 < piece }
        ensures left { ⟦<SureSource as Source>⟧.left result ≡ Some bytes }
        ensures piece { result.piece ≡ piece }
    {
        SureSource { rest: bytes, piece }
    }
}

impl Source for SureSource {
    ghost left = { λ source. Some source.rest };

    ghost faults = { λ _. 0 };

    fn read(&mut self, buffer: &mut [u8]) -> Result<usize, SourceFault>
        ensures within { IsWithin result buffer.new }
        ensures bytes { ReadConsumes (Some self.old.rest) (Some self.new.rest) result buffer.new }
        ensures later { 0 ≤ 0 }
        ensures cause { OnErr result (HasFailed 0 0) }
        // It never fails.
        ensures sure { IsOk result }
        ensures piece { MovesAtMost self.old.piece result }
        ensures same_piece { self.new.piece ≡ self.old.piece }
    {
        let rest = self.rest.as_slice();
        let count = buffer.len().min(self.piece).min(rest.len());
        buffer[..count].copy_from_slice(&rest[..count]);
        self.rest.advance(count);
        Ok(count)
    }
}

/// A source over a reader of std. It tells the bytes that the reader tells, and counts each read that fails.
#[derive(Drop)]
pub struct ReaderSource<R: Read> {
    reader: R,
    faults: u64,
}

impl<R: Read> ReaderSource<R> {
    /// A source of what `reader` gives, with no fault counted.
    pub fn new(reader: R) -> ReaderSource<R>
        ensures left { ⟦<ReaderSource<R> as Source>⟧.left result ≡ R.remaining reader }
        ensures faults { ⟦<ReaderSource<R> as Source>⟧.faults result ≡ 0 }
    {
        ReaderSource { reader, faults: 0 }
    }
}

impl<R: Read> Source for ReaderSource<R> {
    ghost left = { λ source. R.remaining source.reader };

    ghost faults = { λ source. source.faults };

    // A read that a signal interrupted is tried again, and is no fault.
    fn read(&mut self, buffer: &mut [u8]) -> Result<usize, SourceFault>
        ensures within { IsWithin result buffer.new }
        ensures bytes { ReadConsumes (R.remaining self.old.reader) (R.remaining self.new.reader) result buffer.new }
        ensures later { self.old.faults ≤ self.new.faults }
        ensures cause { OnErr result (HasFailed self.old.faults self.new.faults) }
        // Nothing else is counted.
        ensures exact { Counts self.old.faults self.new.faults result }
    {
        for _ in 0..u64::MAX {
            match self.reader.read(buffer) {
                Ok(count) => return Ok(count),
                Err(error) if error.kind() == ErrorKind::Interrupted => {}
                Err(_) => break,
            }
        }
        self.faults = self.faults.saturating_add(1);
        Err(SourceFault)
    }
}
