//! A source in memory that fails where it is to.

ghost use Rattle.std.specs.Prelude.{◌≡◌, ◌<◌, ◌≤◌, Some, OnErr, OnOk, is_err};
ghost use Rattle.std.specs.Io.KnownBytes.{ReadConsumes};
ghost use Rattle.jb_io.specs.Memory.{fails_next, next_call};
ghost use Rattle.jb_io.specs.Stream.{HasFailed, IsWithin, MovesAtMost};

use crate::failing::Failing;
use crate::source::{Source, SourceFault};
use bytes::Bytes;
use jb_tree::Listed;

/// A source over bytes in memory some of whose calls fail: just those whose numbers it was given, counted from 1.
pub struct MemorySource {
    rest: Bytes,
    piece: usize,
    failing: Failing,
    ghost some: { 0 < piece },
}

impl Drop for MemorySource {
    fn drop(self) {
        let MemorySource {
            rest: _,
            piece: _,
            failing: _,
        } = self;
    }
}

impl MemorySource {
    /// A source of `bytes` that gives at most `piece` of them in one call, and whose calls with the numbers `fails`
    /// fail. No fault is counted yet.
    pub fn new(bytes: Bytes, piece: usize, fails: Listed<u64>) -> MemorySource
        requires { 0 < piece }
        ensures left { ⟦<MemorySource as Source>⟧.left result ≡ Some bytes }
        ensures faults { ⟦<MemorySource as Source>⟧.faults result ≡ 0 }
        ensures failing { result.failing ≡ record { at = fails; calls = 0; faults = 0 } }
        ensures piece { result.piece ≡ piece }
    {
        MemorySource {
            rest: bytes,
            piece,
            failing: Failing::new(fails),
        }
    }
}

impl Source for MemorySource {
    ghost left = { λ source. Some source.rest };

    ghost faults = { λ source. source.failing.faults };

    fn read(&mut self, buffer: &mut [u8]) -> Result<usize, SourceFault>
        ensures within { IsWithin result buffer.new }
        ensures bytes { ReadConsumes (Some self.old.rest) (Some self.new.rest) result buffer.new }
        ensures later { self.old.failing.faults ≤ self.new.failing.faults }
        ensures cause { OnErr result (HasFailed self.old.failing.faults self.new.failing.faults) }
        ensures steady { OnOk result (self.new.failing.faults ≡ self.old.failing.faults) }
        // It fails just where it is to.
        ensures exact { is_err result ≡ fails_next self.old.failing }
        ensures piece { MovesAtMost self.old.piece result }
        ensures same_piece { self.new.piece ≡ self.old.piece }
        ensures call { self.new.failing.calls ≡ next_call self.old.failing }
        ensures at { self.new.failing.at ≡ self.old.failing.at }
    {
        if self.failing.fails() {
            return Err(SourceFault);
        }
        let rest = self.rest.as_slice();
        let count = buffer.len().min(self.piece).min(rest.len());
        buffer[..count].copy_from_slice(&rest[..count]);
        self.rest.advance(count);
        Ok(count)
    }
}
