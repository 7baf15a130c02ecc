//! A sink in memory that fails where it is to.

ghost use Rattle.std.specs.Prelude.{◌≡◌, ◌-◌, ◌<◌, ◌≤◌, ◌⊎◌, true, [], Some, IsTrue, IfOk, OnErr, OnOk, is_err, vec_len, vec_capacity};
ghost use Rattle.jb_io.specs.Memory.{FindsNoRoom, fails_next, next_call};
ghost use Rattle.jb_io.specs.Sink.{TakesSome, WriteTakes};
ghost use Rattle.jb_io.specs.Stream.{HasFailed, IsWithin, MovesAtMost};

use crate::failing::Failing;
use crate::sink::{Sink, SinkFault};
use jb_tree::{Listed, Memory};
use std::alloc::Global;

/// A sink in memory with a fixed room, some of whose calls fail: just those whose numbers it was given, counted
/// from 1, and those that find no room for any byte.
pub struct MemorySink {
    held: Vec<u8>,
    room: usize,
    piece: usize,
    failing: Failing,
    ghost some: { 0 < piece },
    ghost fits: { vec_len held ≤ room },
    ghost reserved: { room ≤ vec_capacity held },
}

impl Drop for MemorySink {
    fn drop(self) {
        let MemorySink {
            held: _,
            room: _,
            piece: _,
            failing: _,
        } = self;
    }
}

impl MemorySink {
    /// An empty sink with room for `room` bytes that takes at most `piece` of them in one call, and whose calls with
    /// the numbers `fails` fail. No fault is counted yet.
    ///
    /// # Errors
    ///
    /// [`Memory`] where that room could not be had.
    pub fn new(
        alloc: Global,
        room: usize,
        piece: usize,
        fails: Listed<u64>,
    ) -> Result<MemorySink, Memory>
        requires { 0 < piece }
        ensures taken { IfOk result (λ sink.
            ⟦<MemorySink as Sink>⟧.taken sink ≡ Some (record { bytes = []; room = room })) }
        ensures faults { IfOk result (λ sink. ⟦<MemorySink as Sink>⟧.faults sink ≡ 0) }
        ensures failing { IfOk result (λ sink.
            sink.failing ≡ record { at = fails; calls = 0; faults = 0 }) }
        ensures piece { IfOk result (λ sink. sink.piece ≡ piece) }
    {
        Ok(MemorySink {
            held: Vec::with_capacity(alloc, room)?,
            room,
            piece,
            failing: Failing::new(fails),
        })
    }

    /// The bytes that the sink took.
    pub fn written(&self) -> &[u8]
        ensures { result.now ≡ self.now.held.items }
    {
        self.held.as_slice()
    }
}

impl Sink for MemorySink {
    ghost taken = { λ sink. Some (record { bytes = sink.held.items; room = sink.room - vec_len sink.held }) };

    ghost faults = { λ sink. sink.failing.faults };

    fn write(&mut self, bytes: &[u8]) -> Result<usize, SinkFault>
        ensures within { IsWithin result bytes.now }
        ensures some { TakesSome result bytes.now }
        ensures bytes { WriteTakes
            (Some (record { bytes = self.old.held.items; room = self.old.room - vec_len self.old.held }))
            (Some (record { bytes = self.new.held.items; room = self.new.room - vec_len self.new.held })) result bytes.now }
        ensures later { self.old.failing.faults ≤ self.new.failing.faults }
        ensures cause { OnErr result (HasFailed self.old.failing.faults self.new.failing.faults) }
        ensures steady { OnOk result (self.new.failing.faults ≡ self.old.failing.faults) }
        // It fails just where it is to, and where there is no room for any byte.
        ensures failed { OnErr result (IsTrue (fails_next self.old.failing)
            ⊎ FindsNoRoom (self.old.room - vec_len self.old.held) bytes.now) }
        ensures listed { IsTrue (fails_next self.old.failing) → is_err result ≡ true }
        ensures full { FindsNoRoom (self.old.room - vec_len self.old.held) bytes.now → is_err result ≡ true }
        ensures piece { MovesAtMost self.old.piece result }
        ensures same_piece { self.new.piece ≡ self.old.piece }
        ensures same_room { self.new.room ≡ self.old.room }
        ensures call { self.new.failing.calls ≡ next_call self.old.failing }
        ensures at { self.new.failing.at ≡ self.old.failing.at }
    {
        if self.failing.fails() {
            return Err(SinkFault);
        }
        let left = self.room - self.held.len();
        if left == 0 && !bytes.is_empty() {
            self.failing.count_fault();
            return Err(SinkFault);
        }
        let count = bytes.len().min(self.piece).min(left);
        match self.held.extend_from_slice(&bytes[..count]) {
            Ok(()) => Ok(count),
            Err(_) => unreachable!(),
        }
    }
}
