//! Where bytes go to: the trait, a sink in memory that never fails, and one over a writer of std.

ghost use Rattle.std.specs.Prelude.{◌≡◌, ◌↔◌, ℕ, ◌-◌, ◌<◌, ◌≤◌, Option, [], None, Some, IsTrue, IsSome, IfOk, IfSome, OnErr, vec_len, vec_capacity, if◌then◌else◌};
ghost use Rattle.jb_io.specs.Sink.{TakesSome, Told, WriteTakes};
ghost use Rattle.jb_io.specs.Stream.{Counts, HasFailed, IsWithin};

use jb_tree::Memory;
use std::alloc::Global;
use std::io;
use std::io::{ErrorKind, Write};
use thiserror::Error;

/// A sink could not be written.
#[derive(Clone, Copy, Debug, PartialEq, Eq, Error)]
#[error("the sink could not be written")]
pub struct SinkFault;

/// Where bytes go to.
pub trait Sink {
    // The bytes taken so far, where the sink tells them.
    ghost taken: { Self → Option Told };

    // How many faults it has met. The count stops at 2^64 - 1.
    ghost faults: { Self → ℕ };

    /// Takes the first of `bytes`, at least one where there is one, and gives their number.
    ///
    /// # Errors
    ///
    /// [`SinkFault`] where the sink could not be written: it raised its count of faults and took nothing.
    fn write(&mut self, bytes: &[u8]) -> Result<usize, SinkFault>
        ensures within { IsWithin result bytes.now }
        ensures some { TakesSome result bytes.now }
        ensures bytes { WriteTakes (taken self.old) (taken self.new) result bytes.now }
        ensures later { faults self.old ≤ faults self.new }
        ensures cause { OnErr result (HasFailed (faults self.old) (faults self.new)) };
}

/// A sink in memory, which takes each write whole and never fails. It holds what comes first, up to its room,
/// and tells what it took until more comes.
pub struct SureSink {
    held: Vec<u8>,
    room: usize,
    is_past_room: bool,
    ghost fits: { vec_len held ≤ room },
    ghost reserved: { room ≤ vec_capacity held },
}

impl Drop for SureSink {
    fn drop(self) {
        let SureSink {
            held: _,
            room: _,
            is_past_room: _,
        } = self;
    }
}

impl SureSink {
    /// An empty sink with room for `room` bytes.
    ///
    /// # Errors
    ///
    /// [`Memory`] where that room could not be had.
    pub fn new(alloc: Global, room: usize) -> Result<SureSink, Memory>
        ensures { IfOk result (λ sink.
            ⟦<SureSink as Sink>⟧.taken sink ≡ Some (record { bytes = []; room = room })) }
    {
        Ok(SureSink {
            held: Vec::with_capacity(alloc, room)?,
            room,
            is_past_room: false,
        })
    }

    /// Whether the sink holds all that it took.
    pub fn is_whole(&self) -> bool
        ensures { IsTrue result ↔ IsSome (⟦<SureSink as Sink>⟧.taken self.now) }
    {
        !self.is_past_room
    }

    /// What the sink holds: all that it took, up to its room.
    pub fn written(&self) -> &[u8]
        ensures { IfSome (⟦<SureSink as Sink>⟧.taken self.now) (λ told. result.now ≡ told.bytes) }
    {
        self.held.as_slice()
    }
}

impl Sink for SureSink {
    ghost taken = { λ sink. if sink.is_past_room then None
        else Some (record { bytes = sink.held.items; room = sink.room - vec_len sink.held }) };

    ghost faults = { λ _. 0 };

    fn write(&mut self, bytes: &[u8]) -> Result<usize, SinkFault> {
        let count = bytes.len().min(self.room - self.held.len());
        if self.held.extend_from_slice(&bytes[..count]).is_err() || count < bytes.len() {
            self.is_past_room = true;
        }
        Ok(bytes.len())
    }
}

/// A sink over a writer of std, which it flushes at each write. It tells no bytes, and counts each write that
/// fails, takes nothing or could not be flushed.
#[derive(Drop)]
pub struct WriterSink<W: Write> {
    writer: W,
    faults: u64,
}

impl<W: Write> WriterSink<W> {
    /// A sink that hands what it takes to `writer`, with no fault counted.
    pub fn new(writer: W) -> WriterSink<W>
        ensures { ⟦<WriterSink<W> as Sink>⟧.faults result ≡ 0 }
    {
        WriterSink { writer, faults: 0 }
    }
}

impl<W: Write> Sink for WriterSink<W> {
    ghost taken = { λ _. None };

    ghost faults = { λ sink. sink.faults };

    fn write(&mut self, bytes: &[u8]) -> Result<usize, SinkFault>
        ensures within { IsWithin result bytes.now }
        ensures some { TakesSome result bytes.now }
        ensures bytes { WriteTakes None None result bytes.now }
        ensures later { self.old.faults ≤ self.new.faults }
        ensures cause { OnErr result (HasFailed self.old.faults self.new.faults) }
        // Nothing else is counted.
        ensures exact { Counts self.old.faults self.new.faults result }
    {
        match write_some(&mut self.writer, bytes) {
            Ok(count) => Ok(count),
            Err(_) => {
                self.faults = self.faults.saturating_add(1);
                Err(SinkFault)
            }
        }
    }
}

// Writes and flushes. A write that a signal interrupted is tried again.
fn write_some<W: Write>(writer: &mut W, bytes: &[u8]) -> io::Result<usize>
    ensures within { IsWithin result bytes.now }
    ensures some { TakesSome result bytes.now }
{
    for _ in 0..u64::MAX {
        match writer.write(bytes) {
            Ok(0) if !bytes.is_empty() => break,
            Ok(count) => {
                writer.flush()?;
                return Ok(count);
            }
            Err(error) if error.kind() == ErrorKind::Interrupted => {}
            Err(error) => return Err(error),
        }
    }
    Err(io::Error::from(ErrorKind::WriteZero))
}
