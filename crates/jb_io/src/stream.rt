//! Reading a source to its end, and writing all of some bytes.

ghost use Rattle.std.specs.Prelude.{◌≡◌, ◌≢◌, ◌<◌, ◌≤◌, length, Err, IfOk, OnOk, OnErr};
ghost use Rattle.jb_io.specs.Sink.{Takes, TakesFront};
ghost use Rattle.jb_io.specs.Source.{GivesAtMost, GivesMore, ReadsWhole};
ghost use Rattle.jb_io.specs.Stream.{HasFailed};
ghost use Rattle.jb_io.specs.declared.stream.InputFault.TheVariants.{SourceFailed};
ghost use Rattle.jb_text.specs.declared.refused.Refused.TheVariants.{Fault};

use crate::sink::{Sink, SinkFault};
use crate::source::{Source, SourceFault};
use bytes::Bytes;
use jb_tree::{Memory, Refused};
use std::alloc::Global;
use thiserror::Error;

/// How many bytes a source may give to [`read_to_end`]: 16 MiB.
pub const INPUT_LIMIT: usize = 16_777_216;

// How many bytes one read asks for.
const PIECE: usize = 65_536;

/// Why a source gave no whole input.
#[derive(Clone, Copy, Debug, PartialEq, Eq, Error)]
pub enum InputFault {
    /// It gave more than [`INPUT_LIMIT`] bytes.
    #[error("the source gave more than {INPUT_LIMIT} bytes")]
    TooLong,
    /// It could not be read.
    #[error("the source could not be read")]
    SourceFailed,
}

impl From<SourceFault> for Refused<InputFault> {
    ghost from_gives = { λ _ refused. refused ≡ Fault SourceFailed };

    fn from(_fault: SourceFault) -> Refused<InputFault> {
        Refused::Fault(InputFault::SourceFailed)
    }
}

/// Reads `source` to its end, and gives the bytes.
///
/// # Errors
///
/// - [`InputFault::TooLong`] exactly where the source gave more than [`INPUT_LIMIT`] bytes.
/// - [`InputFault::SourceFailed`] where a read failed: the source's count of faults rose in this call.
/// - [`Refused::Memory`] where the bytes could not be held.
///
/// What was read before an error is lost.
pub fn read_to_end<S: Source>(alloc: Global, source: &mut S) -> Result<Bytes, Refused<InputFault>>
    ensures whole { IfOk result (ReadsWhole (S.left source.old) (S.left source.new)) }
    ensures too_long { result ≡ Err (Refused.Fault InputFault.TooLong)
        → GivesMore (S.left source.old) (S.left source.new) }
    ensures within { result ≢ Err (Refused.Fault InputFault.TooLong)
        → GivesAtMost (S.left source.old) (S.left source.new) }
    ensures failed { result ≡ Err (Refused.Fault InputFault.SourceFailed)
        → HasFailed (S.faults source.old) (S.faults source.new) }
    ensures later { S.faults source.old ≤ S.faults source.new }
{
    let mut piece = [0; PIECE];
    read_in_pieces(alloc, source, &mut piece)
}

// The same, with room for each piece that is read.
fn read_in_pieces<S: Source>(
    alloc: Global,
    source: &mut S,
    piece: &mut [u8],
) -> Result<Bytes, Refused<InputFault>>
    requires { 0 < length piece.old }
    ensures whole { IfOk result (ReadsWhole (S.left source.old) (S.left source.new)) }
    ensures too_long { result ≡ Err (Refused.Fault InputFault.TooLong)
        → GivesMore (S.left source.old) (S.left source.new) }
    ensures within { result ≢ Err (Refused.Fault InputFault.TooLong)
        → GivesAtMost (S.left source.old) (S.left source.new) }
    ensures failed { result ≡ Err (Refused.Fault InputFault.SourceFailed)
        → HasFailed (S.faults source.old) (S.faults source.new) }
    ensures later { S.faults source.old ≤ S.faults source.new }
{
    let mut bytes = Vec::new(alloc);
    loop {
        let count = source.read(piece)?;
        if count == 0 {
            return Ok(Bytes::from_vec(bytes).map_err(Memory::from)?);
        }
        if count > INPUT_LIMIT - bytes.len() {
            return Err(Refused::Fault(InputFault::TooLong));
        }
        bytes.extend_from_slice(&piece[..count])?;
    }
}

/// Writes all of `bytes` to `sink`. Each write is handed all that is left.
///
/// # Errors
///
/// [`SinkFault`] where a write failed: the sink's count of faults rose in this call. It took only the first of the bytes.
pub fn write_all<K: Sink>(sink: &mut K, bytes: &[u8]) -> Result<(), SinkFault>
    ensures whole { OnOk result (Takes (K.taken sink.old) (K.taken sink.new) bytes.now) }
    ensures front { OnErr result (TakesFront (K.taken sink.old) (K.taken sink.new) bytes.now) }
    ensures later { K.faults sink.old ≤ K.faults sink.new }
    ensures cause { OnErr result (HasFailed (K.faults sink.old) (K.faults sink.new)) }
{
    let mut at = 0;
    while at < bytes.len() {
        at += sink.write(&bytes[at..])?;
    }
    Ok(())
}
