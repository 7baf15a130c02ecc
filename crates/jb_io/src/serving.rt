//! The run of a program: its words, its input, its reply.

ghost use Rattle.std.specs.Prelude.{◌≡◌, ℕ, List, Some};
ghost use Rattle.jb_io.specs.bridge.Reply.{status_of};
ghost use Rattle.jb_io.specs.Run.{IsServed};

use crate::command::{Command, Reply};
use crate::sink::{Sink, SinkFault};
use crate::source::Source;
use crate::stream::{InputFault, read_to_end, write_all};
use jb_tree::Refused;
use std::alloc::Global;

/// The status where what was asked for was written.
pub const ANSWERED: u8 = 0;

/// The status where it was written why the input is refused.
pub const REFUSED: u8 = 1;

/// The status where the words are no command, and the usage line was written.
pub const MISUSED: u8 = 2;

/// The status when out of memory. Nothing was written.
pub const NO_MEMORY: u8 = 3;

/// The status where the source could not be read. Nothing was written.
pub const SOURCE_FAILED: u8 = 4;

/// The status where the sink could not be written. It took only the first of the output.
pub const SINK_FAILED: u8 = 5;

/// The status where the source gave more than [`INPUT_LIMIT`](crate::INPUT_LIMIT) bytes. Nothing was written.
pub const TOO_LONG: u8 = 6;

/// Serves what the words `asked` for, and gives the exit status, from [`ANSWERED`] to [`TOO_LONG`].
///
/// Where they asked for nothing, `usage` is written as it stands, and the source is not read. Else `source` is read to its
/// end, then the reply is computed, then it is written with one LF. Refusals and the usage go to `sink` too. The status is
/// [`TOO_LONG`] exactly where the source gave more than [`INPUT_LIMIT`](crate::INPUT_LIMIT) bytes.
pub fn serve<C: Command + Copy, S: Source, K: Sink>(
    alloc: Global,
    asked: Option<C>,
    usage: &str,
    source: &mut S,
    sink: &mut K,
) -> u8
    ensures { IsServed C.answers C.refuses S.left S.faults K.taken K.faults asked usage.now
        source.old source.new sink.old sink.new result }
{
    match asked {
        Some(command) => serve_command(alloc, &command, source, sink),
        None => match write_all(sink, usage.as_bytes()) {
            Ok(()) => MISUSED,
            Err(SinkFault) => SINK_FAILED,
        },
    }
}

// The run where the words ask for `command`. No usage is written.
fn serve_command<C: Command, S: Source, K: Sink>(
    alloc: Global,
    command: &C,
    source: &mut S,
    sink: &mut K,
) -> u8
    ensures { (usage : List ℕ) → IsServed C.answers C.refuses S.left S.faults K.taken K.faults (Some command.now) usage
        source.old source.new sink.old sink.new result }
{
    let bytes = match read_to_end(alloc, source) {
        Ok(bytes) => bytes,
        Err(Refused::Memory) => return NO_MEMORY,
        Err(Refused::Fault(InputFault::SourceFailed)) => return SOURCE_FAILED,
        Err(Refused::Fault(InputFault::TooLong)) => return TOO_LONG,
    };
    let Ok(reply) = command.reply(alloc, &bytes) else {
        return NO_MEMORY;
    };
    let status = status_of(&reply);
    let Ok(line) = reply.into_line(alloc) else {
        return NO_MEMORY;
    };
    match write_all(sink, line.as_slice()) {
        Ok(()) => status,
        Err(SinkFault) => SINK_FAILED,
    }
}

fn status_of(reply: &Reply) -> u8
    ensures { result ≡ status_of reply.now }
{
    match reply {
        Reply::Answer(_) => ANSWERED,
        Reply::Refusal(_) => REFUSED,
    }
}
