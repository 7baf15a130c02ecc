//! The program: its words, its input and its output.

ghost use Rattle.std.specs.Prelude.{map, string_bytes};
ghost use Rattle.gql_cost.specs.Program.{Runs};

use crate::words::limit_asked;
use gql_engine::serving::serve_requests_uncounted;
use jb_io::{Sink, Source};
use std::alloc::Global;

const USAGE: &str = "usage: gql_cost ITEMS LIMIT\n";

/// Runs the program over `words`, its arguments without its own name, and gives its exit status. The words are two numbers from 0
/// to 4294967295 in decimal without a leading zero: how many items lists are taken to have, and how many nodes a response may have.
///
/// They are looked at first, then `source` is read to its end, then all is computed, then it is written. The input is a request as
/// [`gql_engine::run`] reads it. It is answered as there, but a request whose cost is above the limit is refused before it is
/// executed, with the message `cost above limit`, once its variables are coerced. So where no list has more items than the first
/// word says, no response has more nodes than the second.
///
/// The status is
///
/// - [`ANSWERED`](crate::ANSWERED) where the response was written whole;
/// - [`REFUSED`](crate::REFUSED) where a refusal was written whole in its place;
/// - [`MISUSED`](crate::MISUSED) exactly where the words are no two such numbers, unless the sink fails: the usage line was written;
/// - [`NO_MEMORY`](crate::NO_MEMORY) when out of memory, [`SOURCE_FAILED`](crate::SOURCE_FAILED) where the source failed, and
///   [`TOO_LONG`](crate::TOO_LONG) exactly where it has more than 16,777,216 bytes: nothing was written;
/// - [`SINK_FAILED`](crate::SINK_FAILED) where the sink failed, which has then taken a beginning of the output at most.
pub fn run_cost<S: Source, K: Sink>(
    alloc: Global,
    words: &[String],
    source: &mut S,
    sink: &mut K,
) -> u8
    ensures { Runs S.left S.faults K.taken K.faults (map string_bytes words.now) source.old source.new sink.old sink.new result }
{
    serve_requests_uncounted(alloc, limit_asked(words), USAGE, source, sink)
}
