//! The program over any source and sink.

ghost use Rattle.jb_io.specs.Run.{IsServed};
ghost use Rattle.gql_syntax_tool.specs.Reply.{Accepts, Refuses, usage};
ghost use Rattle.gql_syntax_tool.specs.Start.{start_asked};

use crate::start::start_asked;
use jb_io::{Sink, Source, serve};
pub use jb_io::{ANSWERED, MISUSED, NO_MEMORY, REFUSED, SINK_FAILED, SOURCE_FAILED, TOO_LONG};
use std::alloc::Global;

const USAGE: &str = "usage: gql_syntax_program document | selection_set | type\n";

/// Runs the program over `words`, its arguments without its own name, and gives its exit status, from [`ANSWERED`]
/// to [`TOO_LONG`].
///
/// The words are looked at first, then `source` is read to its end, then its bytes are read as what the words name, nested
/// at most 500. The number of tokens and the nesting of a sentence are written as one line, and so is the first fault of
/// bytes that are none, and the usage line.
pub fn run<S: Source, K: Sink>(alloc: Global, words: &[String], source: &mut S, sink: &mut K) -> u8
    ensures { IsServed Accepts Refuses S.left S.faults K.taken K.faults (start_asked words.now) usage
        source.old source.new sink.old sink.new result }
{
    serve(alloc, start_asked(words), USAGE, source, sink)
}
