//! The program: an answer on its input, the schema's text on its output.

ghost use Rattle.jb_io.specs.Run.{IsServed};
ghost use Rattle.gql_client_schema.specs.Program.{Prints, Refuses, printing_asked, usage};

use crate::reply::printing_asked;
use jb_io::{Sink, Source, serve};
pub use jb_io::{ANSWERED, MISUSED, NO_MEMORY, REFUSED, SINK_FAILED, SOURCE_FAILED, TOO_LONG};
use std::alloc::Global;

const USAGE: &str = "usage: gql_client_schema\n";

/// Runs the program over `words`, its arguments without its own name, and gives its exit status, from [`ANSWERED`] to [`TOO_LONG`].
///
/// There are no words. `source` is read to its end, as an answer to [`FULL_QUERY`](crate::FULL_QUERY). What is made of it by
/// [`client_schema`](crate::client_schema) is written: the text of the schema, and behind it the line `# introspection differs` where the
/// schema does not give the data of the answer again; or why there is none.
pub fn run_client_schema<S: Source, K: Sink>(
    alloc: Global,
    words: &[String],
    source: &mut S,
    sink: &mut K,
) -> u8
    ensures { IsServed (λ _. Prints) (λ _. Refuses) S.left S.faults K.taken K.faults (printing_asked words.now) usage
        source.old source.new sink.old sink.new result }
{
    serve(alloc, printing_asked(words), USAGE, source, sink)
}
