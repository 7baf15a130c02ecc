//! The program: its words, its input, its reply.

ghost use Rattle.std.specs.Prelude.{◌≡◌, ◌≢◌, ◌⊎◌, ◌↔◌, None};
ghost use Rattle.jb_io.specs.Run.{IsServed};
ghost use Rattle.jb_tool.specs.Program.{IsLong, usage};
ghost use Rattle.jb_tool.specs.Reply.{Prints, Refuses};
ghost use Rattle.jb_tool.specs.Style.{style_asked};

use crate::style::style_asked;
use jb_io::{Sink, Source, SureSink, SureSource, serve};
pub use jb_io::{ANSWERED, MISUSED, NO_MEMORY, REFUSED, SINK_FAILED, SOURCE_FAILED, TOO_LONG};
use std::alloc::Global;

const USAGE: &str = "usage: jb_program compact | pretty\n";

/// Runs the program over `words`, its arguments without its own name, and gives its exit status, from [`ANSWERED`]
/// to [`TOO_LONG`].
///
/// The words are looked at first, then `source` is read to its end, then its one JSON text (RFC 8259, section 2) is
/// read, then its value is written in the style that the words ask for, with one LF. The fault of an input that is
/// no such text and the usage line go to `sink` too.
pub fn run<S: Source, K: Sink>(alloc: Global, words: &[String], source: &mut S, sink: &mut K) -> u8
    ensures { IsServed Prints (λ _. Refuses) S.left S.faults K.taken K.faults (style_asked words.now) usage
        source.old source.new sink.old sink.new result }
{
    serve(alloc, style_asked(words), USAGE, source, sink)
}

/// [`run`] in memory, where neither reading nor writing fails: the status is never [`SOURCE_FAILED`] or
/// [`SINK_FAILED`].
pub fn run_in_memory(
    alloc: Global,
    words: &[String],
    source: &mut SureSource,
    sink: &mut SureSink,
) -> u8
    ensures served { IsServed Prints (λ _. Refuses) (⟦<SureSource as Source>⟧.left) (⟦<SureSource as Source>⟧.faults)
        (⟦<SureSink as Sink>⟧.taken) (⟦<SureSink as Sink>⟧.faults) (style_asked words.now) usage
        source.old source.new sink.old sink.new result }
    ensures read { result ≢ SOURCE_FAILED }
    ensures written { result ≢ SINK_FAILED }
    ensures misused { result ≡ MISUSED ↔ style_asked words.now ≡ None }

    // A long input is refused, and no other.
    ensures long { result ≡ TOO_LONG → IsLong (⟦<SureSource as Source>⟧.left source.old) }
    ensures too_long { style_asked words.now ≢ None → IsLong (⟦<SureSource as Source>⟧.left source.old)
        → (result ≡ TOO_LONG) ⊎ (result ≡ NO_MEMORY) }
{
    run(alloc, words, source, sink)
}
