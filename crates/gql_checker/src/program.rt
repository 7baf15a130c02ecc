//! The program: its words, its input and its output.

ghost use Rattle.std.specs.Prelude.{ℕ};
ghost use Rattle.gql_checker.specs.Program as spec;
ghost use Rattle.gql_engine.specs.Serving.{AnswersBytes, IsServed, MustAnswerBytes, MustRefuseBytes, MustServe, RefusesBytes};

use crate::command::check_asked;
use gql_engine::serving::serve_requests_uncounted;
use jb_io::{ANSWERED, REFUSED, Sink, Source};
use std::alloc::Global;

const USAGE: &str = "usage: gql_checker\n";

/// Runs the program over `words`, its arguments without its own name, and gives its exit status. There are no words.
///
/// They are looked at first, then `source` is read to its end, then all is computed, then it is written. The input is a request as
/// [`gql_engine::run`] reads it, with a further member `response`, the text of what is said to be its response, which is looked at
/// last. It is refused as there; else one line tells the verdict on the response, by the request's data: `explained`,
/// `not a response`, `false error INDEX` with the error's place in the list, from 0, or `bad value at PATH` with a list of JSON.
///
/// The status is
///
/// - [`ANSWERED`](crate::ANSWERED) where `explained` was written whole;
/// - [`REFUSED`](crate::REFUSED) where another verdict or a refusal was written whole in its place;
/// - [`MISUSED`](crate::MISUSED) exactly where there are words, unless the sink fails: the usage line was written;
/// - [`NO_MEMORY`](crate::NO_MEMORY) when out of memory, [`SOURCE_FAILED`](crate::SOURCE_FAILED) where the source failed, and
///   [`TOO_LONG`](crate::TOO_LONG) exactly where it has more than 16,777,216 bytes: nothing was written;
/// - [`SINK_FAILED`](crate::SINK_FAILED) where the sink failed, which has then taken a beginning of the output at most.
pub fn run_checker<S: Source, K: Sink>(
    alloc: Global,
    words: &[String],
    source: &mut S,
    sink: &mut K,
) -> u8
    ensures served { (before after : ℕ) × IsServed (AnswersBytes spec.with_response spec.CountedAnswers before after)
        (RefusesBytes spec.with_response spec.CheckRefuses) S.left S.faults K.taken K.faults (spec.check_asked words.now) spec.usage
        source.old source.new sink.old sink.new result }

    // A request with an explained response gets that verdict, and one with another verdict or a cause of a refusal does not, unless
    // memory, the source or the sink fails.
    ensures done { MustServe (MustAnswerBytes spec.with_response spec.CheckMust) (spec.check_asked words.now) (S.left source.old) ANSWERED result }
    ensures caused { MustServe (MustRefuseBytes spec.with_response spec.CheckMustNot) (spec.check_asked words.now) (S.left source.old) REFUSED result }
{
    serve_requests_uncounted(alloc, check_asked(words), USAGE, source, sink)
}
