//! The program: its words, its input and its output.

ghost use Rattle.std.specs.Prelude.{ℕ};
ghost use Rattle.gql_engine.specs.Serving.{AnswersBytes, IsServed, MustAnswerBytes, MustRefuseBytes, MustServe, RefusesBytes};
ghost use Rattle.gql_gateway.specs.Program as spec;

use crate::command::gateway_asked;
use gql_engine::serving::serve_requests_uncounted;
use jb_io::{ANSWERED, REFUSED, Sink, Source};
use std::alloc::Global;

const USAGE: &str = "usage: gql_gateway\n";

/// Runs the program over `words`, its arguments without its own name, and gives its exit status. There are no words.
///
/// They are looked at first, then `source` is read to its end, then all is computed, then it is written. The input is a request as
/// [`gql_engine::run`] reads it. It is answered as there with introspection on, whatever it says of that, by a gateway whose remote
/// executes on the request's data; where the operation has more than 100,000 selections it is refused with the message
/// `gateway: expansion too large`, once its variables are coerced.
///
/// The status is
///
/// - [`ANSWERED`](crate::ANSWERED) where the response was written whole;
/// - [`REFUSED`](crate::REFUSED) where a refusal was written whole in its place;
/// - [`MISUSED`](crate::MISUSED) exactly where there are words, unless the sink fails: the usage line was written;
/// - [`NO_MEMORY`](crate::NO_MEMORY) when out of memory, [`SOURCE_FAILED`](crate::SOURCE_FAILED) where the source failed, and
///   [`TOO_LONG`](crate::TOO_LONG) exactly where it has more than 16,777,216 bytes: nothing was written;
/// - [`SINK_FAILED`](crate::SINK_FAILED) where the sink failed, which has then taken a beginning of the output at most.
pub fn run_gateway<S: Source, K: Sink>(
    alloc: Global,
    words: &[String],
    source: &mut S,
    sink: &mut K,
) -> u8
    ensures served { (before after : ℕ) × IsServed (AnswersBytes spec.plain_form spec.CountedAnswers before after)
        (RefusesBytes spec.plain_form spec.GatewayRefuses) S.left S.faults K.taken K.faults (spec.gateway_asked words.now) spec.usage
        source.old source.new sink.old sink.new result }

    // A request that nothing is in the way of is answered, and one that something is in the way of is refused, unless memory, the
    // source or the sink fails.
    ensures done { MustServe (MustAnswerBytes spec.plain_form spec.GatewayMust) (spec.gateway_asked words.now) (S.left source.old) ANSWERED result }
    ensures caused { MustServe (MustRefuseBytes spec.plain_form spec.GatewayMustNot) (spec.gateway_asked words.now) (S.left source.old) REFUSED result }
{
    serve_requests_uncounted(alloc, gateway_asked(words), USAGE, source, sink)
}
