//! The program: its words, its input and its output.

ghost use Rattle.std.specs.Prelude.{◌≡◌, ◌≢◌, ◌≤◌, ◌⊎◌, ℕ, map, string_bytes};
ghost use Rattle.gql_engine.specs.Program.{BreaksOff, IsInput, IsLong, MustDo, MustRefuse, Writes, usage};
ghost use Rattle.gql_engine.specs.bridge.Program.{IsTested};
ghost use Rattle.gql_engine.specs.Output.{IsDone, IsRefused};
ghost use Rattle.gql_engine.specs.Task.{Asks, IsNoCommand, ReadsInput};
ghost use Rattle.gql_engine.specs.declared.task.Wish.{Wish as WishAsked};
ghost use Rattle.gql_engine.specs.declared.task.Task.TheVariants as tasks;
ghost use Rattle.jb_io.specs.Sink.{Takes, TakesFront};
ghost use Rattle.jb_io.specs.Source.{GivesAtMost, GivesMore};
ghost use Rattle.jb_io.specs.Stream.{HasFailed};

use crate::request_serving::serve_requests;
use crate::self_test::self_test;
use crate::task::{Task, Wish, task_asked};
use gql_collect::Steps;
use jb_io::{
    ANSWERED, MISUSED, NO_MEMORY, REFUSED, SINK_FAILED, SOURCE_FAILED, Sink, SinkFault, Source,
    SureSink, SureSource, TOO_LONG, write_all,
};
use std::alloc::Global;
use std::sync::ledger::Ledger;

const USAGE: &str = "usage: gql_program answer | check | selftest N\n";

/// Runs the program over `words`, its arguments without its own name, and gives its exit status. A request is a JSON text
/// (RFC 8259), and its answer is a response (GraphQL October 2021, sections 6 and 7).
///
/// The words are `answer`, `check`, or `selftest` and a number of at most 100000 in decimal. They are looked at first, then
/// `source` is read to its end, then all is computed, then it is written. `answer` writes the response to the request that was
/// read; `check` writes `ok`, or the reports of what is wrong with the request's texts; `selftest` reads nothing, answers a
/// request of its own, and writes how many bytes the response has, and how many errors. Refusals, reports and the usage line go to
/// `sink` too. `steps` counts the looks at selections, of the depth check and of the execution: those for an answer are one or
/// more, and those for a self-test at most nine.
///
/// The status is
///
/// - [`ANSWERED`] where the output was written whole;
/// - [`REFUSED`] where a refusal, or for `check` a list of reports, was written whole in its place;
/// - [`MISUSED`] exactly where the words are none of these, unless the sink fails: the usage line was written;
/// - [`NO_MEMORY`] when out of memory, [`SOURCE_FAILED`] where the source failed, and [`TOO_LONG`] exactly where it has more than
///   16,777,216 bytes: nothing was written;
/// - [`SINK_FAILED`] where the sink failed, which has then taken a beginning of the output at most.
pub fn run<S: Source, K: Sink, L: Ledger>(
    alloc: Global,
    words: &[String],
    source: &mut S,
    sink: &mut K,
    steps: &mut Steps<L>,
) -> u8
    ensures statuses { result ≤ TOO_LONG }

    // The words.
    ensures misused { result ≡ MISUSED
        → IsNoCommand (map string_bytes words.now) × Takes (K.taken sink.old) (K.taken sink.new) usage }
    ensures unasked { IsNoCommand (map string_bytes words.now) → (result ≡ MISUSED)
        ⊎ ((result ≡ SINK_FAILED) × TakesFront (K.taken sink.old) (K.taken sink.new) usage) }
    ensures unread { ¬ ReadsInput (map string_bytes words.now) → source.new ≡ source.old }

    // The output.
    ensures answered { result ≡ ANSWERED → Writes (λ task. IsDone task steps.old steps.new) (map string_bytes words.now)
        (S.left source.old) (S.left source.new) (K.taken sink.old) (K.taken sink.new) }
    ensures refused { result ≡ REFUSED → Writes IsRefused (map string_bytes words.now)
        (S.left source.old) (S.left source.new) (K.taken sink.old) (K.taken sink.new) }
    ensures nothing_written { (result ≡ NO_MEMORY) ⊎ ((result ≡ SOURCE_FAILED) ⊎ (result ≡ TOO_LONG))
        → sink.new ≡ sink.old }

    // The causes.
    ensures source_failed { result ≡ SOURCE_FAILED
        → ReadsInput (map string_bytes words.now) × HasFailed (S.faults source.old) (S.faults source.new) }
    ensures too_long { result ≡ TOO_LONG
        → ReadsInput (map string_bytes words.now) × GivesMore (S.left source.old) (S.left source.new) }
    ensures within { result ≢ TOO_LONG → ReadsInput (map string_bytes words.now)
        → GivesAtMost (S.left source.old) (S.left source.new) }
    ensures sink_failed { result ≡ SINK_FAILED → HasFailed (K.faults sink.old) (K.faults sink.new) }
    ensures broken_off { result ≡ SINK_FAILED → ¬ IsNoCommand (map string_bytes words.now)
        → BreaksOff (λ task. IsDone task steps.old steps.new) IsRefused (map string_bytes words.now)
        (S.left source.old) (S.left source.new) (K.taken sink.old) (K.taken sink.new) }

    // What is wished of a request is done where nothing is in its way, and it is refused where there is a cause, unless memory,
    // the source or the sink fails. A self-test is done unless memory or the sink fails.
    ensures done { (wish : WishAsked) → Asks (map string_bytes words.now) (tasks.Request wish)
        → IsInput (MustDo wish) (S.left source.old)
        → (result ≡ ANSWERED) ⊎ ((result ≡ NO_MEMORY) ⊎ ((result ≡ SOURCE_FAILED) ⊎ (result ≡ SINK_FAILED))) }
    ensures caused { (wish : WishAsked) → Asks (map string_bytes words.now) (tasks.Request wish)
        → IsInput (MustRefuse wish) (S.left source.old)
        → (result ≡ REFUSED) ⊎ ((result ≡ NO_MEMORY) ⊎ ((result ≡ SOURCE_FAILED) ⊎ (result ≡ SINK_FAILED))) }
    ensures self_tested { (items : ℕ) → Asks (map string_bytes words.now) (tasks.SelfTest items)
        → (result ≡ ANSWERED) ⊎ ((result ≡ NO_MEMORY) ⊎ (result ≡ SINK_FAILED)) }
{
    match task_asked(words) {
        Some(Task::Request(wish)) => {
            serve_requests(alloc, Some(wish), USAGE, source, sink, steps)
        }
        Some(Task::SelfTest { items }) => run_self_test(alloc, items, sink, steps),
        None => serve_requests::<Wish, S, K, L>(alloc, None, USAGE, source, sink, steps),
    }
}

/// [`run`] in memory, where neither reading nor writing fails: the status is never [`SOURCE_FAILED`] or [`SINK_FAILED`], it is
/// [`MISUSED`] exactly where the words are no command, and [`TOO_LONG`] only where the source has more than 16,777,216 bytes.
pub fn run_in_memory<L: Ledger>(
    alloc: Global,
    words: &[String],
    source: &mut SureSource,
    sink: &mut SureSink,
    steps: &mut Steps<L>,
) -> u8
    ensures statuses { result ≤ TOO_LONG }
    ensures read { result ≢ SOURCE_FAILED }
    ensures written { result ≢ SINK_FAILED }

    // The words.
    ensures misused { result ≡ MISUSED → IsNoCommand (map string_bytes words.now)
        × Takes (⟦<SureSink as Sink>⟧.taken sink.old) (⟦<SureSink as Sink>⟧.taken sink.new) usage }
    ensures unasked { IsNoCommand (map string_bytes words.now) → result ≡ MISUSED }
    ensures unread { ¬ ReadsInput (map string_bytes words.now) → source.new ≡ source.old }

    // The output.
    ensures answered { result ≡ ANSWERED → Writes (λ task. IsDone task steps.old steps.new) (map string_bytes words.now)
        (⟦<SureSource as Source>⟧.left source.old) (⟦<SureSource as Source>⟧.left source.new)
        (⟦<SureSink as Sink>⟧.taken sink.old) (⟦<SureSink as Sink>⟧.taken sink.new) }
    ensures refused { result ≡ REFUSED → Writes IsRefused (map string_bytes words.now)
        (⟦<SureSource as Source>⟧.left source.old) (⟦<SureSource as Source>⟧.left source.new)
        (⟦<SureSink as Sink>⟧.taken sink.old) (⟦<SureSink as Sink>⟧.taken sink.new) }
    ensures nothing_written { (result ≡ NO_MEMORY) ⊎ (result ≡ TOO_LONG) → sink.new ≡ sink.old }

    // A long input is refused, and no other.
    ensures long { result ≡ TOO_LONG → IsLong (⟦<SureSource as Source>⟧.left source.old) }
    ensures too_long { ReadsInput (map string_bytes words.now) → IsLong (⟦<SureSource as Source>⟧.left source.old)
        → (result ≡ TOO_LONG) ⊎ (result ≡ NO_MEMORY) }
    ensures long_read { result ≡ TOO_LONG → ReadsInput (map string_bytes words.now)
        × GivesMore (⟦<SureSource as Source>⟧.left source.old) (⟦<SureSource as Source>⟧.left source.new) }
    ensures within { result ≢ TOO_LONG → ReadsInput (map string_bytes words.now)
        → GivesAtMost (⟦<SureSource as Source>⟧.left source.old) (⟦<SureSource as Source>⟧.left source.new) }

    // What is wished of a request is done where nothing is in its way, and it is refused where there is a cause, unless memory
    // fails. A self-test is done unless memory fails.
    ensures done { (wish : WishAsked) → Asks (map string_bytes words.now) (tasks.Request wish)
        → IsInput (MustDo wish) (⟦<SureSource as Source>⟧.left source.old)
        → (result ≡ ANSWERED) ⊎ (result ≡ NO_MEMORY) }
    ensures caused { (wish : WishAsked) → Asks (map string_bytes words.now) (tasks.Request wish)
        → IsInput (MustRefuse wish) (⟦<SureSource as Source>⟧.left source.old)
        → (result ≡ REFUSED) ⊎ (result ≡ NO_MEMORY) }
    ensures self_tested { (items : ℕ) → Asks (map string_bytes words.now) (tasks.SelfTest items)
        → (result ≡ ANSWERED) ⊎ (result ≡ NO_MEMORY) }
{
    run(alloc, words, source, sink, steps)
}

/// The run of a self-test, which reads nothing.
fn run_self_test<K: Sink, L: Ledger>(
    alloc: Global,
    items: u32,
    sink: &mut K,
    steps: &mut Steps<L>,
) -> u8
    ensures { IsTested items steps.old steps.new (K.taken sink.old) (K.taken sink.new) (K.faults sink.old) (K.faults sink.new) (sink.new ≡ sink.old) result }
{
    let Ok(line) = self_test(alloc, items, steps) else {
        return NO_MEMORY;
    };
    match write_all(sink, line.as_slice()) {
        Ok(()) => ANSWERED,
        Err(SinkFault) => SINK_FAILED,
    }
}
