//! The run of a program that reads requests: its words, its input, its output.

ghost use Rattle.std.specs.Prelude.{◌≡◌, ◌<◌, ℕ, List, Some, IfOk};
ghost use Rattle.gql_engine.specs.NotAsked.{read_message as message_of};
ghost use Rattle.gql_engine.specs.Request.{fault_message};
ghost use Rattle.gql_engine.specs.declared.output.Output.TheVariants as outputs;
ghost use Rattle.gql_engine.specs.Serving.{AnswersBytes, IsDoneOutput, IsOutput, IsRefusedOutput, IsServed, MustAnswerBytes, MustRefuseBytes, MustServe, RefusesBytes, message_line};

use crate::output::{Output, refused_with};
use crate::request_command::RequestCommand;
use crate::request_form::{RequestFault, decode};
use crate::request_laws;
use crate::request_reading::read_message;
use bytes::Bytes;
use gql_collect::Steps;
use jb_io::{
    ANSWERED, InputFault, MISUSED, NO_MEMORY, REFUSED, SINK_FAILED, SOURCE_FAILED, Sink, SinkFault,
    Source, TOO_LONG, read_to_end, write_all,
};
use jb_read::{ReadFault, from_bytes_whole};
use jb_tree::{Memory, Refused};
use std::alloc::{AllocError, Global};
use std::marker::Brand;
use std::sync::ledger::{Blank, Ledger};

/// Serves what the words `asked` for, and gives the exit status, from [`ANSWERED`] to [`TOO_LONG`].
///
/// Where they asked for nothing, `usage` is written as it stands, and the source is not read. Else `source` is read to its end, then
/// its bytes are read as a request of the command's form, then the command's output is computed, then it is written. Refusals go to
/// `sink` too: that bytes are no request is told as [`run`](crate::run) tells it. `steps` counts the looks that the command counts.
///
/// The status is [`ANSWERED`] or [`REFUSED`] where the output was written whole, [`MISUSED`] where the usage was, [`NO_MEMORY`] when
/// out of memory, [`SOURCE_FAILED`] where the source failed, [`TOO_LONG`] exactly where it gave more than
/// [`INPUT_LIMIT`](jb_io::INPUT_LIMIT) bytes, and [`SINK_FAILED`] where the sink failed, which has then taken a beginning of the
/// output at most. With the three before it nothing was written.
pub fn serve_requests<C: RequestCommand + Copy, S: Source, K: Sink, L: Ledger>(
    alloc: Global,
    asked: Option<C>,
    usage: &str,
    source: &mut S,
    sink: &mut K,
    steps: &mut Steps<L>,
) -> u8
    ensures served { IsServed (AnswersBytes C.form_of C.answers steps.old steps.new) (RefusesBytes C.form_of C.refuses)
        S.left S.faults K.taken K.faults asked usage.now source.old source.new sink.old sink.new result }

    // A request that must be answered is, and what must be refused is, unless memory, the source or the sink fails.
    ensures done { MustServe (MustAnswerBytes C.form_of C.must_answer) asked (S.left source.old) ANSWERED result }
    ensures caused { MustServe (MustRefuseBytes C.form_of C.must_refuse) asked (S.left source.old) REFUSED result }
{
    serve_asked(alloc, asked, usage.as_bytes(), source, sink, steps)
}

/// [`serve_requests`] without a counter of steps: the command counts on one of its own.
pub fn serve_requests_uncounted<C: RequestCommand + Copy, S: Source, K: Sink>(
    alloc: Global,
    asked: Option<C>,
    usage: &str,
    source: &mut S,
    sink: &mut K,
) -> u8
    ensures served { (before after : ℕ) × IsServed (AnswersBytes C.form_of C.answers before after) (RefusesBytes C.form_of C.refuses)
        S.left S.faults K.taken K.faults asked usage.now source.old source.new sink.old sink.new result }
    ensures done { MustServe (MustAnswerBytes C.form_of C.must_answer) asked (S.left source.old) ANSWERED result }
    ensures caused { MustServe (MustRefuseBytes C.form_of C.must_refuse) asked (S.left source.old) REFUSED result }
{
    serve_alone::<C, S, K, Brand>(alloc, asked, usage.as_bytes(), source, sink, Blank::new(1))
}

/// The same, with a counter over this ledger.
fn serve_alone<C: RequestCommand + Copy, S: Source, K: Sink, L: Ledger>(
    alloc: Global,
    asked: Option<C>,
    usage: &[u8],
    source: &mut S,
    sink: &mut K,
    blank: Blank,
) -> u8
    requires name { blank.name ≡ L.name }
    requires parts { blank.parts ≡ L.parts }
    requires some { 0 < blank.parts }
    ensures served { (before after : ℕ) × IsServed (AnswersBytes C.form_of C.answers before after) (RefusesBytes C.form_of C.refuses)
        S.left S.faults K.taken K.faults asked usage.now source.old source.new sink.old sink.new result }
    ensures done { MustServe (MustAnswerBytes C.form_of C.must_answer) asked (S.left source.old) ANSWERED result }
    ensures caused { MustServe (MustRefuseBytes C.form_of C.must_refuse) asked (S.left source.old) REFUSED result }
{
    let mut steps = Steps::<L>::open(blank);
    serve_asked(alloc, asked, usage, source, sink, &mut steps)
}

/// The run of a command, or the usage where the words asked for none.
fn serve_asked<C: RequestCommand + Copy, S: Source, K: Sink, L: Ledger>(
    alloc: Global,
    asked: Option<C>,
    usage: &[u8],
    source: &mut S,
    sink: &mut K,
    steps: &mut Steps<L>,
) -> u8
    ensures served { IsServed (AnswersBytes C.form_of C.answers steps.old steps.new) (RefusesBytes C.form_of C.refuses)
        S.left S.faults K.taken K.faults asked usage.now source.old source.new sink.old sink.new result }
    ensures done { MustServe (MustAnswerBytes C.form_of C.must_answer) asked (S.left source.old) ANSWERED result }
    ensures caused { MustServe (MustRefuseBytes C.form_of C.must_refuse) asked (S.left source.old) REFUSED result }
{
    match asked {
        Some(command) => serve_command(alloc, &command, source, sink, steps),
        None => match write_all(sink, usage) {
            Ok(()) => MISUSED,
            Err(SinkFault) => SINK_FAILED,
        },
    }
}

/// The run where the words ask for `command`. No usage is written.
fn serve_command<C: RequestCommand, S: Source, K: Sink, L: Ledger>(
    alloc: Global,
    command: &C,
    source: &mut S,
    sink: &mut K,
    steps: &mut Steps<L>,
) -> u8
    ensures served { (usage : List ℕ) → IsServed (AnswersBytes C.form_of C.answers steps.old steps.new) (RefusesBytes C.form_of C.refuses)
        S.left S.faults K.taken K.faults (Some command.now) usage source.old source.new sink.old sink.new result }
    ensures done { MustServe (MustAnswerBytes C.form_of C.must_answer) (Some command.now) (S.left source.old) ANSWERED result }
    ensures caused { MustServe (MustRefuseBytes C.form_of C.must_refuse) (Some command.now) (S.left source.old) REFUSED result }
{
    let bytes = match read_to_end(alloc, source) {
        Ok(bytes) => bytes,
        Err(Refused::Memory) => return NO_MEMORY,
        Err(Refused::Fault(InputFault::SourceFailed)) => return SOURCE_FAILED,
        Err(Refused::Fault(InputFault::TooLong)) => return TOO_LONG,
    };
    let Ok(output) = reply_to(alloc, command, &bytes, steps) else {
        return NO_MEMORY;
    };
    match write_all(sink, output.text()) {
        Ok(()) => output.status(),
        Err(SinkFault) => SINK_FAILED,
    }
}

/// What is written for the bytes of a request. `Err` only when out of memory.
fn reply_to<C: RequestCommand, L: Ledger>(
    alloc: Global,
    command: &C,
    bytes: &Bytes,
    steps: &mut Steps<L>,
) -> Result<Output, Memory>
    ensures is { IfOk result (IsOutput (AnswersBytes C.form_of C.answers steps.old steps.new command.now bytes.now)
        (RefusesBytes C.form_of C.refuses command.now bytes.now)) }
    ensures done { MustAnswerBytes C.form_of C.must_answer command.now bytes.now → IfOk result IsDoneOutput }
    ensures caused { MustRefuseBytes C.form_of C.must_refuse command.now bytes.now → IfOk result IsRefusedOutput }
{
    request_laws::bytes_ask_one_thing();
    let value = match from_bytes_whole(alloc, bytes) {
        Ok(value) => value,
        Err(Refused::Fault(fault)) => return refused_bytes(alloc, fault),
        Err(Refused::Memory) => return Err(AllocError),
    };
    match decode(&value, command.request_form()) {
        Ok(request) => command.reply(alloc, &request, steps),
        Err(fault) => refused_value(alloc, fault),
    }
}

/// That bytes are no JSON text.
fn refused_bytes(alloc: Global, fault: ReadFault) -> Result<Output, Memory>
    ensures { IfOk result (λ output. output ≡ outputs.Refused (message_line (message_of fault))) }
{
    let message = read_message(alloc, fault)?;
    refused_with(alloc, message.as_str())
}

/// That a JSON value is no request.
fn refused_value(alloc: Global, fault: RequestFault) -> Result<Output, Memory>
    ensures { IfOk result (λ output. output ≡ outputs.Refused (message_line (fault_message fault))) }
{
    let message = fault.message(alloc)?;
    refused_with(alloc, message.as_str())
}
