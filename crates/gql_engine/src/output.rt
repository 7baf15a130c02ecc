//! What is written for an input.

ghost use Rattle.std.specs.Prelude.{◌≡◌, IfOk};
ghost use Rattle.gql_engine.specs.Serving.{line as line_of, message_line, status_of, text_of};
ghost use Rattle.gql_engine.specs.ToldLine.{IsRefusalLine};
ghost use Rattle.gql_engine.specs.declared.output.Output.TheVariants as outputs;

use crate::answer_error::AnswerError;
use bytes::{Bytes, BytesMut};
use gql_diag::refusal_of_message;
use jb_io::{ANSWERED, REFUSED};
use jb_tree::Memory;
use std::alloc::Global;

/// All that is written for an input, as it stands.
#[derive(Drop)]
pub enum Output {
    /// What was asked for.
    Done(Bytes),
    /// Why it is refused.
    Refused(Bytes),
}

impl Output {
    /// The text that is written.
    #[must_use]
    pub fn text(&self) -> &[u8]
        ensures { result.now ≡ text_of self.now }
    {
        let (Output::Done(text) | Output::Refused(text)) = self;
        text.as_slice()
    }

    /// The exit status where it is written whole: [`ANSWERED`] or [`REFUSED`].
    #[must_use]
    pub fn status(&self) -> u8
        ensures { result ≡ status_of self.now }
    {
        match self {
            Output::Done(_) => ANSWERED,
            Output::Refused(_) => REFUSED,
        }
    }
}

/// The line of JSON that refuses with one message: an object with one error (GraphQL October 2021, section 7.1.2). `Err` only when
/// out of memory.
pub fn refused_with(alloc: Global, message: &str) -> Result<Output, Memory>
    ensures { IfOk result (λ output. output ≡ outputs.Refused (message_line message.now)) }
{
    let text = refusal_of_message(alloc, message)?;
    Ok(Output::Refused(line(alloc, text)?))
}

/// The line that tells a refusal of an answer: its JSON, as [`AnswerError::into_bytes`] has it.
///
/// # Errors
///
/// [`Memory`] where the refusal is [`AnswerError::Memory`], and when out of memory.
pub fn refused_for(alloc: Global, refusal: AnswerError) -> Result<Output, Memory>
    ensures { IfOk result (IsRefusalLine refusal) }
{
    let told = refusal.into_bytes(alloc)?;
    Ok(Output::Refused(line(alloc, told)?))
}

/// The line of what was asked for. `Err` only when out of memory.
pub fn done_with(alloc: Global, text: Bytes) -> Result<Output, Memory>
    ensures { IfOk result (λ output. output ≡ outputs.Done (line_of text)) }
{
    Ok(Output::Done(line(alloc, text)?))
}

/// A text with one line feed. It goes into the text's own buffer, where nothing else shares that. `Err` only when out of memory.
pub fn line(alloc: Global, text: Bytes) -> Result<Bytes, Memory>
    ensures { IfOk result (λ line. line ≡ line_of text) }
{
    let mut line = match text.try_into_mut() {
        Ok(own) => own,
        Err(shared) => BytesMut::copy_from_slice(alloc, shared.as_slice())?,
    };
    line.extend_from_slice(b"\n")?;
    Ok(line.freeze()?)
}
