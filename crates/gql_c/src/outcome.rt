//! What comes of a call, before it is put into handles.

ghost use Rattle.gql_c.specs.bridge.Outcomes.{IsAnswered, IsRefusal, IsRefusedText, IsRefusedWith};

use crate::held::Held;
use bytes::Bytes;
use gql_engine::{AnswerError, Memory};
use std::alloc::Global;

/// What comes of a call that makes a value.
#[derive(Drop)]
pub enum Outcome {
    /// The value.
    Answered(Box<Held>),
    /// Why there is none, as a reply.
    Refused(Box<Held>),
    /// Memory ran out.
    NoMemory,
    /// A handle does not hold what the call takes.
    WrongHandle,
    /// Bytes are no text, or no data.
    Unread,
}

impl Outcome {
    /// A value that was made.
    pub(crate) fn answered(alloc: Global, held: Held) -> Outcome
        ensures { IsAnswered held result }
    {
        match Box::new(alloc, held) {
            Ok(held) => Outcome::Answered(held),
            Err(_) => Outcome::NoMemory,
        }
    }

    /// A refusal that says this, unless memory ran out.
    pub(crate) fn refused(alloc: Global, text: Result<Bytes, Memory>) -> Outcome
        ensures { IsRefusedWith text result }
    {
        match text {
            Ok(text) => Outcome::refused_with(alloc, text),
            Err(_) => Outcome::NoMemory,
        }
    }

    fn refused_with(alloc: Global, text: Bytes) -> Outcome
        ensures { IsRefusedText text result }
    {
        match Box::new(alloc, Held::Reply(text)) {
            Ok(held) => Outcome::Refused(held),
            Err(_) => Outcome::NoMemory,
        }
    }
}

/// The refusal as JSON, for a client.
pub(crate) fn refuse(alloc: Global, refusal: AnswerError) -> Outcome
    ensures { IsRefusal refusal result }
{
    Outcome::refused(alloc, refusal.into_bytes(alloc))
}
