//! What comes of a call, put into handles and told by a status.

ghost use Rattle.gql_c.specs.Outcomes.{IsMade, IsReplied};

use crate::handle::Handle;
use crate::outcome::Outcome;
use crate::status::{ANSWERED, NO_MEMORY, REFUSED, UNREAD, WRONG_HANDLE};
use crate::store::{gql_free, put_into};
use std::alloc::Global;

/// Puts a value that was made into one handle, or the reply that says why there is none into the other. What is not put into is
/// left empty.
pub(crate) fn tell_made(
    alloc: Global,
    outcome: Outcome,
    made: &mut Handle,
    reply: &mut Handle,
) -> u32
    ensures { IsMade outcome result made.new.held reply.new.held }
{
    gql_free(alloc, made);
    gql_free(alloc, reply);
    match outcome {
        Outcome::Answered(held) => {
            put_into(alloc, held, made);
            ANSWERED
        }
        Outcome::Refused(held) => {
            put_into(alloc, held, reply);
            REFUSED
        }
        Outcome::NoMemory => NO_MEMORY,
        Outcome::WrongHandle => WRONG_HANDLE,
        Outcome::Unread => UNREAD,
    }
}

/// Puts whatever was made into one handle, which is left empty where nothing was.
pub(crate) fn tell(alloc: Global, outcome: Outcome, to: &mut Handle) -> u32
    ensures { IsReplied outcome result to.new.held }
{
    gql_free(alloc, to);
    match outcome {
        Outcome::Answered(held) => {
            put_into(alloc, held, to);
            ANSWERED
        }
        Outcome::Refused(held) => {
            put_into(alloc, held, to);
            REFUSED
        }
        Outcome::NoMemory => NO_MEMORY,
        Outcome::WrongHandle => WRONG_HANDLE,
        Outcome::Unread => UNREAD,
    }
}
