//! What a step gives.

use crate::Asks;
use bytes::Bytes;

/// What a step of a request gives.
#[derive(Drop)]
pub enum Round {
    /// What is to be answered before the next step. It is never empty.
    Asks(Asks),
    /// The response, as JSON without white space (GraphQL October 2021, section 7).
    Answer(Bytes),
}
