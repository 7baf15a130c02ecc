//! Why a gateway gives no response.

ghost use Rattle.std.specs.Prelude.{◌≡◌, [], ◌∷◌, IfOk};
ghost use Rattle.gql_diag.specs.Refusal.{message_error, refusal_value};
ghost use Rattle.gql_gateway.specs.Told.{IsGatewayTold, missing_message};
ghost use Rattle.gql_gateway.specs.bridge.Told.{of_division};
ghost use Rattle.jb_print.specs.Compact.{compact};

use crate::DivideFault;
use bytes::Bytes;
use gql_ast_base::Name;
use gql_diag::refusal_of_message;
use gql_engine::AnswerError;
use jb_tree::{Memory, Refused};
use std::alloc::{AllocError, Global};

/// Why a gateway gives no response.
#[derive(Drop)]
pub enum GatewayError {
    /// The request is refused for this cause, as [`answer`](gql_engine::answer) refuses it with introspection on. The cause is never
    /// [`AnswerError::Memory`].
    Answer(AnswerError),
    /// The operation has more than [`MOST_SELECTIONS`](crate::MOST_SELECTIONS) selections, once each spread is replaced by what its
    /// fragment selects.
    TooLarge,
    /// The remote met a fault.
    Remote,
    /// Both responses have data, and that of the remote lacks this response key, the first such.
    MissingKey(Name),
    /// Memory ran out.
    Memory,
}

impl GatewayError {
    /// The refusal as JSON without white space, for a client: that of [`AnswerError::into_bytes`], or an object with one error that
    /// says `gateway: expansion too large`, `gateway: remote failed`, or which key is missing.
    ///
    /// # Errors
    ///
    /// [`Memory`] where the refusal is [`GatewayError::Memory`], and when out of memory.
    pub fn into_bytes(self, alloc: Global) -> Result<Bytes, Memory>
        ensures { IfOk result (IsGatewayTold self) }
    {
        match self {
            GatewayError::Answer(refusal) => refusal.into_bytes(alloc),
            GatewayError::TooLarge => refusal_of_message(alloc, "gateway: expansion too large"),
            GatewayError::Remote => refusal_of_message(alloc, "gateway: remote failed"),
            GatewayError::MissingKey(key) => missing_bytes(alloc, &key),
            GatewayError::Memory => Err(AllocError),
        }
    }
}

/// The refusal for a key that is missing. `Err` only when out of memory.
fn missing_bytes(alloc: Global, key: &Name) -> Result<Bytes, Memory>
    ensures { IfOk result (λ bytes. bytes ≡ compact (refusal_value (message_error (missing_message key.now) ∷ []))) }
{
    let key = key.as_str();
    let message = format!(in alloc; "gateway: missing key '{key}'")?;
    refusal_of_message(alloc, message.as_str())
}

/// Why an operation that is divided has no response.
pub(crate) fn of_division(refused: Refused<DivideFault>) -> GatewayError
    ensures { result ≡ of_division refused }
{
    match refused {
        Refused::Fault(DivideFault::TooLarge) => GatewayError::TooLarge,
        Refused::Fault(DivideFault::Remote) => GatewayError::Remote,
        Refused::Fault(DivideFault::MissingKey(key)) => GatewayError::MissingKey(key),
        Refused::Memory => GatewayError::Memory,
    }
}

impl From<AnswerError> for GatewayError {
    ghost use Rattle.std.specs.Prelude.{◌≡◌};
    ghost use Rattle.gql_gateway.specs.Told.{of_answer};

    ghost from_gives = { λ error refused. refused ≡ of_answer error };

    fn from(error: AnswerError) -> GatewayError {
        match error {
            AnswerError::Memory => GatewayError::Memory,
            refusal => GatewayError::Answer(refusal),
        }
    }
}

impl From<Memory> for GatewayError {
    ghost use Rattle.std.specs.Prelude.{◌≡◌};
    ghost use Rattle.gql_gateway.specs.declared.gateway_error.GatewayError.TheVariants as refusal;

    ghost from_gives = { λ _ refused. refused ≡ refusal.Memory };

    fn from(_want: Memory) -> GatewayError {
        GatewayError::Memory
    }
}
