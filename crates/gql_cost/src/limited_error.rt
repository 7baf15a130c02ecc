//! Why a request is not answered within a limit.

ghost use Rattle.std.specs.Prelude.{IfOk};
ghost use Rattle.gql_cost.specs.Told.{IsLimitedTold};

use bytes::Bytes;
use gql_diag::refusal_of_message;
use gql_engine::AnswerError;
use jb_tree::Memory;
use std::alloc::Global;

/// Why a request is not answered within a limit.
#[derive(Drop)]
pub enum LimitedError {
    /// It is not answered, whatever it costs.
    Answer(AnswerError),
    /// Its cost is above the limit.
    TooCostly,
}

impl LimitedError {
    /// The refusal as JSON without white space, for a client: that of [`AnswerError::into_bytes`], or an object with the one error
    /// `cost above limit`.
    ///
    /// # Errors
    ///
    /// [`Memory`] where the refusal is [`AnswerError::Memory`], and when out of memory.
    pub fn into_bytes(self, alloc: Global) -> Result<Bytes, Memory>
        ensures { IfOk result (IsLimitedTold self) }
    {
        match self {
            LimitedError::Answer(refusal) => refusal.into_bytes(alloc),
            LimitedError::TooCostly => refusal_of_message(alloc, "cost above limit"),
        }
    }
}

impl From<AnswerError> for LimitedError {
    ghost use Rattle.std.specs.Prelude.{◌≡◌};
    ghost use Rattle.gql_cost.specs.declared.limited_error.LimitedError.TheVariants as refusal;

    ghost from_gives = { λ error refused. refused ≡ refusal.Answer error };

    fn from(error: AnswerError) -> LimitedError {
        LimitedError::Answer(error)
    }
}

impl From<Memory> for LimitedError {
    ghost use Rattle.std.specs.Prelude.{◌≡◌};
    ghost use Rattle.gql_cost.specs.declared.limited_error.LimitedError.TheVariants as refusal;
    ghost use Rattle.gql_engine.specs.declared.answer_error.AnswerError.TheVariants as error;

    ghost from_gives = { λ _ refused. refused ≡ refusal.Answer error.Memory };

    fn from(_want: Memory) -> LimitedError {
        LimitedError::Answer(AnswerError::Memory)
    }
}
