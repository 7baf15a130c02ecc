//! Why a request is not answered.

ghost use Rattle.std.specs.Prelude.{◌≡◌, IfOk};
ghost use Rattle.gql_engine.specs.Told.{IsToldOf, variables_message};

use bytes::Bytes;
use gql_diag::{
    DiagnosticList, ExecutionResponse, GraphQLError, refusal_of_diagnostics, refusal_of_message,
};
use jb_read::ReadFault;
use jb_tree::{Memory, Text};
use std::alloc::{AllocError, Global};
use std::slice;

/// Why a text is no object of variables.
#[derive(Clone, Copy, Debug, PartialEq, Eq)]
pub enum VariablesFault {
    /// It is no JSON text.
    Read(ReadFault),
    /// It is a JSON text of another value.
    NotObject,
}

impl VariablesFault {
    /// The text of the refusal. `Err` only when out of memory.
    pub fn message(self, alloc: Global) -> Result<Text, Memory>
        ensures { IfOk result (λ text. text ≡ variables_message self) }
    {
        match self {
            VariablesFault::Read(fault) => {
                let kind = fault.kind.name();
                let place = fault.place;
                let text = format!(in alloc; "variables: {kind} at byte {place}")?;
                Ok(Text::from_string(text))
            }
            VariablesFault::NotObject => Text::from_str(alloc, "variables: not an object"),
        }
    }
}

/// A step between the texts and the execution (GraphQL October 2021, section 6.1).
#[derive(Clone, Copy, Debug, PartialEq, Eq)]
pub enum RequestKind {
    /// The operation is chosen.
    Operation,
    /// Its depth in the types of the schema is found small enough, where introspection is on.
    Depth,
    /// Its variables are coerced.
    Variable,
}

/// Why a request is not answered. The first that applies, in this order, is told.
#[derive(Drop)]
pub enum AnswerError {
    /// The text of the variables is none of an object.
    Variables(VariablesFault),
    /// What is wrong with the schema's text.
    Schema(DiagnosticList),
    /// What is wrong with the query's text against the schema.
    Document(DiagnosticList),
    /// A step between the texts and the execution fails, with this error.
    Request {
        kind: RequestKind,
        error: GraphQLError,
    },
    /// Memory ran out.
    Memory,
}

impl AnswerError {
    /// The refusal as JSON without white space, for a client: an object with `errors` alone (GraphQL October 2021, section 7.1.2).
    /// These are the diagnostics of a text in their order, the error of a step, or one with the message of a fault of the
    /// variables. What is wrong with the schema's text is told like the rest: it is the server's own mistake, which a server
    /// may want to keep to itself.
    ///
    /// # Errors
    ///
    /// [`Memory`] where the refusal is [`AnswerError::Memory`], and when out of memory.
    pub fn into_bytes(self, alloc: Global) -> Result<Bytes, Memory>
        ensures { IfOk result (IsToldOf self) }
    {
        match self {
            AnswerError::Variables(fault) => {
                let message = fault.message(alloc)?;
                refusal_of_message(alloc, message.as_str())
            }
            AnswerError::Schema(list) | AnswerError::Document(list) => {
                refusal_of_diagnostics(alloc, list)
            }
            AnswerError::Request { error, .. } => {
                ExecutionResponse::refusal_bytes(alloc, slice::from_ref(&error))
            }
            AnswerError::Memory => Err(AllocError),
        }
    }
}

impl From<Memory> for AnswerError {
    ghost use Rattle.std.specs.Prelude.{◌≡◌};
    ghost use Rattle.gql_engine.specs.declared.answer_error.AnswerError.TheVariants as refusal;

    ghost from_gives = { λ _ error. error ≡ refusal.Memory };

    fn from(_want: Memory) -> AnswerError {
        AnswerError::Memory
    }
}
