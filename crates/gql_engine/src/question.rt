//! What a service is asked.

ghost use Rattle.std.specs.Prelude.{◌≡◌, ℕ, List};
ghost use Rattle.gql_engine.specs.bridge.AnswerError.{call_over};
ghost use Rattle.gql_engine.specs.Service.{asked_of};

use crate::call::Call;
use bytes::Bytes;

/// A request to a service: an operation of a query, and the values of its variables (GraphQL October 2021, section 6.1).
#[derive(Clone, Copy)]
pub struct Question<'q> {
    /// The text of the document with the operation.
    pub query: &'q str,
    /// The name of the operation, or none where it is the only one.
    pub operation_name: Option<&'q str>,
    /// The values that its variables are given: the JSON text of an object.
    pub variables: &'q Bytes,
    /// Whether `__schema` and `__type` are answered.
    pub introspection: bool,
}

impl Question<'_> {
    /// The call for an answer, but for the texts.
    pub(crate) fn call(&self) -> Call<'_>
        ensures { (schema : List ℕ) → call_over schema self.now.query.now result ≡ asked_of schema self.now }
    {
        Call {
            operation_name: self.operation_name,
            variables: self.variables,
            introspection: self.introspection,
        }
    }
}
