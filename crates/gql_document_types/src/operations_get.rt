//! The operation that a request is for.

ghost use Rattle.std.specs.Prelude.{◌≡◌, IfOk};
ghost use Rattle.std.specs.Option.{option_copied};
ghost use Rattle.gql_document_types.specs.ChosenOperation as spec;
ghost use Rattle.gql_document_types.specs.bridge.ChosenOperation as spec_bridge;

use crate::document::ExecutableDocument;
use crate::operation::Operation;
use gql_response::RequestError;
use jb_text::{Listed, Memory, Refused, Text};
use std::alloc::Global;

impl ExecutableDocument {
    /// The operation of the name, or the only one where no name is given (GraphQL October 2021, section 6.1).
    ///
    /// # Errors
    ///
    /// ``operation `{name}` is not defined`` exactly where a name is given that no operation has. `document has {count}
    /// operations and no name was given` exactly where none is given and there is not exactly one operation. Otherwise only when
    /// out of memory, and only where there is no such operation.
    pub fn operations_get(
        &self,
        alloc: Global,
        name: Option<&str>,
    ) -> Result<&Operation, Refused<RequestError>>
        ensures { spec.IsChosen (spec.text_of name.entry) self.now.operations result }
    {
        match name {
            Some(name) => match operation_called(&self.operations, name) {
                Some(operation) => Ok(operation),
                None => Err(refusal(not_defined(alloc, name))),
            },
            None => match only_operation(&self.operations) {
                Some(operation) => Ok(operation),
                None => Err(refusal(no_name(alloc, self.operations.len()))),
            },
        }
    }
}

/// The operation of the name.
fn operation_called<'d>(operations: &'d Listed<Operation>, name: &str) -> Option<&'d Operation>
    ensures { option_copied result ≡ spec.operation_called name.now operations.now }
{
    operations
        .as_slice()
        .iter()
        .find(|operation| has_name(operation, name))
}

/// Whether the operation has the name.
fn has_name(operation: &Operation, name: &str) -> bool
    ensures { result ≡ spec.has_name name.now operation.now }
{
    match &operation.name {
        Some(own) => name == own.as_str(),
        None => false,
    }
}

/// The operation, where there is no other.
fn only_operation(operations: &Listed<Operation>) -> Option<&Operation>
    ensures { option_copied result ≡ spec.only_operation operations.now }
{
    match operations.as_slice() {
        [only] => Some(only),
        _ => None,
    }
}

/// The refusal that says this, which is told without a place.
fn refusal(message: Result<Text, Memory>) -> Refused<RequestError>
    ensures { spec_bridge.IsRefusal message result }
{
    match message {
        Ok(message) => Refused::Fault(RequestError {
            message,
            location: None,
            is_suspected_validation_bug: false,
        }),
        Err(_) => Refused::Memory,
    }
}

/// That no operation has the name.
fn not_defined(alloc: Global, name: &str) -> Result<Text, Memory>
    ensures { IfOk result (λ message. message ≡ spec.not_defined name.now) }
{
    Ok(Text::from_string(format!(in alloc; "operation `{name}` is not defined")?))
}

/// That no name is given, though there are so many operations.
fn no_name(alloc: Global, count: usize) -> Result<Text, Memory>
    ensures { IfOk result (λ message. message ≡ spec.no_name count) }
{
    Ok(Text::from_string(format!(in alloc;
        "document has {count} operations and no name was given"
    )?))
}
