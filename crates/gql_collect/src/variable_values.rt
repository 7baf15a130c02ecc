//! The values of an operation's variables (GraphQL October 2021, section 6.1.2).

ghost use Rattle.std.specs.Prelude.{◌≡◌};
ghost use Rattle.gql_coerce.specs.Outcome.{Answers, Outcome, told_as};
ghost use Rattle.gql_coerce.specs.bridge.Told.{input_error};
ghost use Rattle.gql_coerce.specs.Variables.{coerced_variables};
ghost use Rattle.gql_collect.specs.RequestErrors.{request_error as error_of};
ghost use Rattle.gql_collect.specs.bridge.RequestErrors.{error_told};

use gql_coerce::{InputCoercionError, coerce_variables};
use gql_document_types::Operation;
use gql_response::{JsonMap, RequestError};
use gql_schema_types::{Schema, Valid};
use jb_text::Refused;
use std::alloc::Global;

/// The variables that an operation makes of the given values, in order of definition: a given value is coerced to its
/// variable's type, a variable that is not given has its default. Values that no definition names are left out.
///
/// # Errors
///
/// The fault of the first variable in order of definition that fails, exactly where one does: its value is none of its type,
/// or is missing. It is marked as a suspected fault of validation where the type is undefined or no input type, or a default
/// holds a variable. Otherwise only when out of memory.
pub fn coerce_variable_values(
    alloc: Global,
    schema: &Valid<Schema>,
    operation: &Operation,
    values: &JsonMap,
) -> Result<Valid<JsonMap>, Refused<RequestError>>
    ensures { Answers (told_as error_of (coerced_variables schema.now.types operation.now.variables values.now)) result }
{
    tell_request(coerce_variables(alloc, schema, &operation.variables, values))
}

/// The values of variables, or the error of the request.
fn tell_request<A>(made: Result<A, Refused<InputCoercionError>>) -> Result<A, Refused<RequestError>>
    ensures { (wanted : Outcome A) → Answers (told_as input_error wanted) made → Answers (told_as error_of wanted) result }
{
    match made {
        Ok(values) => Ok(values),
        Err(Refused::Fault(error)) => Err(Refused::Fault(request_error(error))),
        Err(Refused::Memory) => Err(Refused::Memory),
    }
}

/// The fault of a variable as the error of the request.
fn request_error(error: InputCoercionError) -> RequestError
    ensures { result ≡ error_told error }
{
    match error {
        InputCoercionError::SuspectedValidationBug { message, location } => RequestError {
            message,
            location,
            is_suspected_validation_bug: true,
        },
        InputCoercionError::ValueError { message, location } => RequestError {
            message,
            location,
            is_suspected_validation_bug: false,
        },
    }
}
