//! Faults of coercion as callers are told them.

ghost use Rattle.std.specs.Prelude.{◌≡◌};
ghost use Rattle.gql_coerce.specs.Outcome.{Outcome, Answers, told_as};
ghost use Rattle.gql_coerce.specs.Told.{argument_fault};
ghost use Rattle.gql_coerce.specs.bridge.Told.{input_error};

use crate::fault::CoercionFault;
use gql_source::SourceSpan;
use jb_text::{Refused, Text};

/// Why the values of variables are not coerced (GraphQL October 2021, section 6.1.2).
#[derive(Debug, Drop)]
pub enum InputCoercionError {
    /// What no document and schema that passed validation lead to.
    SuspectedValidationBug {
        message: Text,
        location: Option<SourceSpan>,
    },
    /// A value that is missing, or is none of its type.
    ValueError {
        message: Text,
        location: Option<SourceSpan>,
    },
}

/// Why the arguments of a field are not coerced (section 6.4.1).
#[derive(Debug, Drop)]
pub struct ArgumentFault {
    /// What is wrong, as a sentence.
    pub message: Text,
    /// Where in a text.
    pub location: Option<SourceSpan>,
    /// Whether it is what no document and schema that passed validation lead to.
    pub suspected: bool,
}

/// The values of variables, or why there are none.
pub(crate) fn tell_variables<A>(
    made: Result<A, Refused<CoercionFault>>,
) -> Result<A, Refused<InputCoercionError>>
    ensures { (wanted : Outcome A) → Answers wanted made → Answers (told_as input_error wanted) result }
{
    match made {
        Ok(values) => Ok(values),
        Err(Refused::Fault(fault)) => Err(Refused::Fault(input_error(fault))),
        Err(Refused::Memory) => Err(Refused::Memory),
    }
}

fn input_error(fault: CoercionFault) -> InputCoercionError
    ensures { result ≡ input_error fault }
{
    let CoercionFault {
        message,
        location,
        suspected,
    } = fault;
    if suspected {
        return InputCoercionError::SuspectedValidationBug { message, location };
    }
    InputCoercionError::ValueError { message, location }
}

/// The values of arguments, or why there are none.
pub(crate) fn tell_arguments<A>(
    made: Result<A, Refused<CoercionFault>>,
) -> Result<A, Refused<ArgumentFault>>
    ensures { (wanted : Outcome A) → Answers wanted made → Answers (told_as argument_fault wanted) result }
{
    match made {
        Ok(values) => Ok(values),
        Err(Refused::Fault(fault)) => Err(Refused::Fault(argument_fault(fault))),
        Err(Refused::Memory) => Err(Refused::Memory),
    }
}

fn argument_fault(fault: CoercionFault) -> ArgumentFault
    ensures { result ≡ argument_fault fault }
{
    let CoercionFault {
        message,
        location,
        suspected,
    } = fault;
    ArgumentFault {
        message,
        location,
        suspected,
    }
}
