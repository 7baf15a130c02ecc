//! An argument that is given is defined (GraphQL October 2021, section 5.4.1).

ghost use Rattle.std.specs.Prelude.{◌≡◌, ◌++◌, OnOk};
ghost use Rattle.gql_rules_values.specs.UndefinedArgument as spec;

use crate::by_name::ByName;
use crate::fault::list_fault;
use gql_ast::InputValueDefinition;
use gql_ast_base::Argument;
use gql_diag_messages::{DiagnosticData, Rule};
use jb_text::{Listed, Memory};
use std::alloc::Global;

/// Lists an argument that is not defined. The name is that of the field or directive.
pub(crate) fn list_undefined_argument(
    alloc: Global,
    name: &str,
    definitions: &ByName<'_, InputValueDefinition>,
    argument: &Argument,
    faults: &mut Listed<DiagnosticData>,
) -> Result<(), Memory>
    ensures { OnOk result (faults.new ≡ faults.old ++ spec.undefined_argument name.now definitions.now argument.now) }
{
    if definitions.get(argument.name.as_str()).is_some() {
        Ok(())
    } else {
        list_fault(
            alloc,
            Rule::UndefinedArgument,
            &[argument.name.as_str(), name],
            argument.location,
            None,
            faults,
        )
    }
}
