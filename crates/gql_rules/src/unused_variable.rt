//! A variable is used in its operation, or in a fragment that this reaches (GraphQL October 2021, section 5.8.4).

ghost use Rattle.std.specs.Prelude.{◌≡◌, ◌++◌, OnOk};
ghost use Rattle.gql_rules.specs.bridge.Operations.{not_noted};
ghost use Rattle.gql_rules.specs.UnusedVariable as spec;

use gql_ast::VariableDefinition;
use gql_diag_messages::{DiagnosticData, Rule};
use gql_rules_values::list_fault;
use jb_map::KeyTable;
use jb_text::{Listed, Memory};
use std::alloc::Global;

/// Lists the variables whose names are not among those that are used, each of several of one name too.
pub(crate) fn list_unused_variables(
    alloc: Global,
    used: &KeyTable,
    variables: &[VariableDefinition],
    faults: &mut Listed<DiagnosticData>,
) -> Result<(), Memory>
    ensures { OnOk result (faults.new ≡ faults.old ++ not_noted used.now variables.now) }
{
    for variable in variables {
        let is_used = used.find(variable.name.as_str()).is_some();
        list_unless_used(alloc, is_used, variable, faults)?;
    }
    Ok(())
}

/// Lists a variable, unless it is used.
fn list_unless_used(
    alloc: Global,
    is_used: bool,
    variable: &VariableDefinition,
    faults: &mut Listed<DiagnosticData>,
) -> Result<(), Memory>
    ensures { OnOk result (faults.new ≡ faults.old ++ spec.unless_used is_used variable.now) }
{
    if is_used {
        Ok(())
    } else {
        list_fault(
            alloc,
            Rule::UnusedVariable,
            &[variable.name.as_str()],
            variable.location,
            None,
            faults,
        )
    }
}
