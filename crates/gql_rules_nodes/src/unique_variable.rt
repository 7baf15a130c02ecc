//! Variables of an operation have distinct names (GraphQL October 2021, section 5.8.1).

ghost use Rattle.std.specs.Prelude.{◌≡◌, ◌++◌, OnOk};
ghost use Rattle.gql_rules_nodes.specs.UniqueVariable as spec;
ghost use Rattle.gql_rules_nodes.specs.bridge.UniqueVariable as spec_bridge;

use gql_ast::VariableDefinition;
use gql_diag_messages::{DiagnosticData, Rule};
use gql_rules_values::list_fault;
use gql_source::SourceSpan;
use jb_map::Pairs;
use jb_text::{ByteString, Listed, Memory};
use std::alloc::Global;

/// Lists each variable whose name came before, with the first one's place (GraphQL October 2021, section 5.8.1). `Err` only when
/// out of memory.
pub fn list_unique_variable(
    alloc: Global,
    variables: &[VariableDefinition],
    faults: &mut Listed<DiagnosticData>,
) -> Result<(), Memory>
    ensures { OnOk result (faults.new ≡ faults.old ++ spec.unique_variable variables.now) }
{
    let mut seen = Pairs::new(alloc);
    for variable in variables {
        meet(alloc, variable, &mut seen, faults)?;
    }
    Ok(())
}

/// Lists a variable, if its name was seen, and notes the place of the first of the name.
fn meet(
    alloc: Global,
    variable: &VariableDefinition,
    seen: &mut Pairs<Option<SourceSpan>>,
    faults: &mut Listed<DiagnosticData>,
) -> Result<(), Memory>
    ensures seen { OnOk result (seen.new ≡ spec_bridge.with_variable seen.old variable.now) }
    ensures faults { OnOk result (faults.new ≡ faults.old ++ spec_bridge.second_variable seen.old variable.now) }
{
    match seen.get(variable.name.as_str()) {
        Some(first) => {
            let first = *first;
            list_fault(
                alloc,
                Rule::UniqueVariable,
                &[variable.name.as_str()],
                variable.location,
                first,
                faults,
            )
        }
        None => {
            let key = ByteString::from_text(alloc, variable.name.as_str())?;
            seen.insert_new(key, variable.location)
        }
    }
}
