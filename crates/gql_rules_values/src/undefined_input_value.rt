//! A key in a literal at an input object type is one of its fields (GraphQL October 2021, section 5.6.2).

ghost use Rattle.std.specs.Prelude.{◌≡◌, ◌++◌, OnOk};
ghost use Rattle.gql_rules_values.specs.UndefinedInputValue as spec;

use crate::fault::list_fault;
use gql_ast_base::{Name, Value};
use gql_diag_messages::{DiagnosticData, Rule};
use gql_schema_types::InputObjectType;
use jb_text::{Listed, Memory};
use std::alloc::Global;

/// Lists each key that is no field of the input object.
pub(crate) fn list_undefined_input_values(
    alloc: Global,
    it: &InputObjectType,
    literal: &Value,
    members: &[(Name, Value)],
    faults: &mut Listed<DiagnosticData>,
) -> Result<(), Memory>
    ensures { OnOk result (faults.new ≡ faults.old ++ spec.undefined_input_values it.now literal.now members.now) }
{
    for member in members {
        list_undefined_key(alloc, it, literal, member, faults)?;
    }
    Ok(())
}

/// Lists a key if it is no field of the input object.
fn list_undefined_key(
    alloc: Global,
    it: &InputObjectType,
    literal: &Value,
    member: &(Name, Value),
    faults: &mut Listed<DiagnosticData>,
) -> Result<(), Memory>
    ensures { OnOk result (faults.new ≡ faults.old ++ spec.undefined_key it.now literal.now member.now) }
{
    if it.fields.get(member.0.as_str()).is_some() {
        Ok(())
    } else {
        list_fault(
            alloc,
            Rule::UndefinedInputValue,
            &[member.0.as_str(), it.name.as_str()],
            literal.location,
            None,
            faults,
        )
    }
}
