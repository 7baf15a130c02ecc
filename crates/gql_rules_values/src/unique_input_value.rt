//! A key stands once in an object literal, and an argument once in a definition (GraphQL October 2021, sections 5.6.3 and 3.6.1).

ghost use Rattle.std.specs.Prelude.{◌≡◌, ◌++◌, OnOk};
ghost use Rattle.gql_rules_values.specs.UniqueInputValue as spec;

use crate::seconds::{EachCounts, list_seconds};
use gql_ast::InputValueDefinition;
use gql_ast_base::{Value, ValueKind};
use gql_diag_messages::{DiagnosticData, Rule};
use jb_text::{Listed, Memory};
use std::alloc::Global;

/// Lists each key of an object literal that came before in it.
pub(crate) fn list_unique_keys(
    alloc: Global,
    literal: &Value,
    faults: &mut Listed<DiagnosticData>,
) -> Result<(), Memory>
    ensures { OnOk result (faults.new ≡ faults.old ++ spec.unique_keys literal.now) }
{
    match &literal.kind {
        ValueKind::Object(members) => list_seconds(
            alloc,
            Rule::UniqueInputValue,
            &EachCounts,
            members.as_slice(),
            faults,
        ),
        ValueKind::Null => Ok(()),
        ValueKind::Variable(_) => Ok(()),
        ValueKind::Int(_) => Ok(()),
        ValueKind::Float(_) => Ok(()),
        ValueKind::String(_) => Ok(()),
        ValueKind::Boolean(_) => Ok(()),
        ValueKind::Enum(_) => Ok(()),
        ValueKind::List(_) => Ok(()),
    }
}

/// Lists each argument in a definition whose name came before in it. `Err` only when out of memory.
pub fn list_unique_definitions(
    alloc: Global,
    arguments: &[InputValueDefinition],
    faults: &mut Listed<DiagnosticData>,
) -> Result<(), Memory>
    ensures { OnOk result (faults.new ≡ faults.old ++ spec.unique_definitions arguments.now) }
{
    list_seconds(
        alloc,
        Rule::UniqueInputValue,
        &EachCounts,
        arguments,
        faults,
    )
}
