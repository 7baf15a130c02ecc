//! A literal at a one-of input object has exactly one member, which is not null (GraphQL September 2025, sections 3.10.1 and 5.6.1).

ghost use Rattle.std.specs.Prelude.{◌≡◌, ◌++◌, [], ◌∷◌, OnOk};
ghost use Rattle.gql_rules_values.specs.OneOfValue as spec;

use crate::fault::list_fault;
use gql_ast_base::{Name, Value, ValueKind};
use gql_diag_messages::{DiagnosticData, Rule};
use gql_schema_types::InputObjectType;
use gql_source::SourceSpan;
use jb_text::{Listed, Memory};
use std::alloc::Global;

/// Lists a literal at a one-of input object, unless it has exactly one member, which is not null. A variable as the one member is
/// no fault here: whether it can be null is judged where it is used.
pub(crate) fn list_one_of_value(
    alloc: Global,
    it: &InputObjectType,
    literal: &Value,
    members: &[(Name, Value)],
    faults: &mut Listed<DiagnosticData>,
) -> Result<(), Memory>
    ensures { OnOk result (faults.new ≡ faults.old ++ spec.one_of_value it.now literal.now members.now) }
{
    if it.is_one_of() && !has_one_member(members) {
        list_one_of_literal(alloc, &it.name, literal.location, faults)
    } else {
        Ok(())
    }
}

/// Lists a literal of this place, at a one-of input object of this name, as one that breaks the rule. `Err` only when out of
/// memory.
pub fn list_one_of_literal(
    alloc: Global,
    name: &Name,
    location: Option<SourceSpan>,
    faults: &mut Listed<DiagnosticData>,
) -> Result<(), Memory>
    ensures { OnOk result (faults.new ≡ faults.old ++ spec.one_of_fault name.now location ∷ []) }
{
    list_fault(
        alloc,
        Rule::OneOfValue,
        &[name.as_str()],
        location,
        None,
        faults,
    )
}

/// Whether these are one member, which is not null: of a key that is repeated the last counts.
fn has_one_member(members: &[(Name, Value)]) -> bool
    ensures { result ≡ spec.has_one_member members.now }
{
    has_one_key(members) && !ends_in_null(members)
}

/// Whether there is a key, and no other one. A key that is repeated counts once.
#[must_use]
pub fn has_one_key(members: &[(Name, Value)]) -> bool
    ensures { result ≡ spec.has_one_key members.now }
{
    match members {
        [first, others @ ..] => are_called(first.0.as_str(), others),
        [] => false,
    }
}

/// Whether all these keys are this one.
fn are_called(key: &str, members: &[(Name, Value)]) -> bool
    ensures { result ≡ spec.are_called key.now members.now }
{
    members.iter().all(|member| key == member.0.as_str())
}

/// Whether the last value is null.
fn ends_in_null(members: &[(Name, Value)]) -> bool
    ensures { result ≡ spec.ends_in_null members.now }
{
    match members.last() {
        Some(member) => matches!(&member.1.kind, ValueKind::Null),
        None => false,
    }
}
