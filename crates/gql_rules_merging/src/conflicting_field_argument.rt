//! Fields of one response key that one object can have are given the same arguments (GraphQL October 2021, section 5.3.2).

ghost use Rattle.std.specs.Prelude.{◌≡◌, ◌++◌, ◌∷◌, [], OnOk};
ghost use Rattle.std.specs.List.{list_all};
ghost use Rattle.gql_rules_merging.specs.ConflictingFieldArgument as spec;
ghost use Rattle.gql_rules_merging.specs.bridge.Gathering.{selected_of};

use crate::numbering::Selected;
use crate::same_value::same_value;
use gql_ast_base::Argument;
use gql_diag_messages::{DiagnosticData, Rule};
use gql_rules_values::{ByName, list_fault};
use jb_text::{Listed, Memory};
use std::alloc::Global;

/// Whether two fields have as many arguments and each of the one is among those of the other, in any order.
pub(crate) fn have_same_arguments(one: &Selected<'_>, other: &Selected<'_>) -> bool
    ensures { result ≡ spec.same_arguments (selected_of one.now).arguments (selected_of other.now).arguments }
{
    same_arguments(one.arguments.as_slice(), &other.arguments)
}

/// As many arguments, and each among the others.
fn same_arguments(arguments: &[Argument], others: &ByName<'_, Argument>) -> bool
    ensures { result ≡ spec.same_arguments arguments.now others.now }
{
    arguments.len() == others.as_slice().len() && are_given(others, arguments)
}

/// Whether each of these is among the others.
fn are_given(others: &ByName<'_, Argument>, arguments: &[Argument]) -> bool
    ensures { result ≡ list_all (spec.is_given others.now) arguments.now }
{
    arguments.iter().all(|argument| is_given(others, argument))
}

/// Whether the first of the name among these has the same value.
fn is_given(others: &ByName<'_, Argument>, argument: &Argument) -> bool
    ensures { result ≡ spec.is_given others.now argument.now }
{
    match others.get(argument.name.as_str()) {
        Some(other) => same_value(&argument.value, &other.value),
        None => false,
    }
}

/// Lists that two fields have different arguments.
pub(crate) fn list_conflicting_arguments<'x>(
    alloc: Global,
    earlier: &'x Selected<'x>,
    later: &'x Selected<'x>,
    faults: &mut Listed<DiagnosticData>,
) -> Result<(), Memory>
    ensures { OnOk result (faults.new ≡ faults.old ++ spec.conflicting_arguments (selected_of earlier.now) (selected_of later.now) ∷ []) }
{
    list_fault(
        alloc,
        Rule::ConflictingFieldArgument,
        &[earlier.key().as_str()],
        later.field.location,
        earlier.field.location,
        faults,
    )
}
