//! Fields of one response key that one object can have are the same field (GraphQL October 2021, section 5.3.2).

ghost use Rattle.std.specs.Prelude.{◌≡◌, ◌++◌, ◌∷◌, [], OnOk};
ghost use Rattle.gql_rules_merging.specs.ConflictingFieldName as spec;
ghost use Rattle.gql_rules_merging.specs.bridge.Gathering.{selected_of};

use crate::numbering::Selected;
use gql_diag_messages::{DiagnosticData, Rule};
use gql_rules_values::list_fault;
use jb_text::{Listed, Memory};
use std::alloc::Global;

/// Whether two fields have different names.
pub(crate) fn names_conflict(one: &Selected<'_>, other: &Selected<'_>) -> bool
    ensures { result ≡ spec.names_conflict (selected_of one.now) (selected_of other.now) }
{
    one.field.name.as_str() != other.field.name.as_str()
}

/// Lists that two fields of one response key have different names.
pub(crate) fn list_conflicting_names<'x>(
    alloc: Global,
    earlier: &'x Selected<'x>,
    later: &'x Selected<'x>,
    faults: &mut Listed<DiagnosticData>,
) -> Result<(), Memory>
    ensures { OnOk result (faults.new ≡ faults.old ++ spec.conflicting_names (selected_of earlier.now) (selected_of later.now) ∷ []) }
{
    list_fault(
        alloc,
        Rule::ConflictingFieldName,
        &[
            earlier.key().as_str(),
            earlier.field.name.as_str(),
            later.field.name.as_str(),
        ],
        later.field.location,
        earlier.field.location,
        faults,
    )
}
