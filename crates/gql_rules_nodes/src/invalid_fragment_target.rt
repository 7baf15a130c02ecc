//! A fragment is on an object, an interface or a union (GraphQL October 2021, section 5.5.1.3).

ghost use Rattle.std.specs.Prelude.{◌≡◌, ◌++◌, OnOk};
ghost use Rattle.gql_rules_nodes.specs.InvalidFragmentTarget as spec;

use crate::composite::is_of_other_kind;
use gql_diag_messages::{DiagnosticData, Rule};
use gql_rules_values::list_fault;
use gql_schema_types::{ExtendedType, Table};
use gql_source::SourceSpan;
use jb_text::{Listed, Memory};
use std::alloc::Global;

/// Lists a fragment, whose name is empty where it has none, if its condition is a type of another kind.
pub(crate) fn list_invalid_fragment_target(
    alloc: Global,
    types: &Table<ExtendedType>,
    name: &str,
    condition: &str,
    place: Option<SourceSpan>,
    faults: &mut Listed<DiagnosticData>,
) -> Result<(), Memory>
    ensures { OnOk result (faults.new ≡ faults.old ++ spec.invalid_target types.now name.now condition.now place) }
{
    if is_of_other_kind(types, condition) {
        list_fault(
            alloc,
            Rule::InvalidFragmentTarget,
            &[name, condition],
            place,
            None,
            faults,
        )
    } else {
        Ok(())
    }
}
