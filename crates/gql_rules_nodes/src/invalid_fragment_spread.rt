//! A fragment stands where objects of its type can be (GraphQL October 2021, section 5.5.2.3).

ghost use Rattle.std.specs.Prelude.{◌≡◌, ◌++◌, OnOk};
ghost use Rattle.gql_rules_nodes.specs.InvalidFragmentSpread as spec;

use crate::known_types::KnownTypes;
use gql_diag_messages::{DiagnosticData, Rule};
use gql_document_types::{Fragment, FragmentSpread};
use gql_rules_values::list_fault;
use gql_schema_types::Table;
use gql_source::SourceSpan;
use jb_text::{Listed, Memory};
use std::alloc::Global;

/// Lists a spread of a fragment in a set on this type, if no object type is possible for both. A fragment that is not defined
/// has no type.
pub(crate) fn list_invalid_spread(
    alloc: Global,
    known: &KnownTypes<'_>,
    fragments: &Table<Fragment>,
    parent: &str,
    spread: &FragmentSpread,
    faults: &mut Listed<DiagnosticData>,
) -> Result<(), Memory>
    ensures { OnOk result (faults.new
        ≡ faults.old ++ spec.spread_at known.now.schema.now.types fragments.now parent.now spread.now.fragment_name.text spread.now.location) }
{
    match fragments.get(spread.fragment_name.as_str()) {
        Some(fragment) => list_invalid_fragment_spread(
            alloc,
            known,
            spread.fragment_name.as_str(),
            parent,
            fragment.selection_set.ty.as_str(),
            spread.location,
            faults,
        ),
        None => Ok(()),
    }
}

/// Lists a fragment, whose name is empty where it has none, if no object type is possible both for the type of the set that it
/// stands in and for its condition.
pub(crate) fn list_invalid_fragment_spread(
    alloc: Global,
    known: &KnownTypes<'_>,
    name: &str,
    parent: &str,
    condition: &str,
    place: Option<SourceSpan>,
    faults: &mut Listed<DiagnosticData>,
) -> Result<(), Memory>
    ensures { OnOk result (faults.new ≡ faults.old ++ spec.invalid_spread known.now.schema.now.types name.now parent.now condition.now place) }
{
    if known.can_meet(parent, condition) {
        Ok(())
    } else {
        list_fault(
            alloc,
            Rule::InvalidFragmentSpread,
            &[name, parent, condition],
            place,
            None,
            faults,
        )
    }
}
