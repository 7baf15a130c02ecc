//! A fragment is on a type that is defined (GraphQL October 2021, section 5.5.1.2). It is asked in `operation_faults.rt`.

ghost use Rattle.std.specs.Prelude.{◌≡◌, ◌++◌, ◌∷◌, [], OnOk};
ghost use Rattle.gql_document.specs.UndefinedTypeInNamedFragmentTypeCondition as spec;

use crate::fault::list_name;
use gql_ast::FragmentDefinition;
use gql_diag_messages::{DiagnosticData, Rule};
use jb_text::{Listed, Memory};
use std::alloc::Global;

/// Lists a fragment whose condition is not defined.
pub(crate) fn list_undefined_type_in_named_fragment_type_condition(
    alloc: Global,
    fragment: &FragmentDefinition,
    faults: &mut Listed<DiagnosticData>,
) -> Result<(), Memory>
    ensures { OnOk result (faults.new ≡ faults.old ++ spec.undefined_type_in_named_fragment_type_condition fragment.now ∷ []) }
{
    list_name(
        alloc,
        Rule::UndefinedTypeInNamedFragmentTypeCondition,
        &fragment.type_condition,
        None,
        faults,
    )
}
