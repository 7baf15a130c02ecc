//! An inline fragment is on a type that is defined (GraphQL October 2021, section 5.5.1.2).

ghost use Rattle.std.specs.Prelude.{◌≡◌, ◌++◌, OnOk};
ghost use Rattle.gql_document.specs.UndefinedTypeInInlineFragmentTypeCondition as spec;

use crate::fault::list_name;
use gql_ast_base::Name;
use gql_diag_messages::{DiagnosticData, Rule};
use gql_schema_types::Schema;
use jb_text::{Listed, Memory};
use std::alloc::Global;

/// Lists the condition of an inline fragment, where it has one that is not defined.
pub(crate) fn list_undefined_type_in_inline_fragment_type_condition(
    alloc: Global,
    schema: &Schema,
    condition: &Option<Name>,
    faults: &mut Listed<DiagnosticData>,
) -> Result<(), Memory>
    ensures { OnOk result (faults.new ≡ faults.old ++ spec.undefined_type_in_inline_fragment_type_condition schema.now condition.now) }
{
    match condition {
        Some(name) => list_condition(alloc, schema, name, faults),
        None => Ok(()),
    }
}

/// Lists a condition that is not defined.
fn list_condition(
    alloc: Global,
    schema: &Schema,
    name: &Name,
    faults: &mut Listed<DiagnosticData>,
) -> Result<(), Memory>
    ensures { OnOk result (faults.new ≡ faults.old ++ spec.undefined_condition schema.now name.now) }
{
    match schema.types.get(name.as_str()) {
        Some(_) => Ok(()),
        None => list_name(
            alloc,
            Rule::UndefinedTypeInInlineFragmentTypeCondition,
            name,
            None,
            faults,
        ),
    }
}
