//! A member of a union is an object type (GraphQL October 2021, section 3.8).

ghost use Rattle.std.specs.Prelude.{◌≡◌, ◌++◌, OnOk};
ghost use Rattle.gql_schema_rules_parts.specs.UnionMemberObjectType as spec;

use crate::object_types::is_another_kind;
use gql_ast_base::Name;
use gql_diag_messages::{DiagnosticData, Rule};
use gql_rules_values::list_name;
use gql_schema_types::{ExtendedType, Table};
use jb_text::{Listed, Memory};
use std::alloc::Global;

/// Lists a member of a union that is the name of a type of another kind.
pub(crate) fn list_union_member_object_type(
    alloc: Global,
    types: &Table<ExtendedType>,
    name: &Name,
    faults: &mut Listed<DiagnosticData>,
) -> Result<(), Memory>
    ensures { OnOk result (faults.new ≡ faults.old ++ spec.union_member_object_type types.now name.now) }
{
    if is_another_kind(types, name.as_str()) {
        list_name(alloc, Rule::UnionMemberObjectType, name, faults)
    } else {
        Ok(())
    }
}
