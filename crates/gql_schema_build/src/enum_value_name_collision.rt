//! The values of an enum have distinct names (GraphQL October 2021, sections 3.9 and 3.9.1).

ghost use Rattle.std.specs.Prelude.{◌≡◌, ◌++◌, [], IfOk, OnOk};
ghost use Rattle.gql_schema_types.specs.Entries.{joined};
ghost use Rattle.gql_schema_build.specs.EnumValueNameCollision.{enum_value_name_collisions};
ghost use Rattle.gql_schema_build.specs.PartNames.{value_name};

use crate::distinct::distinct;
use gql_ast::EnumValueDefinition;
use gql_diag_messages::{DiagnosticData, Rule};
use gql_schema_types::Table;
use jb_text::{Listed, Memory};
use std::alloc::Global;

/// The values of an enum, of each name the first, and a fault for each other.
pub(crate) fn enum_values(
    alloc: Global,
    owner: &str,
    values: Listed<EnumValueDefinition>,
    faults: &mut Listed<DiagnosticData>,
) -> Result<Table<EnumValueDefinition>, Memory>
    ensures table { IfOk result (λ table. table ≡ joined value_name [] values) }
    ensures faults { OnOk result (faults.new ≡ faults.old ++ enum_value_name_collisions owner.now values) }
{
    distinct(alloc, Rule::EnumValueNameCollision, owner, values, faults)
}
