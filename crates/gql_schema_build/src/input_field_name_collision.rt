//! The fields of an input object type have distinct names (GraphQL October 2021, sections 3.10 and 3.10.1).

ghost use Rattle.std.specs.Prelude.{◌≡◌, ◌++◌, [], IfOk, OnOk};
ghost use Rattle.gql_schema_types.specs.Entries.{joined};
ghost use Rattle.gql_schema_build.specs.InputFieldNameCollision.{input_field_name_collisions};
ghost use Rattle.gql_schema_build.specs.PartNames.{input_name};

use crate::distinct::distinct;
use gql_ast::InputValueDefinition;
use gql_diag_messages::{DiagnosticData, Rule};
use gql_schema_types::Table;
use jb_text::{Listed, Memory};
use std::alloc::Global;

/// The fields of an input object type, of each name the first, and a fault for each other.
pub(crate) fn input_fields(
    alloc: Global,
    owner: &str,
    fields: Listed<InputValueDefinition>,
    faults: &mut Listed<DiagnosticData>,
) -> Result<Table<InputValueDefinition>, Memory>
    ensures table { IfOk result (λ table. table ≡ joined input_name [] fields) }
    ensures faults { OnOk result (faults.new ≡ faults.old ++ input_field_name_collisions owner.now fields) }
{
    distinct(alloc, Rule::InputFieldNameCollision, owner, fields, faults)
}
