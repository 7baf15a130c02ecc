//! The fields of an object type have distinct names (GraphQL October 2021, sections 3.6 and 3.6.3).

ghost use Rattle.std.specs.Prelude.{◌≡◌, ◌++◌, [], IfOk, OnOk};
ghost use Rattle.gql_schema_types.specs.Entries.{joined};
ghost use Rattle.gql_schema_build.specs.ObjectFieldNameCollision.{object_field_name_collisions};
ghost use Rattle.gql_schema_build.specs.PartNames.{field_name};

use crate::distinct::distinct;
use crate::parts_listed::shared;
use gql_ast::FieldDefinition;
use gql_diag_messages::{DiagnosticData, Rule};
use gql_schema_types::{Shared, Table};
use jb_text::{Listed, Memory};
use std::alloc::Global;

/// The fields of an object type, of each name the first, and a fault for each other.
pub(crate) fn object_fields(
    alloc: Global,
    owner: &str,
    fields: Listed<FieldDefinition>,
    faults: &mut Listed<DiagnosticData>,
) -> Result<Table<Shared<FieldDefinition>>, Memory>
    ensures table { IfOk result (λ table. table ≡ joined field_name [] fields) }
    ensures faults { OnOk result (faults.new ≡ faults.old ++ object_field_name_collisions owner.now fields) }
{
    let fields = shared(alloc, fields)?;
    distinct(alloc, Rule::ObjectFieldNameCollision, owner, fields, faults)
}
