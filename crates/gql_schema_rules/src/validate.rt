//! The validation of schemas.

ghost use Rattle.std.specs.Prelude.{◌≡◌, OnOk, OnErr};
ghost use Rattle.gql_schema_rules.specs.SchemaFaults.{HasListedAllFaults, HasListedSomeFaults};
ghost use Rattle.gql_schema_rules.specs.Scalars.{validated};

use crate::scalars::settle_scalars;
use crate::schema_faults::schema_faults;
use gql_diag::{DiagnosticList, take_faults};
use gql_schema_types::Schema;
use jb_text::Memory;
use std::alloc::Global;

/// Lists what is wrong with a schema (GraphQL October 2021, section 3): one diagnostic for each fault of each rule, and none
/// else, in the order of lists. What is built in is not looked at, but all that an extension adds to it is.
///
/// Then each of the scalars `Int`, `Float` and `ID` is dropped that nothing names which is not built in, and each built-in scalar
/// that is named and missing is added last. One that is missing counts as defined.
///
/// `Err` only when out of memory: then the list has some of the faults, and the schema is as it was.
pub fn validate_schema(
    alloc: Global,
    schema: &mut Schema,
    errors: &mut DiagnosticList,
) -> Result<(), Memory>
    ensures faults { OnOk result (HasListedAllFaults schema.old errors.old.items errors.new.items) }
    ensures schema { OnOk result (schema.new ≡ validated schema.old) }
    ensures sources { errors.new.sources ≡ errors.old.sources }
    ensures unchanged { OnErr result (schema.new ≡ schema.old) }
    ensures some { OnErr result (HasListedSomeFaults schema.old errors.old.items errors.new.items) }
{
    list_faults(alloc, schema, errors)?;
    settle_scalars(alloc, &schema.directive_definitions, &mut schema.types)
}

/// Lists what is wrong with a schema, in the order of lists. Where memory has run out, the list has some of the faults.
fn list_faults(alloc: Global, schema: &Schema, errors: &mut DiagnosticList) -> Result<(), Memory>
    ensures faults { OnOk result (HasListedAllFaults schema.now errors.old.items errors.new.items) }
    ensures sources { errors.new.sources ≡ errors.old.sources }
    ensures some { OnErr result (HasListedSomeFaults schema.now errors.old.items errors.new.items) }
{
    let faults = schema_faults(alloc, schema)?;
    take_faults(faults, errors)
}
