//! What a builder answers: a schema, or a schema and what is wrong.

ghost use Rattle.gql_diag.specs.Judged.{IsJudged};

use gql_diag::{DiagnosticData, DiagnosticList, WithErrors};
use gql_schema_types::Schema;
use jb_text::{Listed, Refused};
use std::alloc::Global;

/// The schema, if there are no faults, and else the refusal that tells them.
pub(crate) fn judged(
    alloc: Global,
    schema: Schema,
    faults: Listed<DiagnosticData>,
) -> Result<Schema, Refused<WithErrors<Schema>>>
    ensures { IsJudged schema schema.sources faults result }
{
    if faults.is_empty() {
        return Ok(schema);
    }
    match DiagnosticList::sorted(alloc, &schema.sources, faults) {
        Ok(errors) => Err(Refused::Fault(WithErrors {
            partial: schema,
            errors,
        })),
        Err(_) => Err(Refused::Memory),
    }
}
