//! The rows of a table between two places in it.

ghost use Rattle.std.specs.Prelude.{◌≡◌, IfOk, slice_range};
ghost use Rattle.gql_schema.specs.Rows as spec;

use crate::built_in_field_rows::{ARGUMENTS, FIELDS};
use crate::built_in_row::{ArgumentRow, FieldRow, Place, Run};
use crate::built_in_rows::{LOCATIONS, VALUES};
use gql_ast::DirectiveLocation;
use jb_text::Memory;
use std::alloc::AllocError;

/// The rows of the run. `Err` where the table has no such rows.
fn rows_at<R>(rows: &[R], run: Run) -> Result<&[R], Memory>
    ensures { IfOk result (λ found. found.now ≡ slice_range rows.now run.0 run.1) }
{
    if run.0 <= run.1 && run.1 <= rows.len() {
        Ok(&rows[run.0..run.1])
    } else {
        Err(AllocError)
    }
}

/// The rows of these arguments.
#[tactic(auto, unfolding(crate::specs::Rows::arguments_at))]
pub(crate) fn arguments_at(run: Run) -> Result<&'static [ArgumentRow], Memory>
    ensures { IfOk result (λ found. found.now ≡ spec.arguments_at run) }
{
    rows_at(ARGUMENTS, run)
}

/// The rows of these fields.
#[tactic(auto, unfolding(crate::specs::Rows::fields_at))]
pub(crate) fn fields_at(run: Run) -> Result<&'static [FieldRow], Memory>
    ensures { IfOk result (λ found. found.now ≡ spec.fields_at run) }
{
    rows_at(FIELDS, run)
}

/// The rows of these values.
#[tactic(auto, unfolding(crate::specs::Rows::values_at))]
pub(crate) fn values_at(run: Run) -> Result<&'static [Place], Memory>
    ensures { IfOk result (λ found. found.now ≡ spec.values_at run) }
{
    rows_at(VALUES, run)
}

/// These places of directives.
#[tactic(auto, unfolding(crate::specs::Rows::locations_at))]
pub(crate) fn locations_at(run: Run) -> Result<&'static [DirectiveLocation], Memory>
    ensures { IfOk result (λ found. found.now ≡ spec.locations_at run) }
{
    rows_at(LOCATIONS, run)
}
