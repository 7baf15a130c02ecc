//! The uses of variables in the fragments of a document, judged for operations one after another.

ghost use Rattle.std.specs.Prelude.{◌≡◌, ◌++◌, IfOk, OnOk};
ghost use Rattle.gql_rules.specs.bridge.Judged as spec;
ghost use Rattle.gql_rules.specs.bridge.Operations as step;
ghost use Rattle.gql_rules.specs.bridge.Views as seen;

use crate::document_uses::fragment_uses;
use crate::judged::{JudgedUse, fresh_row, judge_row, list_row};
use crate::variables::Variables;
use gql_diag_messages::DiagnosticData;
use gql_document_types::Fragment;
use gql_rules_nodes::is_reached;
use gql_schema_types::Schema;
use jb_map::KeyTable;
use jb_text::{Listed, Memory};
use std::alloc::Global;

/// The uses in each fragment, judged for no operation.
pub(crate) fn fresh_rows<'d>(
    alloc: Global,
    schema: &'d Schema,
    fragments: &'d [Fragment],
) -> Result<Listed<Listed<JudgedUse<'d>>>, Memory>
    ensures { IfOk result (λ rows. seen.rows_of rows ≡ step.fresh_rows schema.now fragments.now) }
{
    let mut rows = Listed::new(alloc);
    for fragment in fragments {
        let uses = fragment_uses(alloc, schema, fragment)?;
        rows.push(fresh_row(alloc, uses)?)?;
    }
    Ok(rows)
}

/// Judges the uses in the fragments that are marked for an operation with these variables too, and notes the names that they
/// use.
pub(crate) fn judge_rows<'d>(
    alloc: Global,
    variables: &Variables<'d>,
    states: &[usize],
    rows: Listed<Listed<JudgedUse<'d>>>,
    names: &mut KeyTable,
) -> Result<Listed<Listed<JudgedUse<'d>>>, Memory>
    ensures judged { IfOk result (λ judged. seen.rows_of judged ≡ spec.rows_judged variables.now.types.now variables.now.definitions.now states.now 0 (seen.rows_of rows.entry)) }
    ensures names { OnOk result (names.new ≡ step.rows_noted states.now 0 names.old (seen.rows_of rows.entry)) }
{
    let mut judged = Listed::new(alloc);
    for row in rows {
        let reached = is_reached(states, judged.len());
        let row = judge_if(alloc, reached, variables, row, names)?;
        judged.push(row)?;
    }
    Ok(judged)
}

/// Judges the uses in a fragment, if it is reached.
fn judge_if<'d>(
    alloc: Global,
    reached: bool,
    variables: &Variables<'d>,
    row: Listed<JudgedUse<'d>>,
    names: &mut KeyTable,
) -> Result<Listed<JudgedUse<'d>>, Memory>
    ensures judged { IfOk result (λ judged. seen.row_of judged ≡ step.judged_if reached variables.now.types.now variables.now.definitions.now (seen.row_of row.entry)) }
    ensures names { OnOk result (names.new ≡ step.noted_if reached names.old (seen.row_of row.entry)) }
{
    if reached {
        judge_row(alloc, variables, row, names)
    } else {
        Ok(row)
    }
}

/// Lists what is wrong with the uses in fragments.
pub(crate) fn list_rows(
    alloc: Global,
    rows: &[Listed<JudgedUse<'_>>],
    faults: &mut Listed<DiagnosticData>,
) -> Result<(), Memory>
    ensures { OnOk result (faults.new ≡ faults.old ++ step.rows_told (seen.rows_of rows.now)) }
{
    for row in rows {
        list_row(alloc, row.as_slice(), faults)?;
    }
    Ok(())
}
