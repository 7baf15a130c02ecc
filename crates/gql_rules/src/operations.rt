//! The uses of variables, judged for one operation.

ghost use Rattle.std.specs.Prelude.{◌≡◌, ◌++◌, List, IfOk, OnOk};
ghost use Rattle.gql_document_types.specs.Spreads.{spread_graph, spread_numbers};
ghost use Rattle.gql_rules_nodes.specs.Reached.{AreReached};
ghost use Rattle.gql_rules.specs.bridge.Operations as step;
ghost use Rattle.gql_rules.specs.bridge.Views as seen;

use crate::document_uses::operation_uses;
use crate::judged::{JudgedUse, fresh_row, judge_row, list_row};
use crate::rows::judge_rows;
use crate::unused_variable::list_unused_variables;
use crate::variables::Variables;
use gql_diag_messages::DiagnosticData;
use gql_document_types::{Fragment, Operation, add_spreads};
use gql_graph::Graph;
use gql_rules_nodes::reached;
use gql_schema_types::{Schema, Table};
use jb_map::KeyTable;
use jb_text::{Listed, Memory};
use std::alloc::Global;

/// Judges the uses in the fragments that an operation reaches for it too. Lists what is wrong with the uses in the operation
/// itself, and its variables that are not used.
pub(crate) fn judge_operation<'d>(
    alloc: Global,
    schema: &'d Schema,
    fragments: &'d Table<Fragment>,
    graph: &Graph,
    operation: &'d Operation,
    rows: Listed<Listed<JudgedUse<'d>>>,
    faults: &mut Listed<DiagnosticData>,
) -> Result<Listed<Listed<JudgedUse<'d>>>, Memory>
    requires { graph.now ≡ spread_graph fragments.now }
    ensures { IfOk result (λ judged. step.IsJudged schema.now fragments.now operation.now (seen.rows_of rows.entry) faults.old (seen.rows_of judged) faults.new) }
{
    let states = reached_fragments(alloc, fragments, graph, operation)?;
    judge_marked(alloc, schema, operation, states.as_slice(), rows, faults)
}

/// The same, where the fragments that the operation reaches are marked.
fn judge_marked<'d>(
    alloc: Global,
    schema: &'d Schema,
    operation: &'d Operation,
    states: &[usize],
    rows: Listed<Listed<JudgedUse<'d>>>,
    faults: &mut Listed<DiagnosticData>,
) -> Result<Listed<Listed<JudgedUse<'d>>>, Memory>
    ensures judged { IfOk result (λ judged. seen.rows_of judged ≡ step.rows_after schema.now operation.now states.now (seen.rows_of rows.entry)) }
    ensures faults { OnOk result (faults.new ≡ faults.old ++ step.operation_told schema.now operation.now states.now (seen.rows_of rows.entry)) }
{
    let variables = Variables::new(alloc, &schema.types, &operation.variables)?;
    let uses = operation_uses(alloc, schema, operation)?;
    let own = fresh_row(alloc, uses)?;
    let mut names = KeyTable::new(alloc);
    let own = judge_row(alloc, &variables, own, &mut names)?;
    let judged = judge_rows(alloc, &variables, states, rows, &mut names)?;
    list_row(alloc, own.as_slice(), faults)?;
    list_unused_variables(alloc, &names, operation.variables.as_slice(), faults)?;
    Ok(judged)
}

/// Marks the fragments that an operation reaches by spreads.
fn reached_fragments(
    alloc: Global,
    fragments: &Table<Fragment>,
    graph: &Graph,
    operation: &Operation,
) -> Result<Vec<usize>, Memory>
    ensures { IfOk result (λ states. AreReached graph.now (spread_numbers fragments.now operation.now.selection_set.selections) states.items) }
{
    let mut starts = Listed::new(alloc);
    add_spreads(fragments, &operation.selection_set.selections, &mut starts)?;
    let states = reached(alloc, graph, starts.as_slice())?;
    Ok(states)
}
