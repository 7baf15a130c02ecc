//! The fields of a set of selections.

ghost use Rattle.std.specs.Prelude.{◌≡◌, ◌++◌, IfOk, OnOk, length, slice_set};
ghost use Rattle.gql_graph.specs.bridge.Explored as spec;
ghost use Rattle.gql_graph.specs.bridge.Steps as step;

use crate::reach::{Graph, flood};
use jb_text::Memory;
use std::alloc::Global;

/// The fields of a set that selects these, with each fragment entered once. The time is linear in what is entered.
pub(crate) fn fields_of(
    alloc: Global,
    fragments: &Graph,
    states: &mut [usize],
    items: &[usize],
) -> Result<Vec<usize>, Memory>
    requires { spec.AreUnmarked states.old }
    ensures fields { IfOk result (λ fields. spec.AreFields fragments.now (length states.old) items.now fields.items) }
    ensures states { OnOk result (spec.AreUnmarked states.new) }
{
    let nodes = flood(alloc, fragments, states, items, 0, 1)?;
    let fields = marked_fields(alloc, fragments.len(), states, nodes.as_slice())?;
    reset_all(states, nodes.as_slice());
    Ok(fields)
}

/// The fields among these nodes that are marked.
fn marked_fields(
    alloc: Global,
    base: usize,
    states: &[usize],
    nodes: &[usize],
) -> Result<Vec<usize>, Memory>
    ensures { IfOk result (λ fields. fields.items ≡ step.fields_at base states.now nodes.now) }
{
    let mut fields = Vec::new(alloc);
    for node in nodes {
        add_field(base, states, *node, &mut fields)?;
    }
    Ok(fields)
}

/// Adds a node's field, if it is marked and one of a field.
fn add_field(
    base: usize,
    states: &[usize],
    node: usize,
    fields: &mut Vec<usize>,
) -> Result<(), Memory>
    ensures { OnOk result (fields.new.items ≡ fields.old.items ++ step.field_at base states.now node) }
{
    if is_marked(states, node) && base <= node {
        fields.push(node - base)?;
    }
    Ok(())
}

/// Whether a node is marked.
fn is_marked(states: &[usize], node: usize) -> bool
    ensures { result ≡ step.is_marked states.now node }
{
    match states.get(node) {
        Some(mark) => *mark == 1,
        None => false,
    }
}

/// Takes the marks off these nodes.
fn reset_all(states: &mut [usize], nodes: &[usize])
    ensures { states.new ≡ step.all_reset states.old nodes.now }
{
    for node in nodes {
        reset(states, *node);
    }
}

fn reset(states: &mut [usize], node: usize)
    ensures { states.new ≡ slice_set states.old node 0 }
{
    if node < states.len() {
        states[node] = 0;
    }
}
