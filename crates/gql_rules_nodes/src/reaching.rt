//! What some nodes of a graph reach.

ghost use Rattle.std.specs.Prelude.{◌≡◌, IfOk};
ghost use Rattle.gql_rules_nodes.specs.Reached as spec;

use gql_graph::{Graph, flood};
use jb_text::Memory;
use std::alloc::Global;

/// Marks each node with 1 that one of these nodes reaches, itself included, and the others with 0. `Err` only when out of memory.
pub fn reached(alloc: Global, graph: &Graph, starts: &[usize]) -> Result<Vec<usize>, Memory>
    ensures { IfOk result (λ states. spec.AreReached graph.now starts.now states.items) }
{
    let mut states = vec![in alloc; 0; graph.len()]?;
    flood(alloc, graph, states.as_mut_slice(), starts, 0, 1)?;
    Ok(states)
}

/// Whether a node is marked so.
#[must_use]
pub fn is_reached(states: &[usize], node: usize) -> bool
    ensures { result ≡ spec.is_reached states.now node }
{
    match states.get(node) {
        Some(state) => *state == 1,
        None => false,
    }
}
