//! A graph the other way round.

ghost use Rattle.std.specs.Prelude.{◌≡◌, ◌<◌, IfOk, OnOk};
ghost use Rattle.gql_graph.specs.bridge.Cycles.{IsReverse};
ghost use Rattle.gql_graph.specs.bridge.Reversing as step;

use crate::reach::targets;
use jb_text::{Listed, Memory};
use std::alloc::Global;

/// The same nodes with each edge the other way round. `Err` only when out of memory.
pub(crate) fn reverse(
    alloc: Global,
    graph: &Listed<Listed<usize>>,
) -> Result<Listed<Listed<usize>>, Memory>
    ensures { IfOk result (λ made. IsReverse graph.now made) }
{
    let mut made = no_edges(alloc, graph.len())?;
    for node in 0..graph.len() {
        add_all(&mut made, node, targets(graph, node))?;
    }
    Ok(made)
}

/// So many nodes without edges.
fn no_edges(alloc: Global, count: usize) -> Result<Listed<Listed<usize>>, Memory>
    ensures { IfOk result (λ made. made ≡ step.no_edges count) }
{
    let mut made = Listed::new(alloc);
    for _node in 0..count {
        made.push(Listed::new(alloc))?;
    }
    Ok(made)
}

/// Adds an edge to the node from each of these.
fn add_all(made: &mut Listed<Listed<usize>>, node: usize, others: &[usize]) -> Result<(), Memory>
    ensures { OnOk result (made.new ≡ step.all_added made.old node others.now) }
{
    for other in others {
        add(made, node, *other)?;
    }
    Ok(())
}

/// Adds an edge to the node from the other, if that is a node.
fn add(made: &mut Listed<Listed<usize>>, node: usize, other: usize) -> Result<(), Memory>
    ensures { OnOk result (made.new ≡ step.added made.old node other) }
{
    match made.get_mut(other) {
        Some(row) => row.push(node),
        None => Ok(()),
    }
}
