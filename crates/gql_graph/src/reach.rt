//! Marks what is reached in a graph: each edge is looked at once, and cycles are allowed.

ghost use Rattle.std.specs.Prelude.{◌≡◌, ◌≢◌, IfOk, OnOk, slice_get};
ghost use Rattle.gql_graph.specs.Flooding as step;
ghost use Rattle.gql_graph.specs.bridge.Flooding as step_bridge;
ghost use Rattle.gql_graph.specs.Graph.{row};
ghost use Rattle.gql_graph.specs.bridge.Graph.{IsFlooded};

use jb_text::{Listed, Memory};
use std::alloc::Global;

/// A graph: at each node the nodes that its edges lead to.
pub type Graph = Listed<Listed<usize>>;

/// Marks each node with `to` that is reached from one of `starts` over nodes marked `from`, and gives them in the order in
/// which they are found. It looks at each of their edges once. `Err` only when out of memory.
pub fn flood(
    alloc: Global,
    graph: &Listed<Listed<usize>>,
    states: &mut [usize],
    starts: &[usize],
    from: usize,
    to: usize,
) -> Result<Vec<usize>, Memory>
    requires { from ≢ to }
    ensures { IfOk result (λ found. IsFlooded graph.now states.old states.new starts.now from to found.items) }
{
    let mut queue = Vec::new(alloc);
    visit_all(states, &mut queue, starts, from, to)?;
    let mut next = 0;
    while next < queue.len() {
        let node = queue[next];
        visit_all(states, &mut queue, targets(graph, node), from, to)?;
        next += 1;
    }
    Ok(queue)
}

/// Where the edges of a node lead.
pub fn targets(graph: &Listed<Listed<usize>>, node: usize) -> &[usize]
    ensures { result.now ≡ row graph.now node }
{
    match graph.get(node) {
        Some(targets) => targets.as_slice(),
        None => &[],
    }
}

/// Visits these nodes.
fn visit_all(
    states: &mut [usize],
    queue: &mut Vec<usize>,
    nodes: &[usize],
    from: usize,
    to: usize,
) -> Result<(), Memory>
    ensures states { OnOk result (states.new ≡ step_bridge.all_marked from to states.old nodes.now) }
    ensures queue { OnOk result (queue.new.items ≡ step_bridge.all_queued from to states.old queue.old.items nodes.now) }
{
    for node in nodes {
        visit(states, queue, *node, from, to)?;
    }
    Ok(())
}

/// Marks a node and puts it into the queue, if it has the old mark.
fn visit(
    states: &mut [usize],
    queue: &mut Vec<usize>,
    node: usize,
    from: usize,
    to: usize,
) -> Result<(), Memory>
    ensures states { OnOk result (states.new ≡ step_bridge.marked from to states.old node) }
    ensures queue { OnOk result (queue.new.items ≡ step_bridge.queued from states.old queue.old.items node) }
{
    if has(states, node, from) {
        states[node] = to;
        queue.push(node)?;
    }
    Ok(())
}

/// Marks those of these nodes with `to` that are marked `from`.
pub(crate) fn set_all(states: &mut [usize], nodes: &[usize], from: usize, to: usize)
    ensures { states.new ≡ step_bridge.all_marked from to states.old nodes.now }
{
    for node in nodes {
        set_one(states, *node, from, to);
    }
}

/// Marks a node with `to`, if it is marked `from`.
fn set_one(states: &mut [usize], node: usize, from: usize, to: usize)
    ensures { states.new ≡ step_bridge.marked from to states.old node }
{
    if has(states, node, from) {
        states[node] = to;
    }
}

/// Whether a node has this mark.
pub(crate) fn has(states: &[usize], node: usize, mark: usize) -> bool
    ensures { result ≡ step.has mark (slice_get states.now node) }
{
    match states.get(node) {
        Some(found) => *found == mark,
        None => false,
    }
}
