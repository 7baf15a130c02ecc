//! An order of the nodes of a graph.

use crate::reach::targets;
use jb_text::{Listed, Memory};
use std::alloc::Global;

/// A node of a walk: to be entered, or to be left, when all that it reaches is done.
#[derive(Clone, Copy)]
struct Step {
    node: usize,
    leaves: bool,
}

/// The nodes of a graph, each behind those that a walk in depth reaches from it. No clause says so: what is made of the order
/// is right for each order, and linear in the size of the graph for this one.
pub(crate) fn finish_order(
    alloc: Global,
    graph: &Listed<Listed<usize>>,
) -> Result<Vec<usize>, Memory> {
    let most = most_steps(graph);
    let mut seen = vec![in alloc; false; graph.len()]?;
    let mut order = Vec::new(alloc);
    for node in 0..graph.len() {
        walk_from(alloc, graph, most, node, seen.as_mut_slice(), &mut order)?;
    }
    Ok(order)
}

/// How many steps walks from each node have at most: each node is left once, and entered once at the start and once for each
/// edge to it.
fn most_steps(graph: &Listed<Listed<usize>>) -> usize {
    let mut most = graph.len().saturating_mul(2);
    for row in graph.as_slice() {
        most = most.saturating_add(row.len());
    }
    most
}

/// Walks in depth from a node over those that are not seen yet.
fn walk_from(
    alloc: Global,
    graph: &Listed<Listed<usize>>,
    most: usize,
    node: usize,
    seen: &mut [bool],
    order: &mut Vec<usize>,
) -> Result<(), Memory> {
    if is_seen(seen, node) {
        return Ok(());
    }
    let mut steps = Vec::new(alloc);
    steps.push(Step {
        node,
        leaves: false,
    })?;
    for _ in 0..most {
        match steps.pop() {
            Some(step) => take(graph, step, seen, &mut steps, order)?,
            None => break,
        }
    }
    Ok(())
}

/// Takes a step: a node that is entered for the first time is to be left behind its targets.
fn take(
    graph: &Listed<Listed<usize>>,
    step: Step,
    seen: &mut [bool],
    steps: &mut Vec<Step>,
    order: &mut Vec<usize>,
) -> Result<(), Memory> {
    if step.leaves {
        order.push(step.node)?;
        return Ok(());
    }
    if is_seen(seen, step.node) {
        return Ok(());
    }
    if step.node < seen.len() {
        seen[step.node] = true;
    }
    steps.push(Step {
        node: step.node,
        leaves: true,
    })?;
    enter_all(targets(graph, step.node), steps)
}

/// Puts these nodes on the stack, to be entered.
fn enter_all(nodes: &[usize], steps: &mut Vec<Step>) -> Result<(), Memory> {
    for node in nodes {
        steps.push(Step {
            node: *node,
            leaves: false,
        })?;
    }
    Ok(())
}

/// Whether a node was entered. A number that is no node counts as entered.
fn is_seen(seen: &[bool], node: usize) -> bool {
    match seen.get(node) {
        Some(found) => *found,
        None => true,
    }
}
