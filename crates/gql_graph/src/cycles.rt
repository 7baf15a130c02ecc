//! Nodes on cycles: those from which a walk of at least one edge leads back.
//!
//! The graph is divided into parts, in which each node reaches each. A part is what a node reaches and is reached from. The
//! nodes are taken in an order in which little is reached that is not in the part, so the edges are looked at a few times.

ghost use Rattle.std.specs.Prelude.{◌≡◌, ◌<◌, ◌+◌, ℕ, length, IfOk, OnOk, slice_get};
ghost use Rattle.gql_graph.specs.Cycles as spec;
ghost use Rattle.gql_graph.specs.bridge.Cycles as spec_bridge;
ghost use Rattle.std.specs.List.{list_any};
ghost use Rattle.gql_graph.specs.Flooding as mark;

use crate::order::finish_order;
use crate::reach::{flood, has, set_all, targets};
use crate::reverse::reverse;
use jb_text::{Listed, Memory};
use std::alloc::Global;

/// Tells of each node whether it is on a cycle. `Err` only when out of memory.
pub(crate) fn on_cycles(
    alloc: Global,
    graph: &Listed<Listed<usize>>,
    reversed: &Listed<Listed<usize>>,
) -> Result<Vec<bool>, Memory>
    requires { spec_bridge.IsReverse graph.now reversed.now }
    ensures { IfOk result (λ marks. spec.AreMarked (spec.IsOnCycle graph.now) (length graph.now) marks.items) }
{
    let parts = parts(alloc, graph, reversed)?;
    let mut marks = Vec::new(alloc);
    for node in 0..graph.len() {
        let here = shares_part(parts.as_slice(), node, targets(graph, node));
        marks.push(here)?;
    }
    Ok(marks)
}

/// Whether one of these nodes is in the part of a node.
fn shares_part(parts: &[usize], node: usize, others: &[usize]) -> bool
    ensures { result ≡ spec_bridge.shares_part parts.now node others.now }
{
    match parts.get(node) {
        Some(part) => any_in_part(parts, others, *part),
        None => false,
    }
}

/// Whether one of these nodes has this part.
fn any_in_part(parts: &[usize], others: &[usize], part: usize) -> bool
    ensures { result ≡ list_any (λ other. mark.has part (slice_get parts.now other)) others.now }
{
    others.iter().any(|other| has(parts, *other, part))
}

/// The part of each node, by a number that is at least 2.
fn parts(
    alloc: Global,
    graph: &Listed<Listed<usize>>,
    reversed: &Listed<Listed<usize>>,
) -> Result<Vec<usize>, Memory>
    requires { spec_bridge.IsReverse graph.now reversed.now }
    ensures parts { IfOk result (λ parts. spec_bridge.IsPartitioned graph.now parts.items) }
    ensures all { IfOk result (λ parts. (v : ℕ) → v < length graph.now → spec_bridge.HasPart parts.items v) }
{
    let order = finish_order(alloc, reversed)?;
    let mut parts = vec![in alloc; 0; graph.len()]?;
    take_in_order(
        alloc,
        graph,
        reversed,
        parts.as_mut_slice(),
        order.as_slice(),
    )?;
    take_each(alloc, graph, reversed, parts.as_mut_slice())?;
    Ok(parts)
}

/// Gives the nodes of an order their numbers, the last first.
fn take_in_order(
    alloc: Global,
    graph: &Listed<Listed<usize>>,
    reversed: &Listed<Listed<usize>>,
    parts: &mut [usize],
    order: &[usize],
) -> Result<(), Memory>
    requires reversed { spec_bridge.IsReverse graph.now reversed.now }
    requires parts { spec_bridge.IsPartitioned graph.now parts.old }
    ensures { OnOk result (spec_bridge.IsPartitioned graph.now parts.new) }
{
    for index in 0..order.len() {
        let node = order[order.len() - 1 - index];
        take_part(alloc, graph, reversed, parts, node)?;
    }
    Ok(())
}

/// Gives each node its number.
fn take_each(
    alloc: Global,
    graph: &Listed<Listed<usize>>,
    reversed: &Listed<Listed<usize>>,
    parts: &mut [usize],
) -> Result<(), Memory>
    requires reversed { spec_bridge.IsReverse graph.now reversed.now }
    requires parts { spec_bridge.IsPartitioned graph.now parts.old }
    ensures parts { OnOk result (spec_bridge.IsPartitioned graph.now parts.new) }
    ensures all { OnOk result ((v : ℕ) → v < length graph.now → spec_bridge.HasPart parts.new v) }
{
    for node in 0..graph.len() {
        take_part(alloc, graph, reversed, parts, node)?;
    }
    Ok(())
}

/// Gives a node and all that are in its part their number, if it has none.
fn take_part(
    alloc: Global,
    graph: &Listed<Listed<usize>>,
    reversed: &Listed<Listed<usize>>,
    parts: &mut [usize],
    node: usize,
) -> Result<(), Memory>
    requires { spec_bridge.IsReverse graph.now reversed.now }
    ensures parts { OnOk result (spec_bridge.IsPartitioned graph.now parts.old → spec_bridge.IsPartitioned graph.now parts.new) }
    ensures taken { OnOk result (spec_bridge.IsPartitioned graph.now parts.old → node < length graph.now → spec_bridge.HasPart parts.new node) }
    ensures kept { OnOk result (spec_bridge.IsPartitioned graph.now parts.old → (v : ℕ) → spec_bridge.HasPart parts.old v → spec_bridge.HasPart parts.new v) }
{
    if !has(parts, node, 0) {
        return Ok(());
    }
    let part = number_of(parts, node);
    let starts = [node];
    let found = flood(alloc, graph, parts, starts.as_slice(), 0, 1)?;
    let _part = flood(alloc, reversed, parts, starts.as_slice(), 1, part)?;
    set_all(parts, found.as_slice(), 1, 0);
    Ok(())
}

/// The number of the part that begins with a node.
fn number_of(parts: &[usize], node: usize) -> usize
    requires { node < length parts.now }
    ensures { result ≡ node + 2 }
{
    let count = parts.len();
    if node < count { node + 2 } else { 2 }
}
