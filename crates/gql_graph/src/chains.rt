//! Names that lead back to themselves, and chains of names that are too long.

ghost use Rattle.std.specs.Prelude.{◌≡◌, ◌++◌, ℕ, true, length, IfOk, OnOk};
ghost use Rattle.std.specs.List.{list_any};
ghost use Rattle.gql_graph.specs.Chains as spec;
ghost use Rattle.gql_graph.specs.bridge.Chains as spec_bridge;
ghost use Rattle.gql_graph.specs.bridge.Cycles.{Told};
ghost use Rattle.gql_graph.specs.bridge.Flat.{is_flat};
ghost use Rattle.gql_graph.specs.Graph.{row};

use crate::cycles::on_cycles;
use crate::flat::is_flat;
use crate::reach::{flood, has, targets};
use crate::reverse::reverse;
use jb_text::{Listed, Memory};
use std::alloc::Global;

/// The most names that a chain has, itself included.
const MOST_NAMES: usize = 32;

/// What was found of each node of a graph.
#[derive(Drop)]
pub struct Judged {
    /// Whether a walk of at least one edge leads back.
    pub recursive: Vec<bool>,
    /// Whether a chain of more than 32 names begins there, though no cycle is reached.
    pub long: Vec<bool>,
}

/// Tells of each node whether a walk of at least one edge leads back to it, and whether a chain of more than 32 names begins
/// there though no cycle is reached. Only the nodes before `named` are names: a chain goes on through the others. `Err` only
/// when out of memory.
pub fn judge(alloc: Global, graph: &Listed<Listed<usize>>, named: usize) -> Result<Judged, Memory>
    ensures { IfOk result (λ judged. spec.AreJudged graph.now named judged.recursive.items judged.long.items) }
{
    if is_flat(graph) {
        judge_flat(alloc, graph, named)
    } else {
        judge_walks(alloc, graph, named)
    }
}

/// Tells of a graph in which no edge leads on from where another leads: no node is on a cycle, and no chain is long.
fn judge_flat(alloc: Global, graph: &Listed<Listed<usize>>, named: usize) -> Result<Judged, Memory>
    requires { is_flat graph.now ≡ true }
    ensures { IfOk result (λ judged. spec.AreJudged graph.now named judged.recursive.items judged.long.items) }
{
    let recursive = vec![in alloc; false; graph.len()]?;
    let long = vec![in alloc; false; graph.len()]?;
    Ok(Judged { recursive, long })
}

/// Tells of a graph what [`judge`] tells, by walks along its edges.
fn judge_walks(alloc: Global, graph: &Listed<Listed<usize>>, named: usize) -> Result<Judged, Memory>
    ensures { IfOk result (λ judged. spec.AreJudged graph.now named judged.recursive.items judged.long.items) }
{
    let reversed = reverse(alloc, graph)?;
    let recursive = on_cycles(alloc, graph, &reversed)?;
    let cyclic = reaching(alloc, &reversed, recursive.as_slice())?;
    let chained = chained(alloc, graph, named)?;
    let long = long_chains(alloc, chained.as_slice(), cyclic.as_slice())?;
    Ok(Judged { recursive, long })
}

/// Those that begin a chain, without those that reach a cycle.
fn long_chains(alloc: Global, chained: &[bool], cyclic: &[usize]) -> Result<Vec<bool>, Memory>
    ensures { IfOk result (λ long. Told (spec_bridge.is_long chained.now cyclic.now) long.items (length chained.now)) }
{
    let mut long = Vec::new(alloc);
    for node in 0..chained.len() {
        let here = is_long(chained, cyclic, node);
        long.push(here)?;
    }
    Ok(long)
}

/// Whether a chain begins at a node, and no cycle is reached from it.
fn is_long(chained: &[bool], cyclic: &[usize], node: usize) -> bool
    ensures { result ≡ spec_bridge.is_long chained.now cyclic.now node }
{
    is_marked(chained, node) && !has(cyclic, node, 1)
}

/// Marks each node with 1 that reaches a node on a cycle, and the others with 0.
fn reaching(
    alloc: Global,
    reversed: &Listed<Listed<usize>>,
    recursive: &[bool],
) -> Result<Vec<usize>, Memory>
    requires { length recursive.now ≡ length reversed.now }
    ensures { IfOk result (λ states. spec_bridge.AreReaching reversed.now recursive.now states.items) }
{
    let starts = marked_nodes(alloc, recursive)?;
    let mut states = vec![in alloc; 0; recursive.len()]?;
    flood(
        alloc,
        reversed,
        states.as_mut_slice(),
        starts.as_slice(),
        0,
        1,
    )?;
    Ok(states)
}

/// The nodes that are marked.
fn marked_nodes(alloc: Global, marks: &[bool]) -> Result<Vec<usize>, Memory>
    ensures { IfOk result (λ nodes. spec_bridge.AreMarkedNodes marks.now nodes.items (length marks.now)) }
{
    let mut nodes = Vec::new(alloc);
    for node in 0..marks.len() {
        push_if(&mut nodes, node, is_marked(marks, node))?;
    }
    Ok(nodes)
}

/// Puts a node last, if something holds.
fn push_if(nodes: &mut Vec<usize>, node: usize, holds: bool) -> Result<(), Memory>
    ensures { OnOk result (nodes.new.items ≡ nodes.old.items ++ spec_bridge.only_if holds node) }
{
    if holds {
        nodes.push(node)?;
    }
    Ok(())
}

/// Marks each node from which a chain of more than 32 names begins.
fn chained(alloc: Global, graph: &Listed<Listed<usize>>, named: usize) -> Result<Vec<bool>, Memory>
    ensures marks { IfOk result (λ marks. (v : ℕ) → spec.is_marked marks.items v ≡ spec.has_chain graph.now named 32 v) }
    ensures count { IfOk result (λ marks. length marks.items ≡ length graph.now) }
{
    let mut marks = vec![in alloc; true; graph.len()]?;
    for _round in 0..MOST_NAMES {
        marks = marks_of_longer(alloc, graph, named, marks)?;
    }
    Ok(marks)
}

/// The marks of chains of one name more. Where nothing is marked there are none, and no node has to be looked at.
fn marks_of_longer(
    alloc: Global,
    graph: &Listed<Listed<usize>>,
    named: usize,
    marks: Vec<bool>,
) -> Result<Vec<bool>, Memory>
    requires { length marks.items ≡ length graph.now }
    ensures { IfOk result (λ made. Told (spec_bridge.next_mark graph.now named marks.items) made.items (length graph.now)) }
{
    if any_mark(marks.as_slice()) {
        next_marks(alloc, graph, named, marks.as_slice())
    } else {
        Ok(marks)
    }
}

/// Whether any node is marked.
fn any_mark(marks: &[bool]) -> bool
    ensures { result ≡ list_any (λ mark. mark) marks.now }
{
    marks.iter().any(|mark| *mark)
}

/// Marks each node from which an edge leads to a marked name, or through another node to a marked one.
fn next_marks(
    alloc: Global,
    graph: &Listed<Listed<usize>>,
    named: usize,
    marks: &[bool],
) -> Result<Vec<bool>, Memory>
    ensures { IfOk result (λ made. Told (spec_bridge.next_mark graph.now named marks.now) made.items (length graph.now)) }
{
    let through = marks_through(alloc, graph, marks)?;
    let mut made = Vec::new(alloc);
    for node in 0..graph.len() {
        let here = any_next(named, marks, through.as_slice(), targets(graph, node));
        made.push(here)?;
    }
    Ok(made)
}

/// Marks each node from which an edge leads to a marked one.
fn marks_through(
    alloc: Global,
    graph: &Listed<Listed<usize>>,
    marks: &[bool],
) -> Result<Vec<bool>, Memory>
    ensures { IfOk result (λ made. Told (λ v. spec_bridge.any_marked marks.now (row graph.now v)) made.items (length graph.now)) }
{
    let mut made = Vec::new(alloc);
    for node in 0..graph.len() {
        let here = any_marked(marks, targets(graph, node));
        made.push(here)?;
    }
    Ok(made)
}

/// Whether one of these nodes is marked, names by the one list and others by the other.
fn any_next(named: usize, marks: &[bool], through: &[bool], nodes: &[usize]) -> bool
    ensures { result ≡ spec_bridge.any_next named marks.now through.now nodes.now }
{
    nodes
        .iter()
        .any(|node| is_marked_next(named, marks, through, *node))
}

/// Whether a node is marked, a name by the one list and another node by the other.
fn is_marked_next(named: usize, marks: &[bool], through: &[bool], node: usize) -> bool
    ensures { result ≡ spec_bridge.is_marked_next named marks.now through.now node }
{
    if node < named {
        is_marked(marks, node)
    } else {
        is_marked(through, node)
    }
}

/// Whether one of these nodes is marked.
fn any_marked(marks: &[bool], nodes: &[usize]) -> bool
    ensures { result ≡ spec_bridge.any_marked marks.now nodes.now }
{
    nodes.iter().any(|node| is_marked(marks, *node))
}

/// Whether a node is marked.
pub fn is_marked(marks: &[bool], node: usize) -> bool
    ensures { result ≡ spec.is_marked marks.now node }
{
    match marks.get(node) {
        Some(mark) => *mark,
        None => false,
    }
}
