//! The way from a fragment back to itself, as it is told.

ghost use Rattle.std.specs.Prelude.{◌≡◌, ◌++◌, map, string_bytes, IfOk, OnOk};
ghost use Rattle.std.specs.List.{flat_map, find};
ghost use Rattle.gql_graph.specs.Chains.{is_marked};
ghost use Rattle.gql_rules_nodes.specs.WayRound as spec;

use gql_document_types::Fragment;
use gql_graph::{Graph, is_marked, targets};
use jb_text::{Listed, Memory, Text};
use std::alloc::Global;

/// The most names of a way that are told.
const MOST_NAMES: usize = 32;

/// At each fragment the first that is spread in it and marked as recursive.
pub(crate) fn first_recursive(
    alloc: Global,
    graph: &Graph,
    recursive: &[bool],
) -> Result<Listed<Option<usize>>, Memory>
    ensures { IfOk result (λ nexts. nexts ≡ spec.first_recursive graph.now recursive.now) }
{
    let mut nexts = Listed::new(alloc);
    for row in graph.as_slice() {
        nexts.push(first_marked(recursive, row.as_slice()))?;
    }
    Ok(nexts)
}

/// The first of these nodes that is marked.
fn first_marked(marks: &[bool], nodes: &[usize]) -> Option<usize>
    ensures { result ≡ find (is_marked marks.now) nodes.now }
{
    for node in nodes {
        if is_marked(marks, *node) {
            return Some(*node);
        }
    }
    None
}

/// The way from a fragment: from each to the first recursive one that it spreads, until it is back or has 32 names.
pub(crate) fn way_round(
    alloc: Global,
    nexts: &[Option<usize>],
    start: usize,
) -> Result<Listed<usize>, Memory>
    ensures { IfOk result (λ way. way ≡ spec.way_round nexts.now start) }
{
    let mut way = Listed::new(alloc);
    let mut at = Some(start);
    for _name in 0..MOST_NAMES {
        at = go_on(nexts, start, at, &mut way)?;
    }
    Ok(way)
}

/// Goes on from a fragment, and tells where the way then goes on from, if it does.
fn go_on(
    nexts: &[Option<usize>],
    start: usize,
    at: Option<usize>,
    way: &mut Listed<usize>,
) -> Result<Option<usize>, Memory>
    ensures way { OnOk result (way.new ≡ way.old ++ spec.named (spec.next nexts.now at)) }
    ensures at { IfOk result (λ further. further ≡ spec.further start (spec.next nexts.now at)) }
{
    match next(nexts, at) {
        Some(node) => {
            way.push(node)?;
            Ok(if node == start { None } else { Some(node) })
        }
        None => Ok(None),
    }
}

/// The fragment that comes next.
fn next(nexts: &[Option<usize>], at: Option<usize>) -> Option<usize>
    ensures { result ≡ spec.next nexts.now at }
{
    match at {
        Some(node) => match nexts.get(node) {
            Some(next) => *next,
            None => None,
        },
        None => None,
    }
}

/// The names of the fragments on a way, in quotation marks.
pub(crate) fn way_text(alloc: Global, fragments: &[Fragment], way: &[usize]) -> Result<Text, Memory>
    ensures { IfOk result (λ text. text ≡ spec.way_text fragments.now way.now) }
{
    let mut text = String::new(alloc);
    if let [first, rest @ ..] = way {
        add_quoted(&mut text, name_of(fragments, *first))?;
        add_others(&mut text, fragments, rest)?;
    }
    Ok(Text::from_string(text))
}

/// Writes further names, each behind a comma.
fn add_others(text: &mut String, fragments: &[Fragment], nodes: &[usize]) -> Result<(), Memory>
    ensures { OnOk result (string_bytes text.new ≡ string_bytes text.old ++ flat_map (spec.another fragments.now) nodes.now) }
{
    for node in nodes {
        text.push_str(", ")?;
        add_quoted(text, name_of(fragments, *node))?;
    }
    Ok(())
}

/// Writes a name in quotation marks.
fn add_quoted(text: &mut String, name: &str) -> Result<(), Memory>
    ensures { OnOk result (string_bytes text.new ≡ string_bytes text.old ++ spec.quoted name.now) }
{
    text.push_str("\"")?;
    text.push_str(name)?;
    text.push_str("\"")
}

/// The name of the fragment of a number.
fn name_of(fragments: &[Fragment], node: usize) -> &str
    ensures { result.now ≡ spec.name_of fragments.now node }
{
    match fragments.get(node) {
        Some(fragment) => fragment.name.as_str(),
        None => "",
    }
}
