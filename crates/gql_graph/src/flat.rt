//! Graphs in which no edge leads on from where another leads. Nothing of them has to be walked.

ghost use Rattle.std.specs.Prelude.{◌≡◌};
ghost use Rattle.std.specs.List.{list_all};
ghost use Rattle.gql_graph.specs.bridge.Flat as spec;

use crate::reach::targets;
use jb_text::Listed;

/// Whether each edge leads to a node from which none leads on.
pub(crate) fn is_flat(graph: &Listed<Listed<usize>>) -> bool
    ensures { result ≡ spec.is_flat graph.now }
{
    graph
        .as_slice()
        .iter()
        .all(|nodes| are_ends(graph, nodes.as_slice()))
}

/// Whether no edge leads on from these nodes.
fn are_ends(graph: &Listed<Listed<usize>>, nodes: &[usize]) -> bool
    ensures { result ≡ list_all (spec.is_end graph.now) nodes.now }
{
    nodes.iter().all(|node| is_end(graph, *node))
}

/// Whether no edge leads on from a node.
fn is_end(graph: &Listed<Listed<usize>>, node: usize) -> bool
    ensures { result ≡ spec.is_end graph.now node }
{
    targets(graph, node).is_empty()
}
