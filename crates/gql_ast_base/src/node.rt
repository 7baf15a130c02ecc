//! The nodes of concrete trees.

ghost use Rattle.std.specs.Prelude.{◌≡◌};
ghost use Rattle.std.specs.Option.{option_map};
ghost use Rattle.gql_cst.specs.Forest.{plain};
ghost use Rattle.gql_cst.specs.bridge.Forest.{forest};
ghost use Rattle.gql_ast_base.specs.Kinds.{is_kind};
ghost use Rattle.gql_ast_base.specs.Parts as parts;

use gql_cst::{SyntaxKind, Tree};
use gql_source::{FileId, SourceSpan};

/// Whether the tree is of the kind.
#[must_use]
#[tactic(auto, unfolding(crate::specs::Kinds::is_kind))]
pub fn is_of(tree: &Tree, kind: SyntaxKind) -> bool
    ensures { result ≡ is_kind (plain tree.now).kind kind }
{
    tree.kind() == kind
}

/// The first of the trees that is of the kind.
#[must_use]
pub fn child(nodes: &[Tree], kind: SyntaxKind) -> Option<&Tree>
    ensures { option_map (λ tree. plain tree.now) result ≡ parts.child kind (forest nodes.now) }
{
    for node in nodes {
        if is_of(node, kind) {
            return Some(node);
        }
    }
    None
}

/// What stands in the first of the trees that is of the kind, or nothing.
#[must_use]
pub fn inside(nodes: &[Tree], kind: SyntaxKind) -> &[Tree]
    ensures { forest result.now ≡ parts.inside kind (forest nodes.now) }
{
    match child(nodes, kind) {
        Some(tree) => tree.children().as_slice(),
        None => &[],
    }
}

/// Where the first token that is not ignored begins.
#[cycle(start_of)]
fn start_of(nodes: &[Tree]) -> Option<usize>
    ensures { result ≡ parts.start_of (forest nodes.now) }
{
    for node in nodes {
        if let Some(start) = tree_start(node) {
            return Some(start);
        }
    }
    None
}

#[cycle(start_of)]
fn tree_start(tree: &Tree) -> Option<usize>
    ensures { result ≡ parts.tree_start (plain tree.now) }
{
    if is_of(tree, SyntaxKind::Token) {
        Some(tree.range().start)
    } else {
        start_of(tree.children().as_slice())
    }
}

/// Where the last token that is not ignored ends.
#[cycle(end_of)]
fn end_of(nodes: &[Tree]) -> Option<usize>
    ensures { result ≡ parts.end_of (forest nodes.now) }
{
    for index in 0..nodes.len() {
        if let Some(end) = tree_end(&nodes[nodes.len() - 1 - index]) {
            return Some(end);
        }
    }
    None
}

#[cycle(end_of)]
fn tree_end(tree: &Tree) -> Option<usize>
    ensures { result ≡ parts.tree_end (plain tree.now) }
{
    if is_of(tree, SyntaxKind::Token) {
        Some(tree.range().end)
    } else {
        end_of(tree.children().as_slice())
    }
}

/// From the tree's first token to its last, those aside that the grammar ignores.
#[must_use]
#[tactic(auto, unfolding(crate::specs::Parts::location))]
pub fn location(file_id: FileId, tree: &Tree) -> Option<SourceSpan>
    ensures { result ≡ parts.location file_id (plain tree.now) }
{
    match (tree_start(tree), tree_end(tree)) {
        (Some(start), Some(end)) if start <= end => Some(SourceSpan::new(file_id, start, end)),
        _ => None,
    }
}
