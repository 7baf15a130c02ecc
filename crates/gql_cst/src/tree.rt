//! Concrete syntax trees: every token of a text, in the nodes of its grammar.

ghost use Rattle.std.specs.Prelude.{◌≡◌};

use crate::SyntaxKind;
use std::ops::Range;

/// A list of trees, in the order of the text.
pub type Nodes = Vec<Tree>;

/// A node of a concrete syntax tree, or a token.
///
/// A token has the kind `Token`, or `Ignored` where the grammar ignores it, and no children. A contract sees a
/// tree as its kind, its range and the row of its children.
#[derive(Debug)]
pub struct Tree {
    kind: SyntaxKind,
    start: usize,
    end: usize,
    children: Nodes,
}

impl Drop for Tree {
    fn drop(self) {
        let Tree {
            kind: _,
            start: _,
            end: _,
            children: _,
        } = self;
    }
}

impl Tree {
    ghost use Rattle.gql_cst.specs.Forest.{plain};
    ghost use Rattle.gql_cst.specs.bridge.Forest.{forest};

    pub(crate) fn new(kind: SyntaxKind, range: Range<usize>, children: Nodes) -> Tree
        ensures { plain result ≡ record { kind = kind; start = range.start; end = range.end; children = forest children.items } }
    {
        Tree {
            kind,
            start: range.start,
            end: range.end,
            children,
        }
    }

    /// What the tree is a tree of.
    #[must_use]
    pub fn kind(&self) -> SyntaxKind
        ensures { result ≡ (plain self.now).kind }
    {
        self.kind
    }

    /// The bytes of the text from the tree's first token to its last, those that the grammar ignores included; `0..0` of a
    /// node without children, as that of an empty text.
    #[must_use]
    pub fn range(&self) -> Range<usize>
        ensures { result ≡ record { start = (plain self.now).start; end = (plain self.now).end } }
    {
        self.start..self.end
    }

    /// The trees right below this one, in the order of the text. A token has none.
    #[must_use]
    pub fn children(&self) -> &Nodes
        ensures { forest result.now.items ≡ (plain self.now).children }
    {
        &self.children
    }
}
