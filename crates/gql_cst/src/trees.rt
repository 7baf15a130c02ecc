//! Makes a concrete tree.

ghost use Rattle.std.specs.Prelude.{◌≡◌, ℕ, ◌≤◌, ◌∷◌, ◌++◌, [], map, length, IfOk, OnOk};
ghost use Rattle.gql_cst.specs.Forest;
ghost use Rattle.gql_cst.specs.Forest.{plain};
ghost use Rattle.gql_cst.specs.bridge.Machine as spec;
ghost use Rattle.gql_cst.specs.bridge.Rowed.{gathered};

use crate::begun::Begun;
use crate::output::Output;
use crate::{Memory, Nodes, SyntaxKind, Tree};
use gql_grammar::Word;
use std::alloc::Global;
use std::ops::Range;

/// The trees of a text as far as it is read.
#[derive(Drop)]
pub(crate) struct Trees {
    alloc: Global,
    /// The trees of all rows, those of the outermost first.
    trees: Nodes,
    /// The tokens that the grammar ignores behind the last that it does not.
    waiting: Nodes,
}

/// A node from its first child to its last.
fn node(kind: SyntaxKind, children: Nodes) -> Tree
    ensures { plain result ≡ spec.node_of kind (map plain children.items) }
{
    let start = children.first().map_or(0, |first| first.range().start);
    let end = children.last().map_or(0, |last| last.range().end);
    Tree::new(kind, start..end, children)
}

/// The trees from the place on become one node, or nothing does where there are fewer. Its list has room for these alone.
fn gather(trees: &mut Nodes, kind: SyntaxKind, start: usize) -> Result<(), Memory>
    ensures { OnOk result (start ≤ length trees.old.items → map plain trees.new.items ≡ gathered kind start (map plain trees.old.items)) }
{
    let children = trees.split_off(start.min(trees.len()))?;
    trees.push(node(kind, children))?;
    Ok(())
}

impl Trees {
    ghost use Rattle.gql_cst.specs.bridge.Open.{whole_text};
    ghost use Rattle.gql_cst.specs.bridge.Rowed.{stand};

    /// No tree.
    #[tactic(auto, using(crate::proofs::Making::nothing_stands))]
    pub(crate) fn new(alloc: Global) -> Trees
        ensures { (at : ℕ) → stand result at (whole_text [] ∷ []) [] }
    {
        Trees {
            alloc,
            trees: Vec::new(alloc),
            waiting: Vec::new(alloc),
        }
    }

    /// A token as a tree.
    fn leaf(&self, kind: SyntaxKind, range: Range<usize>) -> Tree
        ensures { plain result ≡ record { kind = kind; start = range.start; end = range.end; children = Forest.nothing } }
    {
        Tree::new(kind, range, Vec::new(self.alloc))
    }

    /// The node of the whole text.
    pub(crate) fn into_root(self, kind: SyntaxKind) -> Result<Tree, Memory>
        ensures { IfOk result (λ tree. plain tree ≡ spec.node_of kind (map plain self.trees.items ++ map plain self.waiting.items)) }
    {
        let Trees {
            alloc: _,
            mut trees,
            mut waiting,
        } = self;
        trees.append(&mut waiting)?;
        Ok(node(kind, trees))
    }
}

impl Output for Trees {
    ghost use Rattle.gql_cst.specs.bridge.Rowed.{stand};

    ghost stands = { stand };

    fn begin(&mut self, _kind: SyntaxKind, _place: usize) -> Result<usize, Memory> {
        Ok(self.trees.len())
    }

    fn ignored(&mut self, range: Range<usize>) -> Result<(), Memory> {
        let leaf = self.leaf(SyntaxKind::Ignored, range);
        self.waiting.push(leaf)?;
        Ok(())
    }

    fn token(&mut self, _word: Word, range: Range<usize>) -> Result<(), Memory> {
        let leaf = self.leaf(SyntaxKind::Token, range);
        self.trees.append(&mut self.waiting)?;
        self.trees.push(leaf)?;
        Ok(())
    }

    fn wrap(&mut self, kind: SyntaxKind, begun: Begun) -> Result<(), Memory> {
        gather(&mut self.trees, kind, begun.mark)?;
        Ok(())
    }

    fn end(&mut self, kind: SyntaxKind, begun: Begun) -> Result<(), Memory> {
        gather(&mut self.trees, kind, begun.mark)?;
        Ok(())
    }
}
