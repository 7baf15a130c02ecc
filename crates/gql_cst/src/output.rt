//! What a parser makes of a text as it reads.

ghost use Rattle.std.specs.Prelude.{◌≡◌, ℕ, List, [], ◌∷◌, ◌++◌, true, Some, IfOk, OnOk};
ghost use Rattle.gql_cst.specs.Forest.{Plain};
ghost use Rattle.gql_cst.specs.Late.{is_late};
ghost use Rattle.gql_cst.specs.Leaves.{part_of};
ghost use Rattle.gql_cst.specs.bridge.Open.{Open, opened, grown_by, wrapped, token as token_of, ignored as ignored_of};
ghost use Rattle.gql_cst.specs.bridge.Machine.{node_of};
ghost use Rattle.gql_cst.specs.bridge.Sound.{is_node};

use crate::begun::Begun;
use crate::{Memory, SyntaxKind};
use gql_grammar::Word;
use std::ops::Range;

/// What a parser makes of a text as it reads.
///
/// The parser tells which nodes begin and end, and which tokens come in them. Contracts say what an output stands for by its
/// relation `stands`: at a place of the text, where the next token begins that the grammar does not ignore, these nodes are
/// open, the innermost first and the row of the whole text last, each with the trees in it so far; and these ignored tokens
/// wait for the next token, since they stand in the node that is innermost then. Each call says that whatever the output
/// stood for before, it stands now for that and what came.
///
/// `Err` of a call is want of memory.
pub trait Output: Sized + Drop {
    ghost stands: { Self → ℕ → List Open → List Plain → Type 0 };

    /// A node begins, whose first token begins at the place; tokens are no nodes. What comes back is given again where the node
    /// ends.
    fn begin(&mut self, kind: SyntaxKind, place: usize) -> Result<usize, Memory>
        ensures { IfOk result (λ mark. (os : List Open) (waiting : List Plain)
            → is_node (part_of kind) ≡ true → stands self.old place os waiting → stands self.new place (opened kind mark place ∷ os) waiting) };

    /// A token comes that the grammar ignores.
    fn ignored(&mut self, range: Range<usize>) -> Result<(), Memory>
        ensures { OnOk result ((at : ℕ) (os : List Open) (waiting : List Plain)
            → stands self.old at os waiting → stands self.new at os (waiting ++ (ignored_of range ∷ []))) };

    /// A token comes that the grammar does not ignore. It stands in the innermost node, behind the ignored tokens that waited.
    fn token(&mut self, word: Word, range: Range<usize>) -> Result<(), Memory>
        ensures { OnOk result ((inner : Open) (os : List Open) (waiting : List Plain) (next : ℕ)
            → stands self.old range.start (inner ∷ os) waiting
            → stands self.new next (grown_by (waiting ++ (token_of range ∷ [])) inner ∷ os) []) };

    /// What is in the innermost node so far becomes one node in it, of the kind. It is the node that began there, and the
    /// kind is one whose nodes are made late.
    fn wrap(&mut self, kind: SyntaxKind, begun: Begun) -> Result<(), Memory>
        ensures { OnOk result ((at : ℕ) (inner : Open) (os : List Open) (waiting : List Plain) → is_late kind ≡ true → inner.node.begun ≡ begun
            → stands self.old at (inner ∷ os) waiting → stands self.new at (wrapped kind inner ∷ os) waiting) };

    /// The innermost node ends, which is of the kind and began there, and stands last in the node around it.
    fn end(&mut self, kind: SyntaxKind, begun: Begun) -> Result<(), Memory>
        ensures { OnOk result ((at : ℕ) (inner outer : Open) (os : List Open) (waiting : List Plain) → inner.node ≡ record { kind = Some kind; begun = begun }
            → stands self.old at (inner ∷ outer ∷ os) waiting → stands self.new at (grown_by (node_of kind inner.trees ∷ []) outer ∷ os) waiting) };
}
