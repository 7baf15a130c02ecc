//! The open nodes of a text.

ghost use Rattle.std.specs.Prelude.{◌≡◌, ℕ, ◌≤◌, List, [], ◌∷◌, None, IfOk, OnOk, vec_len};
ghost use Rattle.gql_source.specs.declared.file_id.FileId.{FileId};
ghost use Rattle.gql_cst.specs.Forest.{row_of};
ghost use Rattle.gql_ast.specs.Documents.{definition_of};
ghost use Rattle.gql_ast_base.specs.Parts.{gather};
ghost use Rattle.gql_ast_base.specs.SyntaxKind.TheVariants.{NonNullType};
ghost use Rattle.gql_cst.specs.bridge.Open.{Open};

use crate::handing::{hand_on, push_row};
use crate::open_row::OpenRow;
use crate::place::Place;
use gql_ast::Definition;
use gql_ast_base::{Memory, Source, SyntaxKind};
use jb_text::Listed;
use std::alloc::Global;

/// The open nodes of a text, the outermost first, and behind them rows that were used before. A row is large, so none is moved
/// or made anew where one can be used again.
#[derive(Drop)]
pub(crate) struct OpenRows {
    rows: Vec<OpenRow>,
    /// How many are open.
    depth: usize,
    ghost within: { depth ≤ vec_len rows },
}

/// For how many nodes there is room from the beginning. Few texts have more open at once, and a row is large to move.
const ROOM: usize = 16;

impl OpenRows {
    ghost use Rattle.gql_ast_reader.specs.bridge.Stand.{token_child, Keeps, Grows, Wraps, Ends, Begins};

    /// No node is open.
    pub(crate) fn new(alloc: Global) -> Result<OpenRows, Memory>
        ensures { IfOk result (λ rows. (text : List ℕ) (file : FileId) → Keeps text file rows []) }
    {
        Ok(OpenRows {
            rows: Vec::with_capacity(alloc, ROOM)?,
            depth: 0,
        })
    }

    /// A node of the kind begins.
    pub(crate) fn begin(&mut self, alloc: Global, kind: SyntaxKind) -> Result<(), Memory>
        ensures { OnOk result (Begins kind self.old self.new) }
    {
        match self.rows.get_mut(self.depth) {
            Some(row) => row.begin(alloc, kind),
            None => push_row(&mut self.rows, alloc, kind)?,
        }
        self.depth += 1;
        Ok(())
    }

    /// A token comes in the innermost node, at the place.
    pub(crate) fn take_token(&mut self, source: &Source<'_>, place: Place) -> Result<(), Memory>
        ensures { OnOk result (Grows source.now.text.now source.now.file_id (token_child source.now.text.now place) self.old self.new) }
    {
        let Some(row) = self.rows.get_mut(self.depth.saturating_sub(1)) else {
            return Ok(());
        };
        row.take_token(source, place)?;
        Ok(())
    }

    /// What came so far in the innermost node becomes one node, of the kind, in it.
    pub(crate) fn wrap(&mut self, source: &Source<'_>, kind: SyntaxKind) -> Result<(), Memory>
        ensures { OnOk result (Wraps source.now.text.now source.now.file_id kind self.old self.new) }
    {
        if let SyntaxKind::NonNullType = kind {
            self.wrap_non_null(source.alloc);
            return Ok(());
        }
        self.wrap_apart(source, kind)
    }

    /// The same where it becomes a type that may not be null.
    fn wrap_non_null(&mut self, alloc: Global)
        ensures { (text : List ℕ) (file : FileId) → Wraps text file NonNullType self.old self.new }
    {
        if let Some(row) = self.rows.get_mut(self.depth.saturating_sub(1)) {
            row.wrap_non_null(alloc);
        }
    }

    /// The same in a second row: one with nothing in it takes the place of the innermost, which ends behind it.
    fn wrap_apart(&mut self, source: &Source<'_>, kind: SyntaxKind) -> Result<(), Memory>
        ensures { OnOk result (Wraps source.now.text.now source.now.file_id kind self.old self.new) }
    {
        let Some(at) = self.depth.checked_sub(1) else {
            return Ok(());
        };
        let Some(row) = self.rows.get(at) else {
            return Ok(());
        };
        let outer = row.kind;
        self.begin(source.alloc, outer)?;
        self.rows.swap(at, at + 1);
        self.end(source, kind)?;
        Ok(())
    }

    /// The innermost node ends, which is of the kind, and comes in the one around it.
    pub(crate) fn end(&mut self, source: &Source<'_>, kind: SyntaxKind) -> Result<(), Memory>
        ensures { OnOk result (Ends source.now.text.now source.now.file_id kind self.old self.new) }
    {
        let Some(at) = self.depth.checked_sub(2) else {
            return Ok(());
        };
        self.depth = at + 1;
        hand_on(&mut self.rows, at, source, kind)
    }

    /// The definitions that came in the outermost node, which is a document.
    pub(crate) fn into_definitions(self, alloc: Global) -> Listed<Definition>
        ensures { (text : List ℕ) (file : FileId) (o : Open) → o.node.kind ≡ None → Keeps text file self (o ∷ [])
            → result ≡ gather (definition_of text file) (row_of o.trees) }
    {
        let OpenRows { mut rows, depth: _ } = self;
        match rows.get_mut(0) {
            Some(row) => row.take_definitions(alloc),
            None => Listed::new(alloc),
        }
    }
}
