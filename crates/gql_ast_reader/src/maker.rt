//! Makes the definitions of a text as it is read.

ghost use Rattle.std.specs.Prelude.{◌≡◌, ℕ, List, [], ◌∷◌, IfOk};
ghost use Rattle.gql_cst.specs.Forest.{Plain, row_of};
ghost use Rattle.gql_ast.specs.Documents.{definition_of};
ghost use Rattle.gql_ast_base.specs.Parts.{gather};
ghost use Rattle.gql_cst.specs.bridge.Open.{whole_text};
ghost use Rattle.gql_ast_reader.specs.bridge.Stands.{Stands};

use crate::open_rows::OpenRows;
use crate::place::Place;
use crate::told::Told;
use gql_ast::Definition;
use gql_ast_base::{Memory, Source, SyntaxKind};
use gql_cst::{Begun, Output};
use gql_grammar::Word;
use jb_text::Listed;
use std::marker::PhantomData;
use std::ops::Range;

/// Makes the definitions of a text as it is read, with no concrete tree: each node stands for something as soon as it ends.
#[derive(Drop)]
pub(crate) struct Maker<'t, K> {
    source: Source<'t>,
    rows: OpenRows,
    of: PhantomData<K>,
}

impl<'t, K: Told> Maker<'t, K> {
    /// Nothing is read.
    pub(crate) fn new(source: Source<'t>) -> Result<Maker<'t, K>, Memory>
        requires text { source.text.now ≡ K.text }
        requires file { source.file_id ≡ K.file }
        ensures { IfOk result (λ maker. Stands K.text K.file maker.source maker.rows (whole_text [] ∷ []) []) }
    {
        let mut rows = OpenRows::new(source.alloc)?;
        rows.begin(source.alloc, SyntaxKind::Document)?;
        Ok(Maker {
            source,
            rows,
            of: PhantomData,
        })
    }

    /// The definitions of the document that was read.
    pub(crate) fn into_definitions(self) -> Listed<Definition>
        ensures { (trees waiting : List Plain) → Stands K.text K.file self.entry.source self.entry.rows (whole_text trees ∷ []) waiting
            → result ≡ gather (definition_of K.text K.file) (row_of trees) }
    {
        let Maker {
            source,
            rows,
            of: _,
        } = self;
        rows.into_definitions(source.alloc)
    }
}

impl<'t, K: Told> Output for Maker<'t, K> {
    ghost use Rattle.gql_ast_reader.specs.bridge.Stands.{Stands};

    ghost stands = { λ maker _ os waiting. Stands K.text K.file maker.source maker.rows os waiting };

    fn begin(&mut self, kind: SyntaxKind, _place: usize) -> Result<usize, Memory> {
        self.rows.begin(self.source.alloc, kind)?;
        Ok(0)
    }

    fn ignored(&mut self, _range: Range<usize>) -> Result<(), Memory> {
        Ok(())
    }

    fn token(&mut self, _word: Word, range: Range<usize>) -> Result<(), Memory> {
        let place = Place {
            start: range.start,
            end: range.end,
        };
        self.rows.take_token(&self.source, place)?;
        Ok(())
    }

    fn wrap(&mut self, kind: SyntaxKind, _begun: Begun) -> Result<(), Memory> {
        self.rows.wrap(&self.source, kind)?;
        Ok(())
    }

    fn end(&mut self, kind: SyntaxKind, _begun: Begun) -> Result<(), Memory> {
        self.rows.end(&self.source, kind)?;
        Ok(())
    }
}
