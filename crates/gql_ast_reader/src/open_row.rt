//! An open node, as far as it is read.

ghost use Rattle.std.specs.Prelude.{◌≡◌, ℕ, List, OnOk};
ghost use Rattle.gql_source.specs.declared.file_id.FileId.{FileId};
ghost use Rattle.gql_ast_base.specs.SyntaxKind.TheVariants.{NonNullType};
ghost use Rattle.gql_ast_base.specs.Parts as parts;
ghost use Rattle.gql_ast_reader.specs.bridge.Making.{own_definitions};
ghost use Rattle.gql_ast_reader.specs.bridge.Stand.{closed, empty, grown, token_child, wrapped};

use crate::deliver::deliver;
use crate::make_type::make_non_null_type;
use crate::place::Place;
use crate::row::Row;
use crate::row::keeping::keep_first;
use gql_ast::Definition;
use gql_ast_base::{Memory, Source, SyntaxKind};
use gql_source::{FileId, SourceSpan};
use jb_text::Listed;
use std::alloc::Global;

/// An open node: its kind, and of the trees in it so far what they stand for, and where the first and the last of their tokens
/// stand that the grammar does not ignore.
#[derive(Drop)]
pub(crate) struct OpenRow {
    pub(crate) kind: SyntaxKind,
    row: Row,
    start: Option<usize>,
    end: Option<usize>,
}

/// The first of the two that is there.
fn or_else(one: Option<usize>, other: Option<usize>) -> Option<usize>
    ensures { result ≡ parts.or_else one other }
{
    match one {
        Some(place) => Some(place),
        None => other,
    }
}

/// From the one place to the other, where both are there and stand in this order.
fn span(file_id: FileId, start: Option<usize>, end: Option<usize>) -> Option<SourceSpan>
    ensures { result ≡ parts.span file_id start end }
{
    match (start, end) {
        (Some(start), Some(end)) if start <= end => Some(SourceSpan::new(file_id, start, end)),
        _ => None,
    }
}

impl OpenRow {
    /// A row with nothing in it.
    pub(crate) fn new(alloc: Global) -> OpenRow
        ensures { result ≡ empty SyntaxKind.Token }
    {
        OpenRow {
            kind: SyntaxKind::Token,
            row: Row::new(alloc),
            start: None,
            end: None,
        }
    }

    /// A node of the kind begins, in a row that may have been used before.
    pub(crate) fn begin(&mut self, alloc: Global, kind: SyntaxKind)
        ensures { self.new ≡ empty kind }
    {
        self.kind = kind;
        self.row.begin(alloc, kind);
        self.start = None;
        self.end = None;
    }

    /// A token comes, at the place.
    pub(crate) fn take_token(&mut self, source: &Source<'_>, place: Place) -> Result<(), Memory>
        ensures { OnOk result (self.new ≡ grown source.now.text.now source.now.file_id self.old (token_child source.now.text.now place)) }
    {
        self.row.take_token(source, place)?;
        self.start = or_else(self.start, Some(place.start));
        self.end = Some(place.end);
        Ok(())
    }

    /// The node ends, and is of the kind. What it is comes in the one around it; what is left in its own row does not matter.
    pub(crate) fn hand_on(
        &mut self,
        source: &Source<'_>,
        kind: SyntaxKind,
        outer: &mut OpenRow,
    ) -> Result<(), Memory>
        ensures { OnOk result (outer.new ≡ grown source.now.text.now source.now.file_id outer.old (closed source.now.text.now source.now.file_id kind self.old)) }
    {
        let location = span(source.file_id, self.start, self.end);
        deliver(source, kind, &mut self.row, &mut outer.row, location)?;
        outer.start = or_else(outer.start, self.start);
        outer.end = or_else(self.end, outer.end);
        Ok(())
    }

    /// What came so far becomes one type that may not be null. It takes no second row, as what becomes another node does: of all nodes
    /// that are made late these are by far the most.
    pub(crate) fn wrap_non_null(&mut self, alloc: Global)
        ensures { (text : List ℕ) (file : FileId) → self.new ≡ wrapped text file NonNullType self.old }
    {
        let form = make_non_null_type(&mut self.row);
        self.row.begin(alloc, self.kind);
        keep_first(&mut self.row.singles.form, form);
    }

    /// The definitions of a document.
    pub(crate) fn take_definitions(&mut self, alloc: Global) -> Listed<Definition>
        ensures { result ≡ own_definitions self.old.row.own }
    {
        self.row.own.take_definitions(alloc)
    }
}
