//! Rows that begin, and the tokens and names that come to them.

ghost use Rattle.std.specs.Prelude.{◌≡◌, OnOk};
ghost use Rattle.gql_ast_reader.specs.bridge.Taking as taking;
ghost use Rattle.gql_ast_reader.specs.bridge.Fresh as fresh;
ghost use Rattle.gql_ast_reader.specs.bridge.Places.{token_part_at};
ghost use Rattle.gql_ast_reader.specs.declared.part.Part.TheVariants as part;

use crate::part::Role;
use crate::place::{Place, text_at};
use crate::row::keeping::clear;
use crate::row::single_slots::keep_form;
use crate::row::{Groups, Own, Roles, Row, Singles, Words};
use gql_ast_base::{Name, Source, SyntaxKind, opens_number, opens_string};
use jb_text::{Listed, Memory};
use std::alloc::Global;

impl Row {
    /// A row with nothing in it, which keeps nothing of its own.
    pub(crate) fn new(alloc: Global) -> Row
        ensures { result ≡ fresh.fresh SyntaxKind.Token }
    {
        Row {
            words: Words::new(alloc),
            roles: Roles::new(),
            singles: Singles::new(),
            groups: Groups::new(),
            root_operations: Listed::new(alloc),
            own: Own::Nothing,
        }
    }

    /// Makes it the row of a node of the kind that has just begun. What it held goes.
    pub(crate) fn begin(&mut self, alloc: Global, kind: SyntaxKind)
        ensures { self.new ≡ fresh.fresh kind }
    {
        self.words.empty();
        self.roles.empty();
        self.singles.empty();
        self.groups.empty();
        clear(&mut self.root_operations);
        self.own.begin(alloc, kind);
    }

    /// A token. `Err` only where memory runs out.
    pub(crate) fn take_token(&mut self, source: &Source<'_>, place: Place) -> Result<(), Memory>
        ensures { OnOk result (self.new ≡ taking.taken_if source.now.text.now source.now.file_id self.old (token_part_at source.now.text.now place)) }
    {
        let Some(token) = text_at(source.text, place) else {
            return Ok(());
        };
        if Name::is_valid_syntax(token) {
            return self.words.take(source, place);
        }
        if opens_string(token) || opens_number(token) {
            return self.own.take_literal(source, place);
        }
        Ok(())
    }

    /// A node with a name in it, if it has one. `Err` only where memory runs out.
    pub(crate) fn take_named(
        &mut self,
        source: &Source<'_>,
        role: Role,
        place: Option<Place>,
    ) -> Result<(), Memory>
        ensures { OnOk result (self.new ≡ taking.taken source.now.text.now source.now.file_id self.old (part.Named role place)) }
    {
        self.roles.take(role, place);
        keep_form(&mut self.singles.form, source, role, place)?;
        self.own.take_named(source, role, place)
    }
}
