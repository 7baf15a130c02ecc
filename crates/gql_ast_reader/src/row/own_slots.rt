//! What only rows of one sort of node keep.

ghost use Rattle.std.specs.Prelude.{◌≡◌, OnOk};
ghost use Rattle.gql_ast_reader.specs.bridge.Taking as taking;
ghost use Rattle.gql_ast_reader.specs.bridge.Fresh as fresh;
ghost use Rattle.gql_ast_reader.specs.declared.row.Own.TheVariants as own;

use crate::part::Role;
use crate::place::Place;
use crate::row::Own;
use crate::row::contents::{add_name, keep_content, keep_literal, keep_text};
use gql_ast_base::{Source, SyntaxKind};
use jb_text::{Listed, Memory};
use std::alloc::Global;

impl Own {
    /// Makes it what a node of the kind keeps that has just begun. What it held goes.
    pub(crate) fn begin(&mut self, alloc: Global, kind: SyntaxKind)
        ensures { self.new ≡ fresh.fresh_own kind }
    {
        match kind {
            SyntaxKind::Value
            | SyntaxKind::Description
            | SyntaxKind::Argument
            | SyntaxKind::ObjectField
            | SyntaxKind::DefaultValue
            | SyntaxKind::Selection
            | SyntaxKind::Definition
            | SyntaxKind::Arguments
            | SyntaxKind::Directives
            | SyntaxKind::SelectionSet
            | SyntaxKind::ListValue
            | SyntaxKind::ObjectValue
            | SyntaxKind::VariableDefinitions
            | SyntaxKind::ArgumentsDefinition
            | SyntaxKind::InputFieldsDefinition
            | SyntaxKind::FieldsDefinition
            | SyntaxKind::EnumValuesDefinition
            | SyntaxKind::ImplementsInterfaces
            | SyntaxKind::UnionMemberTypes
            | SyntaxKind::Document => self.begin_kept(alloc, kind),
            // Most nodes come here, and most of the rows that they use again kept nothing of their own before.
            _ => {
                if !matches!(self, Own::Nothing) {
                    self.leave();
                }
            }
        }
    }

    /// Makes it keep nothing. What it held goes.
    #[inline(never)]
    fn leave(&mut self)
        ensures { self.new ≡ own.Nothing }
    {
        *self = Own::Nothing;
    }

    /// Makes it what a node of the kind keeps, apart from the nodes that keep nothing: what is written here is as large as the largest.
    #[inline(never)]
    fn begin_kept(&mut self, alloc: Global, kind: SyntaxKind)
        ensures { self.new ≡ fresh.fresh_own kind }
    {
        match kind {
            SyntaxKind::Value => *self = Own::Content(None),
            SyntaxKind::Description => *self = Own::Text(None),
            SyntaxKind::Argument | SyntaxKind::ObjectField | SyntaxKind::DefaultValue => {
                *self = Own::Value(None);
            }
            SyntaxKind::Selection => *self = Own::Choice(None),
            SyntaxKind::Definition => *self = Own::Defined(None),
            SyntaxKind::Arguments => *self = Own::Arguments(Listed::new(alloc)),
            SyntaxKind::Directives => *self = Own::Directives(Listed::new(alloc)),
            SyntaxKind::SelectionSet => *self = Own::Selections(Listed::new(alloc)),
            SyntaxKind::ListValue => *self = Own::Values(Listed::new(alloc)),
            SyntaxKind::ObjectValue => *self = Own::Pairs(Listed::new(alloc)),
            SyntaxKind::VariableDefinitions => *self = Own::Variables(Listed::new(alloc)),
            SyntaxKind::ArgumentsDefinition | SyntaxKind::InputFieldsDefinition => {
                *self = Own::Inputs(Listed::new(alloc));
            }
            SyntaxKind::FieldsDefinition => *self = Own::Fields(Listed::new(alloc)),
            SyntaxKind::EnumValuesDefinition => *self = Own::EnumValues(Listed::new(alloc)),
            SyntaxKind::ImplementsInterfaces | SyntaxKind::UnionMemberTypes => {
                *self = Own::Names(Listed::new(alloc));
            }
            SyntaxKind::Document => *self = Own::Definitions(Listed::new(alloc)),
            _ => *self = Own::Nothing,
        }
    }

    /// A token that is a number or a string. `Err` only where memory runs out.
    pub(crate) fn take_literal(&mut self, source: &Source<'_>, place: Place) -> Result<(), Memory>
        ensures { OnOk result (self.new ≡ taking.own_literal source.now.text.now self.old place) }
    {
        match self {
            Own::Content(slot) => keep_literal(slot, source, place),
            Own::Text(slot) => keep_text(slot, source, place),
            _ => Ok(()),
        }
    }

    /// A node with a name in it, if it has one. `Err` only where memory runs out.
    pub(crate) fn take_named(
        &mut self,
        source: &Source<'_>,
        role: Role,
        place: Option<Place>,
    ) -> Result<(), Memory>
        ensures { OnOk result (self.new ≡ taking.own_named source.now.text.now source.now.file_id self.old role place) }
    {
        match self {
            Own::Content(slot) => keep_content(slot, source, role, place),
            Own::Names(list) => add_name(list, source, role, place),
            _ => Ok(()),
        }
    }
}
