//! The selections of a document, made of those of its text.

ghost use Rattle.std.specs.Prelude.{◌≡◌, ◌++◌, IfOk, OnOk};
ghost use Rattle.gql_document.specs.BuiltSelections as spec;
ghost use Rattle.gql_document.specs.bridge.Made as made_by;

use crate::type_kind::{Leaf, is_open, leaf_of, type_inside};
use gql_ast as ast;
use gql_ast::FieldDefinition;
use gql_ast_base::{Copying, Name, both};
use gql_document_types::{Field, FragmentSpread, InlineFragment, Selection, SelectionSet};
use gql_schema_types::{Schema, Shared};
use jb_text::{Listed, Memory};
use std::alloc::Global;

/// The set that selections make on a type: each field with its definition, and without what is not defined and what selects
/// on a scalar or an enum. `Err` only when out of memory.
pub(crate) fn built_set(
    alloc: Global,
    schema: &Schema,
    ty: Name,
    selections: Listed<ast::Selection>,
) -> Result<SelectionSet, Memory>
    ensures { IfOk result (λ set. set ≡ spec.built_set schema.now ty selections) }
{
    let make = Make { alloc, schema };
    let selections = make.list(&ty, selections)?;
    Ok(SelectionSet { ty, selections })
}

/// What stays the same throughout.
#[derive(Clone, Copy)]
struct Make<'s> {
    alloc: Global,
    schema: &'s Schema,
}

impl<'s> Make<'s> {
    #[cycle(make)]
    fn list(
        &self,
        ty: &Name,
        selections: Listed<ast::Selection>,
    ) -> Result<Listed<Selection>, Memory>
        ensures { IfOk result (λ made. made ≡ made_by.list self.now.schema.now ty.now selections) }
    {
        let mut made = Listed::new(self.alloc);
        for selection in selections {
            self.add(ty, selection, &mut made)?;
        }
        Ok(made)
    }

    #[cycle(make)]
    fn add(
        &self,
        ty: &Name,
        selection: ast::Selection,
        made: &mut Listed<Selection>,
    ) -> Result<(), Memory>
        ensures { OnOk result (made.new ≡ made.old ++ spec.makes_of self.now.schema.now selection ty.now) }
    {
        match selection {
            ast::Selection::Field(field) => self.add_field(ty, field, made),
            ast::Selection::FragmentSpread(spread) => made.push(Selection::FragmentSpread(
                FragmentSpread {
                    fragment_name: spread.fragment_name,
                    directives: spread.directives,
                    location: spread.location,
                },
            )),
            ast::Selection::InlineFragment(fragment) => self.add_inline(ty, fragment, made),
        }
    }

    #[cycle(make)]
    fn add_field(
        &self,
        ty: &Name,
        field: ast::Field,
        made: &mut Listed<Selection>,
    ) -> Result<(), Memory>
        ensures { OnOk result (made.new ≡ made.old ++ made_by.field self.now.schema.now field ty.now) }
    {
        match self.schema.type_field(ty.as_str(), field.name.as_str()) {
            Some(definition) => self.add_defined(field, definition, made),
            None => Ok(()),
        }
    }

    #[cycle(make)]
    fn add_defined(
        &self,
        field: ast::Field,
        definition: &Shared<FieldDefinition>,
        made: &mut Listed<Selection>,
    ) -> Result<(), Memory>
        ensures { OnOk result (made.new ≡ made.old ++ made_by.defined self.now.schema.now field definition.now) }
    {
        if self.is_selected_leaf(&field, definition) {
            return Ok(());
        }
        let (ty, definition) = both(
            definition.ty.inner_named_type().copy(self.alloc),
            definition.copy(self.alloc),
        )?;
        let selections = self.list(&ty, field.selection_set)?;
        made.push(Selection::Field(Field {
            alias: field.alias,
            name: field.name,
            arguments: field.arguments,
            directives: field.directives,
            selection_set: SelectionSet { ty, selections },
            location: field.location,
            definition,
        }))
    }

    #[cycle(make)]
    fn add_inline(
        &self,
        ty: &Name,
        fragment: ast::InlineFragment,
        made: &mut Listed<Selection>,
    ) -> Result<(), Memory>
        ensures { OnOk result (made.new ≡ made.old ++ made_by.inline self.now.schema.now fragment ty.now) }
    {
        if !is_open(self.schema, &fragment.type_condition) {
            return Ok(());
        }
        let ty = type_inside(ty, &fragment.type_condition).copy(self.alloc)?;
        let selections = self.list(&ty, fragment.selection_set)?;
        made.push(Selection::InlineFragment(InlineFragment {
            type_condition: fragment.type_condition,
            directives: fragment.directives,
            selection_set: SelectionSet { ty, selections },
            location: fragment.location,
        }))
    }

    /// Whether a field of a scalar or enum type has selections.
    fn is_selected_leaf(&self, field: &ast::Field, definition: &FieldDefinition) -> bool
        ensures { result ≡ made_by.is_selected_leaf self.now.schema.now field.now definition.now }
    {
        if field.selection_set.is_empty() {
            return false;
        }
        match leaf_of(self.schema, &definition.ty) {
            Leaf::Scalar | Leaf::Enum => true,
            Leaf::Neither => false,
        }
    }
}
