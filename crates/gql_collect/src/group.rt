//! Groups of fields by response key.

ghost use Rattle.std.specs.Prelude.{◌≡◌, map, IfOk};
ghost use Rattle.gql_document_types.specs.declared.selection.Field.{Field};
ghost use Rattle.gql_collect.specs.Collected.{sets_of};
ghost use Rattle.gql_collect.specs.Groups as spec;
ghost use Rattle.gql_collect.specs.Walk.{fields_of};

use crate::pieces::Pieces;
use gql_ast_base::Name;
use gql_document_types::Field;
use gql_schema_types::Named;
use jb_text::{Listed, Memory};
use std::alloc::Global;

/// The fields of one response key, in order, each once (GraphQL October 2021, section 6.3.2), and the first of them.
pub struct Group<'d> {
    pub first: &'d Field,
    pub fields: Listed<&'d Field>,
}

impl Drop for Group<'_> {
    fn drop(self) {
        let Group {
            first: _,
            fields: _,
        } = self;
    }
}

impl<'d> Group<'d> {
    /// The response key: the alias of the first field, or else its name (section 2.7).
    #[must_use]
    pub fn key(&self) -> &'d Name
        ensures { result.now ≡ spec.response_name self.now.first.now }
    {
        response_name(self.first)
    }

    /// The selection sets of all fields of the group, in order. `Err` only when out of memory.
    pub fn sub_selections(&self, alloc: Global) -> Result<Pieces<'d>, Memory>
        ensures { IfOk result (λ pieces. sets_of pieces ≡ map (λ (field : Field). field.selection_set.selections) (fields_of self.now.fields)) }
    {
        let mut pieces = Pieces::new(alloc);
        for field in self.fields.as_slice() {
            pieces.add(&field.selection_set)?;
        }
        Ok(pieces)
    }
}

/// A field that stands for its response key.
#[derive(Drop)]
pub(crate) struct Key<'d> {
    pub field: &'d Field,
}

impl<'d> Named for Key<'d> {
    ghost own = { λ key. spec.response_name key.field.now };

    fn own_name(&self) -> &Name {
        response_name(self.field)
    }
}

/// The alias of a field, or else its name.
pub(crate) fn response_name(field: &Field) -> &Name
    ensures { result.now ≡ spec.response_name field.now }
{
    match &field.alias {
        Some(alias) => alias,
        None => &field.name,
    }
}
