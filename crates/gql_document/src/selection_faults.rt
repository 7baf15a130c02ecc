//! The faults of selections, by one walk.

ghost use Rattle.std.specs.Prelude.{◌≡◌, ◌++◌, OnOk};
ghost use Rattle.gql_document.specs.bridge.FaultsBelow as below;
ghost use Rattle.gql_document.specs.SelectionFaults as spec;

use crate::subselection_on_enum_type::list_subselection_on_enum_type;
use crate::subselection_on_scalar_type::list_subselection_on_scalar_type;
use crate::type_kind::{Leaf, is_open, leaf_of, type_inside};
use crate::undefined_field::list_undefined_field;
use crate::undefined_type_in_inline_fragment_type_condition::list_undefined_type_in_inline_fragment_type_condition;
use gql_ast::{Field, FieldDefinition, InlineFragment, Selection};
use gql_ast_base::Name;
use gql_diag_messages::DiagnosticData;
use gql_schema_types::Schema;
use jb_text::{Listed, Memory};
use std::alloc::Global;

/// Lists the faults of selections on a type.
pub(crate) fn list_selection_faults(
    alloc: Global,
    schema: &Schema,
    ty: &Name,
    selections: &Listed<Selection>,
    faults: &mut Listed<DiagnosticData>,
) -> Result<(), Memory>
    ensures { OnOk result (faults.new ≡ faults.old ++ spec.selection_faults schema.now ty.now selections.now) }
{
    let look = Look { alloc, schema };
    look.list_all(ty, selections, faults)
}

/// What stays the same throughout the walk.
#[derive(Clone, Copy)]
struct Look<'s> {
    alloc: Global,
    schema: &'s Schema,
}

impl<'s> Look<'s> {
    #[cycle(look)]
    fn list_all(
        &self,
        ty: &Name,
        selections: &Listed<Selection>,
        faults: &mut Listed<DiagnosticData>,
    ) -> Result<(), Memory>
        ensures { OnOk result (faults.new ≡ faults.old ++ spec.selection_faults self.now.schema.now ty.now selections.now) }
    {
        for selection in selections.as_slice() {
            self.list_one(ty, selection, faults)?;
        }
        Ok(())
    }

    #[cycle(look)]
    fn list_one(
        &self,
        ty: &Name,
        selection: &Selection,
        faults: &mut Listed<DiagnosticData>,
    ) -> Result<(), Memory>
        ensures { OnOk result (faults.new ≡ faults.old ++ below.faults_of self.now.schema.now ty.now selection.now) }
    {
        match selection {
            Selection::Field(field) => self.list_field(ty, field, faults),
            Selection::FragmentSpread(_) => Ok(()),
            Selection::InlineFragment(fragment) => self.list_inline(ty, fragment, faults),
        }
    }

    #[cycle(look)]
    fn list_field(
        &self,
        ty: &Name,
        field: &Field,
        faults: &mut Listed<DiagnosticData>,
    ) -> Result<(), Memory>
        ensures { OnOk result (faults.new ≡ faults.old ++ below.field_faults self.now.schema.now ty.now field.now) }
    {
        match self.schema.type_field(ty.as_str(), field.name.as_str()) {
            Some(definition) => self.list_defined(field, definition, faults),
            None => list_undefined_field(self.alloc, ty, &field.name, faults),
        }
    }

    #[cycle(look)]
    fn list_defined(
        &self,
        field: &Field,
        definition: &FieldDefinition,
        faults: &mut Listed<DiagnosticData>,
    ) -> Result<(), Memory>
        ensures { OnOk result (faults.new ≡ faults.old ++ below.defined_faults self.now.schema.now field.now definition.now) }
    {
        if field.selection_set.is_empty() {
            return Ok(());
        }
        match leaf_of(self.schema, &definition.ty) {
            Leaf::Scalar => list_subselection_on_scalar_type(
                self.alloc,
                &definition.ty,
                &field.name,
                field.location,
                faults,
            ),
            Leaf::Enum => list_subselection_on_enum_type(
                self.alloc,
                &definition.ty,
                &field.name,
                field.location,
                faults,
            ),
            Leaf::Neither => self.list_all(
                definition.ty.inner_named_type(),
                &field.selection_set,
                faults,
            ),
        }
    }

    #[cycle(look)]
    fn list_inline(
        &self,
        ty: &Name,
        fragment: &InlineFragment,
        faults: &mut Listed<DiagnosticData>,
    ) -> Result<(), Memory>
        ensures { OnOk result (faults.new ≡ faults.old ++ below.inline_faults self.now.schema.now ty.now fragment.now) }
    {
        if is_open(self.schema, &fragment.type_condition) {
            self.list_all(
                type_inside(ty, &fragment.type_condition),
                &fragment.selection_set,
                faults,
            )
        } else {
            list_undefined_type_in_inline_fragment_type_condition(
                self.alloc,
                self.schema,
                &fragment.type_condition,
                faults,
            )
        }
    }
}
