//! A field of an object, an interface or a union has selections (GraphQL October 2021, section 5.3.3).

ghost use Rattle.std.specs.Prelude.{◌≡◌, ◌++◌, OnOk, ◌∷◌, [], None};
ghost use Rattle.gql_ast.specs.TypeText.{type_text};
ghost use Rattle.gql_diag_messages.specs.declared.rule.Rule.TheVariants.{MissingSubselection};
ghost use Rattle.gql_rules_values.specs.Faults as told;
ghost use Rattle.gql_rules_nodes.specs.bridge.MissingSubselection as spec;

use crate::composite::is_composite;
use gql_ast::print_type;
use gql_ast_base::TypeRef;
use gql_diag_messages::{DiagnosticData, Rule};
use gql_document_types::Field;
use gql_rules_values::list_fault;
use gql_schema_types::{ExtendedType, Table};
use gql_source::SourceSpan;
use jb_text::{Listed, Memory};
use std::alloc::Global;

/// Lists a field whose type is an object, an interface or a union and that has no selections.
pub(crate) fn list_missing_subselection(
    alloc: Global,
    types: &Table<ExtendedType>,
    field: &Field,
    faults: &mut Listed<DiagnosticData>,
) -> Result<(), Memory>
    ensures { OnOk result (faults.new ≡ faults.old ++ spec.missing_at types.now field.now) }
{
    if field.selection_set.selections.is_empty()
        && is_composite(types, field.definition.ty.inner_named_type().as_str())
    {
        list_lacking(
            alloc,
            field.name.as_str(),
            &field.definition.ty,
            field.location,
            faults,
        )
    } else {
        Ok(())
    }
}

/// Lists a field with its type.
fn list_lacking(
    alloc: Global,
    name: &str,
    ty: &TypeRef,
    place: Option<SourceSpan>,
    faults: &mut Listed<DiagnosticData>,
) -> Result<(), Memory>
    ensures { OnOk result (faults.new ≡ faults.old ++ told.fault MissingSubselection (name.now ∷ type_text ty.now ∷ []) place None ∷ []) }
{
    let ty = print_type(alloc, ty)?;
    list_fault(
        alloc,
        Rule::MissingSubselection,
        &[name, ty.as_str()],
        place,
        None,
        faults,
    )
}
