//! A field of an enum type has no selections (GraphQL October 2021, section 5.3.3).

ghost use Rattle.std.specs.Prelude.{◌≡◌, ◌++◌, ◌∷◌, [], OnOk};
ghost use Rattle.gql_document.specs.SubselectionOnEnumType as spec;

use crate::fault::list_words;
use gql_ast::print_type;
use gql_ast_base::{Name, TypeRef};
use gql_diag_messages::{DiagnosticData, Rule};
use gql_source::SourceSpan;
use jb_text::{Listed, Memory};
use std::alloc::Global;

/// Lists a field of an enum type that has selections.
pub(crate) fn list_subselection_on_enum_type(
    alloc: Global,
    ty: &TypeRef,
    name: &Name,
    location: Option<SourceSpan>,
    faults: &mut Listed<DiagnosticData>,
) -> Result<(), Memory>
    ensures { OnOk result (faults.new ≡ faults.old ++ spec.told ty.now name.now location ∷ []) }
{
    let text = print_type(alloc, ty)?;
    list_words(
        alloc,
        Rule::SubselectionOnEnumType,
        text.as_str(),
        name.as_str(),
        location,
        faults,
    )
}
