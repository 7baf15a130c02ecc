//! A field is defined on the type of its set (GraphQL October 2021, section 5.3.1).

ghost use Rattle.std.specs.Prelude.{◌≡◌, ◌++◌, ◌∷◌, [], OnOk};
ghost use Rattle.gql_document.specs.UndefinedField as spec;

use crate::fault::list_words;
use gql_ast_base::Name;
use gql_diag_messages::{DiagnosticData, Rule};
use jb_text::{Listed, Memory};
use std::alloc::Global;

/// Lists a field that is not defined on the type of its set.
pub(crate) fn list_undefined_field(
    alloc: Global,
    ty: &Name,
    name: &Name,
    faults: &mut Listed<DiagnosticData>,
) -> Result<(), Memory>
    ensures { OnOk result (faults.new ≡ faults.old ++ spec.told ty.now name.now ∷ []) }
{
    list_words(
        alloc,
        Rule::UndefinedField,
        ty.as_str(),
        name.as_str(),
        name.location(),
        faults,
    )
}
