//! A directive that is used is defined (GraphQL October 2021, section 5.7.1). It is asked in `directives.rt`.

ghost use Rattle.std.specs.Prelude.{◌≡◌, ◌++◌, ◌∷◌, [], OnOk};
ghost use Rattle.gql_rules_values.specs.UndefinedDirective.{undefined_directive};

use crate::fault::list_fault;
use gql_ast_base::Directive;
use gql_diag_messages::{DiagnosticData, Rule};
use jb_text::{Listed, Memory};
use std::alloc::Global;

/// Lists a use of a directive that is not defined.
pub(crate) fn list_undefined_directive(
    alloc: Global,
    used: &Directive,
    faults: &mut Listed<DiagnosticData>,
) -> Result<(), Memory>
    ensures { OnOk result (faults.new ≡ faults.old ++ undefined_directive used.now ∷ []) }
{
    list_fault(
        alloc,
        Rule::UndefinedDirective,
        &[used.name.as_str()],
        used.location,
        None,
        faults,
    )
}
