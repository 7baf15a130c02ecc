//! Broken rules, as diagnostics.

ghost use Rattle.std.specs.Prelude.{◌≡◌, ◌++◌, [], ◌∷◌, OnOk};
ghost use Rattle.gql_rules_values.specs.Faults as spec;

use gql_ast_base::Name;
pub use gql_diag_messages::list_fault;
use gql_diag_messages::{Details, DiagnosticData, Rule};
use jb_text::{Listed, Memory};
use std::alloc::Global;

/// Lists a rule that what has this name breaks, at the name. `Err` only when out of memory.
pub fn list_name(
    alloc: Global,
    rule: Rule,
    name: &Name,
    faults: &mut Listed<DiagnosticData>,
) -> Result<(), Memory>
    ensures { OnOk result (faults.new ≡ faults.old ++ spec.name_fault rule name.now ∷ []) }
{
    list_fault(alloc, rule, &[name.as_str()], name.location(), None, faults)
}

/// Lists that the chain of names that begins with this one is too long. `Err` only when out of memory.
pub fn list_long_chain(name: &Name, faults: &mut Listed<DiagnosticData>) -> Result<(), Memory>
    ensures { OnOk result (faults.new ≡ faults.old ++ spec.long_chain name.now ∷ []) }
{
    faults.push(DiagnosticData {
        location: name.location(),
        details: Details::RecursionLimitError,
    })
}
