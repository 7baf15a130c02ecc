//! A variable that is used is defined in each operation that reaches the use (GraphQL October 2021, section 5.8.3).

ghost use Rattle.std.specs.Prelude.{◌≡◌, ◌++◌, OnOk};
ghost use Rattle.gql_rules_values.specs.Faults as told;
ghost use Rattle.gql_rules.specs.UndefinedVariable as spec;
ghost use Rattle.gql_rules.specs.bridge.Views as seen;

use crate::uses::Use;
use gql_diag_messages::{DiagnosticData, Rule};
use gql_rules_values::list_fault;
use jb_text::{Listed, Memory};
use std::alloc::Global;

/// Lists a use, if some operation lacks its variable.
pub(crate) fn list_undefined_variable(
    alloc: Global,
    undefined: bool,
    used: &Use<'_>,
    faults: &mut Listed<DiagnosticData>,
) -> Result<(), Memory>
    ensures { OnOk result (faults.new ≡ faults.old ++ told.only_if undefined (spec.undefined_fault (seen.use_of used.now))) }
{
    if undefined {
        list_fault(
            alloc,
            Rule::UndefinedVariable,
            &[used.name.as_str()],
            used.location,
            None,
            faults,
        )
    } else {
        Ok(())
    }
}
