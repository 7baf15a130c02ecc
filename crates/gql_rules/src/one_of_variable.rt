//! A variable as the one member of a literal at a one-of input object is not nullable (GraphQL September 2025, sections 3.10.1 and
//! 5.8.5).

ghost use Rattle.std.specs.Prelude.{◌≡◌, ◌++◌, [], OnOk, if◌then◌else◌};
ghost use Rattle.gql_rules.specs.OneOfVariable as spec;
ghost use Rattle.gql_rules.specs.bridge.Views as seen;

use crate::uses::Use;
use gql_ast::VariableDefinition;
use gql_diag_messages::DiagnosticData;
use gql_rules_values::list_one_of_literal;
use jb_text::{Listed, Memory};
use std::alloc::Global;

/// Whether the variable may be null.
pub(crate) fn is_nullable(variable: &VariableDefinition) -> bool
    ensures { result ≡ spec.is_nullable variable.now }
{
    !variable.ty.is_non_null()
}

/// Lists the literal at a one-of input object whose one member the use is, if it is one, and if some operation has a nullable
/// variable there.
pub(crate) fn list_one_of_variable(
    alloc: Global,
    nullable: bool,
    used: &Use<'_>,
    faults: &mut Listed<DiagnosticData>,
) -> Result<(), Memory>
    ensures { OnOk result (faults.new ≡ faults.old ++ (if nullable then spec.literal_told (seen.use_of used.now) else [])) }
{
    if nullable {
        list_literal(alloc, used, faults)
    } else {
        Ok(())
    }
}

/// Lists the literal at a one-of input object whose one member the use is, if it is one.
fn list_literal(
    alloc: Global,
    used: &Use<'_>,
    faults: &mut Listed<DiagnosticData>,
) -> Result<(), Memory>
    ensures { OnOk result (faults.new ≡ faults.old ++ spec.literal_told (seen.use_of used.now)) }
{
    match used.place.one_of {
        Some(name) => list_one_of_literal(alloc, name, used.place.literal_location(), faults),
        None => Ok(()),
    }
}
