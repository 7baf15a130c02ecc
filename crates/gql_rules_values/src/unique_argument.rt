//! An argument is given once (GraphQL October 2021, section 5.4.2).

ghost use Rattle.std.specs.Prelude.{◌≡◌, ◌++◌, OnOk};
ghost use Rattle.gql_rules_values.specs.UniqueArgument.{unique_argument};

use crate::seconds::{EachCounts, list_seconds};
use gql_ast_base::Argument;
use gql_diag_messages::{DiagnosticData, Rule};
use jb_text::{Listed, Memory};
use std::alloc::Global;

/// Lists each argument whose name came before, with the first one's place (GraphQL October 2021, section 5.4.2). `Err` only when
/// out of memory.
pub fn list_unique_argument(
    alloc: Global,
    arguments: &[Argument],
    faults: &mut Listed<DiagnosticData>,
) -> Result<(), Memory>
    ensures { OnOk result (faults.new ≡ faults.old ++ unique_argument arguments.now) }
{
    list_seconds(alloc, Rule::UniqueArgument, &EachCounts, arguments, faults)
}
