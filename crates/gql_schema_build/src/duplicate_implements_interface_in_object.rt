//! An object type lists an interface once (GraphQL October 2021, sections 3.6 and 3.6.3).

ghost use Rattle.std.specs.Prelude.{◌≡◌, ◌++◌, IfOk, OnOk};
ghost use Rattle.gql_schema_build.specs.DuplicateImplementsInterfaceInObject.{duplicate_interfaces_in_object};
ghost use Rattle.gql_schema_build.specs.Faults.{names_once};

use crate::distinct::distinct_names;
use gql_ast_base::Name;
use gql_diag_messages::{DiagnosticData, Rule};
use jb_text::{Listed, Memory};
use std::alloc::Global;

/// The interfaces that an object type lists, each once, and a fault for each that it lists again.
pub(crate) fn object_interfaces(
    alloc: Global,
    owner: &str,
    names: Listed<Name>,
    faults: &mut Listed<DiagnosticData>,
) -> Result<Listed<Name>, Memory>
    ensures names { IfOk result (λ made. made ≡ names_once names) }
    ensures faults { OnOk result (faults.new ≡ faults.old ++ duplicate_interfaces_in_object owner.now names) }
{
    distinct_names(
        alloc,
        Rule::DuplicateImplementsInterfaceInObject,
        owner,
        names,
        faults,
    )
}
