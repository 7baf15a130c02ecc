//! A union lists a member once (GraphQL October 2021, sections 3.8 and 3.8.1).

ghost use Rattle.std.specs.Prelude.{◌≡◌, ◌++◌, IfOk, OnOk};
ghost use Rattle.gql_schema_build.specs.UnionMemberNameCollision.{union_member_name_collisions};
ghost use Rattle.gql_schema_build.specs.Faults.{names_once};

use crate::distinct::distinct_names;
use gql_ast_base::Name;
use gql_diag_messages::{DiagnosticData, Rule};
use jb_text::{Listed, Memory};
use std::alloc::Global;

/// The members that a union lists, each once, and a fault for each that it lists again.
pub(crate) fn union_members(
    alloc: Global,
    owner: &str,
    names: Listed<Name>,
    faults: &mut Listed<DiagnosticData>,
) -> Result<Listed<Name>, Memory>
    ensures names { IfOk result (λ made. made ≡ names_once names) }
    ensures faults { OnOk result (faults.new ≡ faults.old ++ union_member_name_collisions owner.now names) }
{
    distinct_names(alloc, Rule::UnionMemberNameCollision, owner, names, faults)
}
