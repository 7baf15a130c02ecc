//! Fragments have distinct names (GraphQL October 2021, section 5.5.1.1).

ghost use Rattle.std.specs.Prelude.{◌≡◌, ◌++◌, map, IfOk, OnOk};
ghost use Rattle.gql_schema_types.specs.Entries.{put_new, repeat};
ghost use Rattle.gql_document.specs.FragmentNameCollision as spec;

use crate::fault::list_name;
use crate::fragment_tree::FragmentTree;
use gql_ast::FragmentDefinition;
use gql_diag_messages::{DiagnosticData, Rule};
use gql_schema_types::{Named, Table};
use jb_text::{Listed, Memory};
use std::alloc::{AllocError, Global};

/// The first fragment of each name, and a fault for each other.
pub(crate) fn first_fragments(
    alloc: Global,
    fragments: Listed<FragmentDefinition>,
    faults: &mut Listed<DiagnosticData>,
) -> Result<Table<FragmentTree>, Memory>
    ensures fragments { IfOk result (λ table. table ≡ spec.first_fragments fragments) }
    ensures faults { OnOk result (faults.new ≡ faults.old ++ spec.fragment_name_collisions fragments) }
{
    let mut table = Table::new(alloc);
    for fragment in fragments {
        place(alloc, &mut table, FragmentTree::new(fragment), faults)?;
    }
    Ok(table)
}

/// Adds a fragment last, unless there is one of its name: then it is a fault.
fn place(
    alloc: Global,
    table: &mut Table<FragmentTree>,
    fragment: FragmentTree,
    faults: &mut Listed<DiagnosticData>,
) -> Result<(), Memory>
    ensures table { OnOk result (table.new ≡ put_new spec.fragment_name table.old fragment) }
    ensures faults { OnOk result (faults.new ≡ faults.old ++ map spec.fragment_name_collision (repeat spec.fragment_name table.old fragment)) }
{
    match table.get(fragment.own_name().as_str()) {
        Some(first) => list_name(
            alloc,
            Rule::FragmentNameCollision,
            fragment.own_name(),
            first.own_name().location(),
            faults,
        ),
        None => match table.insert_new(fragment) {
            Ok(()) => Ok(()),
            Err(_) => Err(AllocError),
        },
    }
}
