//! Parts of an owner, of each name the first, and faults for the others.

ghost use Rattle.std.specs.Prelude.{◌≡◌, ◌++◌, [], IfOk, OnOk, map};
ghost use Rattle.gql_schema_types.specs.Entries.{put_new, joined, repeat};
ghost use Rattle.gql_schema_build.specs.Faults as spec;

use crate::fault::list_collision;
use crate::parts_listed::listed;
use gql_ast_base::Name;
use gql_diag_messages::{DiagnosticData, Rule};
use gql_schema_types::{Named, Table};
use jb_text::{Listed, Memory};
use std::alloc::{AllocError, Global};

/// The parts of an owner, of each name the first; each other breaks this rule.
pub(crate) fn distinct<T: Named + Drop>(
    alloc: Global,
    rule: Rule,
    owner: &str,
    items: Listed<T>,
    faults: &mut Listed<DiagnosticData>,
) -> Result<Table<T>, Memory>
    ensures table { IfOk result (λ table. table ≡ joined T.own [] items) }
    ensures faults { OnOk result (faults.new ≡ faults.old ++ spec.collisions T.own rule owner.now items) }
{
    let mut table = Table::with_capacity(alloc, items.len())?;
    for item in items {
        place(alloc, rule, owner, &mut table, item, faults)?;
    }
    Ok(table)
}

/// The names that an owner lists, each once; each that is listed again breaks this rule.
pub(crate) fn distinct_names(
    alloc: Global,
    rule: Rule,
    owner: &str,
    names: Listed<Name>,
    faults: &mut Listed<DiagnosticData>,
) -> Result<Listed<Name>, Memory>
    ensures names { IfOk result (λ made. made ≡ spec.names_once names) }
    ensures faults { OnOk result (faults.new ≡ faults.old ++ spec.name_collisions rule owner.now names) }
{
    let table = distinct(alloc, rule, owner, names, faults)?;
    listed(alloc, table.into_vec())
}

/// Adds a part last, unless there is one of its name: then it breaks this rule.
fn place<T: Named + Drop>(
    alloc: Global,
    rule: Rule,
    owner: &str,
    table: &mut Table<T>,
    item: T,
    faults: &mut Listed<DiagnosticData>,
) -> Result<(), Memory>
    ensures table { OnOk result (table.new ≡ put_new T.own table.old item) }
    ensures faults { OnOk result (faults.new ≡ faults.old ++ map (spec.collision_of T.own rule owner.now) (repeat T.own table.old item)) }
{
    match table.get(item.own_name().as_str()) {
        Some(first) => list_collision(
            alloc,
            rule,
            owner,
            item.own_name(),
            first.own_name(),
            faults,
        ),
        None => match table.insert_new(item) {
            Ok(()) => Ok(()),
            Err(_) => Err(AllocError),
        },
    }
}
