//! Operations have distinct names (GraphQL October 2021, section 5.2.1.1).

ghost use Rattle.std.specs.Prelude.{◌≡◌, ◌++◌, IfOk, OnOk};
ghost use Rattle.gql_document.specs.OperationNameCollision as spec;
ghost use Rattle.gql_document.specs.bridge.OperationNameCollision as spec_bridge;

use crate::fault::list_name;
use gql_ast::OperationDefinition;
use gql_ast_base::{Copying, Name};
use gql_diag_messages::{DiagnosticData, Rule};
use gql_schema_types::Table;
use jb_text::{Listed, Memory};
use std::alloc::{AllocError, Global};

/// The first operation of each name and those without a name, and a fault for each other.
pub(crate) fn first_operations(
    alloc: Global,
    operations: Listed<OperationDefinition>,
    faults: &mut Listed<DiagnosticData>,
) -> Result<Listed<OperationDefinition>, Memory>
    ensures operations { IfOk result (λ made. made ≡ spec.first_operations operations) }
    ensures faults { OnOk result (faults.new ≡ faults.old ++ spec.operation_name_collisions operations) }
{
    let mut names = Table::new(alloc);
    let mut made = Listed::new(alloc);
    for operation in operations {
        place(alloc, operation, &mut names, &mut made, faults)?;
    }
    Ok(made)
}

/// Adds an operation last, unless there is one of its name: then it is a fault.
fn place(
    alloc: Global,
    operation: OperationDefinition,
    names: &mut Table<Name>,
    made: &mut Listed<OperationDefinition>,
    faults: &mut Listed<DiagnosticData>,
) -> Result<(), Memory>
    ensures names { OnOk result (names.new ≡ spec.with_option names.old operation.name) }
    ensures made { OnOk result (made.new ≡ made.old ++ spec.first_or_none names.old operation) }
    ensures faults { OnOk result (faults.new ≡ faults.old ++ spec.collision names.old operation.name) }
{
    if note_name(alloc, &operation.name, names, faults)? {
        made.push(operation)
    } else {
        Ok(())
    }
}

/// Notes a name, if there is one, and whether it is the first of its kind: another one is a fault.
fn note_name(
    alloc: Global,
    name: &Option<Name>,
    names: &mut Table<Name>,
    faults: &mut Listed<DiagnosticData>,
) -> Result<bool, Memory>
    ensures first { IfOk result (λ first. first ≡ spec.is_first names.old name.now) }
    ensures names { OnOk result (names.new ≡ spec.with_option names.old name.now) }
    ensures faults { OnOk result (faults.new ≡ faults.old ++ spec.collision names.old name.now) }
{
    match name {
        Some(name) => note_some(alloc, name, names, faults),
        None => Ok(true),
    }
}

/// Notes a name, and whether it is the first of its kind: another one is a fault.
fn note_some(
    alloc: Global,
    name: &Name,
    names: &mut Table<Name>,
    faults: &mut Listed<DiagnosticData>,
) -> Result<bool, Memory>
    ensures first { IfOk result (λ first. first ≡ spec.is_first_name names.old name.now) }
    ensures names { OnOk result (names.new ≡ spec.with_name names.old name.now) }
    ensures faults { OnOk result (faults.new ≡ faults.old ++ spec.name_collision names.old name.now) }
{
    match names.get(name.as_str()) {
        Some(first) => {
            list_name(
                alloc,
                Rule::OperationNameCollision,
                name,
                first.location(),
                faults,
            )?;
            Ok(false)
        }
        None => {
            add_name(names, name.copy(alloc)?)?;
            Ok(true)
        }
    }
}

/// Adds a name that is not there.
fn add_name(names: &mut Table<Name>, name: Name) -> Result<(), Memory>
    requires { spec_bridge.is_new names.old name }
    ensures { OnOk result (names.new ≡ spec_bridge.added names.old name) }
{
    match names.insert_new(name) {
        Ok(()) => Ok(()),
        Err(_) => Err(AllocError),
    }
}
