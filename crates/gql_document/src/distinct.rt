//! The operations and fragments of a document, of each name the first, and what is wrong with definitions by themselves.

ghost use Rattle.std.specs.Prelude.{◌≡◌, ◌++◌, IfOk, OnOk};
ghost use Rattle.std.specs.List.{flat_map};
ghost use Rattle.gql_document.specs.AmbiguousAnonymousOperation.{ambiguous_anonymous_operation};
ghost use Rattle.gql_document.specs.DistinctDefinitions as spec;

use crate::ambiguous_anonymous_operation::{are_several, list_ambiguous_anonymous_operation};
use crate::executable_definitions::ExecutableDefinitions;
use crate::fragment_name_collision::first_fragments;
use crate::fragment_tree::FragmentTree;
use crate::operation_name_collision::first_operations;
use crate::type_system_definition::list_type_system_definitions;
use gql_ast::{Definition, FragmentDefinition, OperationDefinition};
use gql_diag_messages::DiagnosticData;
use jb_text::{Listed, Memory};
use std::alloc::Global;

/// Copies of the operations and fragments among definitions, of each name the first. What no schema is asked about is listed:
/// each definition of a type system, each operation without a name among several, and each operation and each fragment that has
/// the name of one before it (GraphQL October 2021, sections 5.1.1, 5.2.1.1, 5.2.2.1 and 5.5.1.1).
///
/// `Err` only when out of memory: then the list has some of the faults.
pub fn distinct_definitions(
    alloc: Global,
    definitions: &Listed<Definition>,
    faults: &mut Listed<DiagnosticData>,
) -> Result<ExecutableDefinitions, Memory>
    ensures definitions { IfOk result (λ made. made ≡ spec.distinct_definitions definitions.now) }
    ensures faults { OnOk result (faults.new ≡ faults.old ++ spec.definition_faults definitions.now) }
{
    list_type_system_definitions(alloc, definitions, faults)?;
    let mut taken = ExecutableDefinitions::new(alloc);
    taken.copy_all(alloc, definitions)?;
    distinct_ones(alloc, taken, faults)
}

/// The same of operations and fragments.
fn distinct_ones(
    alloc: Global,
    taken: ExecutableDefinitions,
    faults: &mut Listed<DiagnosticData>,
) -> Result<ExecutableDefinitions, Memory>
    ensures definitions { IfOk result (λ made. made ≡ spec.distinct taken) }
    ensures faults { OnOk result (faults.new ≡ faults.old ++ spec.faults_of taken) }
{
    let ExecutableDefinitions {
        operations,
        fragments,
    } = taken;
    let several = are_several(&operations);
    list_ambiguous(alloc, several, operations.as_slice(), faults)?;
    let operations = first_operations(alloc, operations, faults)?;
    let fragments = first_fragments(alloc, fragments, faults)?;
    Ok(ExecutableDefinitions {
        operations,
        fragments: trees(alloc, fragments.into_vec())?,
    })
}

/// Lists each operation that has no name, if there are several.
fn list_ambiguous(
    alloc: Global,
    several: bool,
    operations: &[OperationDefinition],
    faults: &mut Listed<DiagnosticData>,
) -> Result<(), Memory>
    ensures { OnOk result (faults.new ≡ faults.old ++ flat_map (ambiguous_anonymous_operation several) operations.now) }
{
    for operation in operations {
        list_ambiguous_anonymous_operation(alloc, several, operation, faults)?;
    }
    Ok(())
}

/// The fragments as they were read.
fn trees(alloc: Global, fragments: Vec<FragmentTree>) -> Result<Listed<FragmentDefinition>, Memory>
    ensures { IfOk result (λ made. made ≡ fragments.items) }
{
    let mut made = Listed::new(alloc);
    for fragment in fragments {
        made.push(fragment.into_inner())?;
    }
    Ok(made)
}
