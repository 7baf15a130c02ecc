//! Documents in which no type is known.

ghost use Rattle.std.specs.Prelude.{◌≡◌, [], map, IfOk, OnOk};
ghost use Rattle.gql_document_types.specs.RootFields.{fragment_name};
ghost use Rattle.gql_rules.specs.UntypedDocument as spec;
ghost use Rattle.gql_schema_types.specs.Entries.{joined, put_new};

use crate::untyped_selections::untyped_set;
use gql_ast::{FragmentDefinition, OperationDefinition};
use gql_document::ExecutableDefinitions;
use gql_document_types::{ExecutableDocument, Fragment, Operation};
use gql_schema_types::Table;
use gql_source::SourceMap;
use jb_text::{Listed, Memory};
use std::alloc::{AllocError, Global};

/// The document of operations and fragments in which no type is known. It has no files. `Err` only when out of memory.
pub(crate) fn untyped_document(
    alloc: Global,
    definitions: ExecutableDefinitions,
) -> Result<ExecutableDocument, Memory>
    ensures { IfOk result (λ document. document ≡ spec.untyped_document definitions) }
{
    let ExecutableDefinitions {
        operations,
        fragments,
    } = definitions;
    let operations = untyped_operations(alloc, operations)?;
    let fragments = untyped_fragments(alloc, fragments)?;
    Ok(ExecutableDocument {
        sources: SourceMap::new(alloc),
        operations,
        fragments,
    })
}

fn untyped_operations(
    alloc: Global,
    operations: Listed<OperationDefinition>,
) -> Result<Listed<Operation>, Memory>
    ensures { IfOk result (λ made. made ≡ map spec.untyped_operation operations) }
{
    let mut made = Listed::new(alloc);
    for operation in operations {
        made.push(untyped_operation(alloc, operation)?)?;
    }
    Ok(made)
}

fn untyped_operation(alloc: Global, operation: OperationDefinition) -> Result<Operation, Memory>
    ensures { IfOk result (λ made. made ≡ spec.untyped_operation operation) }
{
    let selection_set = untyped_set(alloc, operation.selection_set)?;
    Ok(Operation {
        operation_type: operation.operation_type,
        name: operation.name,
        variables: operation.variables,
        directives: operation.directives,
        selection_set,
        location: operation.location,
    })
}

/// A table of fragments, of each name the first.
fn untyped_fragments(
    alloc: Global,
    fragments: Listed<FragmentDefinition>,
) -> Result<Table<Fragment>, Memory>
    ensures { IfOk result (λ table. table ≡ joined fragment_name [] (map spec.untyped_fragment fragments)) }
{
    let mut table = Table::new(alloc);
    for fragment in fragments {
        place(untyped_fragment(alloc, fragment)?, &mut table)?;
    }
    Ok(table)
}

fn untyped_fragment(alloc: Global, fragment: FragmentDefinition) -> Result<Fragment, Memory>
    ensures { IfOk result (λ made. made ≡ spec.untyped_fragment fragment) }
{
    let selection_set = untyped_set(alloc, fragment.selection_set)?;
    Ok(Fragment {
        name: fragment.name,
        directives: fragment.directives,
        selection_set,
        location: fragment.location,
    })
}

/// Adds a fragment last, unless there is one of its name.
fn place(fragment: Fragment, table: &mut Table<Fragment>) -> Result<(), Memory>
    ensures { OnOk result (table.new ≡ put_new fragment_name table.old fragment) }
{
    match table.get(fragment.name.as_str()) {
        Some(_) => Ok(()),
        None => match table.insert_new(fragment) {
            Ok(()) => Ok(()),
            Err(_) => Err(AllocError),
        },
    }
}
