//! No input object needs itself (GraphQL October 2021, section 3.10, "Circular References").

ghost use Rattle.std.specs.Prelude.{◌≡◌, ◌++◌, List, map, IfOk, OnOk};
ghost use Rattle.std.specs.List.{flat_map};
ghost use Rattle.gql_diag_messages.specs.declared.diagnostic_data.DiagnosticData as item;
ghost use Rattle.gql_schema_rules.specs.RecursiveInputObjectDefinition as spec;

use crate::cycle_faults::list_cycles;
use gql_ast::InputValueDefinition;
use gql_ast_base::{Name, TypeRef};
use gql_diag_messages::{DiagnosticData, Rule};
use gql_schema_types::{ExtendedType, Table};
use jb_text::{Listed, Memory};
use std::alloc::Global;

/// Lists each input object that needs itself by fields of types `T!`, and each from which a chain of more than 32 begins though
/// it reaches none of these. `Err` only when out of memory.
pub(crate) fn list_recursive_input_objects(
    alloc: Global,
    types: &Table<ExtendedType>,
    faults: &mut Listed<DiagnosticData>,
) -> Result<(), Memory>
    ensures { OnOk result ((told : List item.DiagnosticData) × spec.AreRecursiveInputObjects types.now told × (faults.new ≡ faults.old ++ told)) }
{
    let graph = input_graph(alloc, types)?;
    list_cycles(
        alloc,
        Rule::RecursiveInputObjectDefinition,
        &graph,
        types.len(),
        types.as_slice(),
        faults,
    )
}

/// The graph in which an edge leads from each input object to each that it needs.
fn input_graph(alloc: Global, types: &Table<ExtendedType>) -> Result<Listed<Listed<usize>>, Memory>
    ensures { IfOk result (λ graph. graph ≡ spec.input_graph types.now) }
{
    let mut graph = Listed::new(alloc);
    for ty in types.as_slice() {
        graph.push(input_edges(alloc, types, ty)?)?;
    }
    Ok(graph)
}

/// The numbers of the input objects that an input object needs.
fn input_edges(
    alloc: Global,
    types: &Table<ExtendedType>,
    ty: &ExtendedType,
) -> Result<Listed<usize>, Memory>
    ensures { IfOk result (λ nodes. nodes ≡ spec.input_edges types.now ty.now) }
{
    match ty {
        ExtendedType::InputObject(it) => input_nodes(alloc, types, it.fields.as_slice()),
        ExtendedType::Scalar(_) => Ok(Listed::new(alloc)),
        ExtendedType::Object(_) => Ok(Listed::new(alloc)),
        ExtendedType::Interface(_) => Ok(Listed::new(alloc)),
        ExtendedType::Union(_) => Ok(Listed::new(alloc)),
        ExtendedType::Enum(_) => Ok(Listed::new(alloc)),
    }
}

/// The numbers of the input objects that these fields need.
fn input_nodes(
    alloc: Global,
    types: &Table<ExtendedType>,
    fields: &[InputValueDefinition],
) -> Result<Listed<usize>, Memory>
    ensures { IfOk result (λ nodes. nodes ≡ flat_map (spec.needed types.now) fields.now) }
{
    let mut nodes = Listed::new(alloc);
    for field in fields {
        push_needed(types, field, &mut nodes)?;
    }
    Ok(nodes)
}

/// Adds the number of the input object that a field needs, if there is one.
fn push_needed(
    types: &Table<ExtendedType>,
    field: &InputValueDefinition,
    nodes: &mut Listed<usize>,
) -> Result<(), Memory>
    ensures { OnOk result (nodes.new ≡ nodes.old ++ spec.needed types.now field.now) }
{
    match &field.ty {
        TypeRef::NonNullNamed(name) => push_input_object(types, name, nodes),
        TypeRef::Named(_) => Ok(()),
        TypeRef::List(_) => Ok(()),
        TypeRef::NonNullList(_) => Ok(()),
    }
}

/// Adds the number of the input object of the name, if there is one.
fn push_input_object(
    types: &Table<ExtendedType>,
    name: &Name,
    nodes: &mut Listed<usize>,
) -> Result<(), Memory>
    ensures { OnOk result (nodes.new ≡ nodes.old ++ spec.input_node types.now name.now) }
{
    match types.find(name.as_str()) {
        Some(node) => push_if_input_object(types, node, nodes),
        None => Ok(()),
    }
}

/// Adds the number of a type, if it is an input object.
fn push_if_input_object(
    types: &Table<ExtendedType>,
    node: usize,
    nodes: &mut Listed<usize>,
) -> Result<(), Memory>
    ensures { OnOk result (nodes.new ≡ nodes.old ++ spec.node_at types.now node) }
{
    match types.at(node) {
        Some(ExtendedType::InputObject(_)) => nodes.push(node),
        Some(_) => Ok(()),
        None => Ok(()),
    }
}
