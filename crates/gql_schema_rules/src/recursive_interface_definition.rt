//! No interface implements itself (GraphQL October 2021, section 3.7).

ghost use Rattle.std.specs.Prelude.{◌≡◌, ◌++◌, List, map, IfOk, OnOk};
ghost use Rattle.std.specs.List.{flat_map};
ghost use Rattle.gql_diag_messages.specs.declared.diagnostic_data.DiagnosticData as item;
ghost use Rattle.gql_schema_rules.specs.RecursiveInterfaceDefinition as spec;

use crate::cycle_faults::list_cycles;
use gql_ast_base::Name;
use gql_diag_messages::{DiagnosticData, Rule};
use gql_schema_types::{ExtendedType, Table};
use jb_text::{Listed, Memory};
use std::alloc::Global;

/// Lists each interface that implements itself by what it lists, and each from which a chain of more than 32 begins though it
/// reaches none of these. `Err` only when out of memory.
pub(crate) fn list_recursive_interfaces(
    alloc: Global,
    types: &Table<ExtendedType>,
    faults: &mut Listed<DiagnosticData>,
) -> Result<(), Memory>
    ensures { OnOk result ((told : List item.DiagnosticData) × spec.AreRecursiveInterfaces types.now told × (faults.new ≡ faults.old ++ told)) }
{
    let graph = interface_graph(alloc, types)?;
    list_cycles(
        alloc,
        Rule::RecursiveInterfaceDefinition,
        &graph,
        types.len(),
        types.as_slice(),
        faults,
    )
}

/// The graph in which an edge leads from each interface to each that it lists.
fn interface_graph(
    alloc: Global,
    types: &Table<ExtendedType>,
) -> Result<Listed<Listed<usize>>, Memory>
    ensures { IfOk result (λ graph. graph ≡ spec.interface_graph types.now) }
{
    let mut graph = Listed::new(alloc);
    for ty in types.as_slice() {
        graph.push(interface_edges(alloc, types, ty)?)?;
    }
    Ok(graph)
}

/// The numbers of the interfaces that an interface lists.
fn interface_edges(
    alloc: Global,
    types: &Table<ExtendedType>,
    ty: &ExtendedType,
) -> Result<Listed<usize>, Memory>
    ensures { IfOk result (λ nodes. nodes ≡ spec.interface_edges types.now ty.now) }
{
    match ty {
        ExtendedType::Interface(it) => {
            interface_nodes(alloc, types, it.implements_interfaces.as_slice())
        }
        ExtendedType::Scalar(_) => Ok(Listed::new(alloc)),
        ExtendedType::Object(_) => Ok(Listed::new(alloc)),
        ExtendedType::Union(_) => Ok(Listed::new(alloc)),
        ExtendedType::Enum(_) => Ok(Listed::new(alloc)),
        ExtendedType::InputObject(_) => Ok(Listed::new(alloc)),
    }
}

/// The numbers of the interfaces of these names.
fn interface_nodes(
    alloc: Global,
    types: &Table<ExtendedType>,
    names: &[Name],
) -> Result<Listed<usize>, Memory>
    ensures { IfOk result (λ nodes. nodes ≡ flat_map (spec.interface_node types.now) names.now) }
{
    let mut nodes = Listed::new(alloc);
    for name in names {
        push_interface(types, name, &mut nodes)?;
    }
    Ok(nodes)
}

/// Adds the number of the interface of the name, if there is one.
fn push_interface(
    types: &Table<ExtendedType>,
    name: &Name,
    nodes: &mut Listed<usize>,
) -> Result<(), Memory>
    ensures { OnOk result (nodes.new ≡ nodes.old ++ spec.interface_node types.now name.now) }
{
    match types.find(name.as_str()) {
        Some(node) => push_if_interface(types, node, nodes),
        None => Ok(()),
    }
}

/// Adds the number of a type, if it is an interface.
fn push_if_interface(
    types: &Table<ExtendedType>,
    node: usize,
    nodes: &mut Listed<usize>,
) -> Result<(), Memory>
    ensures { OnOk result (nodes.new ≡ nodes.old ++ spec.node_at types.now node) }
{
    match types.at(node) {
        Some(ExtendedType::Interface(_)) => nodes.push(node),
        Some(_) => Ok(()),
        None => Ok(()),
    }
}
