//! No directive is used in its own definition: on its arguments, or on the input types that these name (GraphQL October 2021,
//! section 3.13). The standard goes on through the fields and values of these types; docs/DECISIONS.md says why this does not.

ghost use Rattle.std.specs.Prelude.{◌≡◌, ◌++◌, ◌+◌, ◌<◌, List, length, map, IfOk, OnOk};
ghost use Rattle.gql_diag_messages.specs.declared.diagnostic_data.DiagnosticData as item;
ghost use Rattle.gql_schema_rules.specs.RecursiveDirectiveDefinition as spec;

use crate::cycle_faults::list_cycles;
use gql_ast::{DirectiveDefinition, InputValueDefinition};
use gql_ast_base::{Directive, Name};
use gql_diag_messages::{DiagnosticData, Rule};
use gql_schema_types::{ExtendedType, Table};
use jb_text::{Listed, Memory};
use std::alloc::Global;

/// Lists each directive that is used in its own definition, by the directives on its arguments and on the input types that these
/// name, and each from which a chain of more than 32 begins though it reaches none of these. `Err` only when out of memory.
pub(crate) fn list_recursive_directives(
    alloc: Global,
    definitions: &Table<DirectiveDefinition>,
    types: &Table<ExtendedType>,
    faults: &mut Listed<DiagnosticData>,
) -> Result<(), Memory>
    ensures { OnOk result ((told : List item.DiagnosticData) × spec.AreRecursiveDirectives definitions.now types.now told × (faults.new ≡ faults.old ++ told)) }
{
    let graph = directive_graph(alloc, definitions, types)?;
    list_cycles(
        alloc,
        Rule::RecursiveDirectiveDefinition,
        &graph,
        definitions.len(),
        definitions.as_slice(),
        faults,
    )
}

/// The graph of directives and, behind them, types. An edge leads from a directive to each that is on its arguments and to the
/// types that these name, and from an input type to each directive on it.
fn directive_graph(
    alloc: Global,
    definitions: &Table<DirectiveDefinition>,
    types: &Table<ExtendedType>,
) -> Result<Listed<Listed<usize>>, Memory>
    ensures { IfOk result (λ graph. graph ≡ spec.directive_graph definitions.now types.now) }
{
    let mut graph = definition_rows(alloc, definitions, types)?;
    add_type_rows(alloc, definitions, types.as_slice(), &mut graph)?;
    Ok(graph)
}

/// The edges of each directive.
fn definition_rows(
    alloc: Global,
    definitions: &Table<DirectiveDefinition>,
    types: &Table<ExtendedType>,
) -> Result<Listed<Listed<usize>>, Memory>
    ensures { IfOk result (λ graph. graph ≡ map (spec.directive_edges definitions.now types.now) definitions.now) }
{
    let mut graph = Listed::new(alloc);
    for definition in definitions.as_slice() {
        graph.push(directive_edges(alloc, definitions, types, definition)?)?;
    }
    Ok(graph)
}

/// Adds the edges of each type.
fn add_type_rows(
    alloc: Global,
    definitions: &Table<DirectiveDefinition>,
    types: &[ExtendedType],
    graph: &mut Listed<Listed<usize>>,
) -> Result<(), Memory>
    ensures { OnOk result (graph.new ≡ graph.old ++ map (spec.type_edges definitions.now) types.now) }
{
    for ty in types {
        graph.push(type_edges(alloc, definitions, ty)?)?;
    }
    Ok(())
}

/// The numbers of the directives on an input type.
fn type_edges(
    alloc: Global,
    definitions: &Table<DirectiveDefinition>,
    ty: &ExtendedType,
) -> Result<Listed<usize>, Memory>
    ensures { IfOk result (λ nodes. nodes ≡ spec.type_edges definitions.now ty.now) }
{
    let mut nodes = Listed::new(alloc);
    push_directives(definitions, input_directives(ty), &mut nodes)?;
    Ok(nodes)
}

/// The directives on an input type itself.
fn input_directives(ty: &ExtendedType) -> &[Directive]
    ensures { result.now ≡ spec.input_directives ty.now }
{
    match ty {
        ExtendedType::Scalar(it) => it.directives.as_slice(),
        ExtendedType::Enum(it) => it.directives.as_slice(),
        ExtendedType::InputObject(it) => it.directives.as_slice(),
        ExtendedType::Object(_) => &[],
        ExtendedType::Interface(_) => &[],
        ExtendedType::Union(_) => &[],
    }
}

/// The numbers of the directives on a directive's arguments and of the types that these name.
fn directive_edges(
    alloc: Global,
    definitions: &Table<DirectiveDefinition>,
    types: &Table<ExtendedType>,
    definition: &DirectiveDefinition,
) -> Result<Listed<usize>, Memory>
    ensures { IfOk result (λ nodes. nodes ≡ spec.directive_edges definitions.now types.now definition.now) }
{
    let mut nodes = Listed::new(alloc);
    for argument in definition.arguments.as_slice() {
        push_argument(definitions, types, argument, &mut nodes)?;
    }
    Ok(nodes)
}

/// Adds the numbers of the directives on an argument, and that of the type that it names.
fn push_argument(
    definitions: &Table<DirectiveDefinition>,
    types: &Table<ExtendedType>,
    argument: &InputValueDefinition,
    nodes: &mut Listed<usize>,
) -> Result<(), Memory>
    ensures { OnOk result (nodes.new ≡ nodes.old ++ spec.argument_edges definitions.now types.now argument.now) }
{
    push_directives(definitions, argument.directives.as_slice(), nodes)?;
    push_type(
        definitions.as_slice(),
        types,
        argument.ty.inner_named_type(),
        nodes,
    )
}

/// Adds the numbers of the directives that are used.
fn push_directives(
    definitions: &Table<DirectiveDefinition>,
    directives: &[Directive],
    nodes: &mut Listed<usize>,
) -> Result<(), Memory>
    ensures { OnOk result (nodes.new ≡ nodes.old ++ spec.directive_nodes definitions.now directives.now) }
{
    for used in directives {
        push_directive(definitions, used, nodes)?;
    }
    Ok(())
}

/// Adds the number of a directive that is used, if it is defined.
fn push_directive(
    definitions: &Table<DirectiveDefinition>,
    used: &Directive,
    nodes: &mut Listed<usize>,
) -> Result<(), Memory>
    ensures { OnOk result (nodes.new ≡ nodes.old ++ spec.directive_node definitions.now used.now) }
{
    match definitions.find(used.name.as_str()) {
        Some(node) => nodes.push(node),
        None => Ok(()),
    }
}

/// Adds the number of the type of a name, if it is defined.
fn push_type(
    definitions: &[DirectiveDefinition],
    types: &Table<ExtendedType>,
    name: &Name,
    nodes: &mut Listed<usize>,
) -> Result<(), Memory>
    ensures { OnOk result (nodes.new ≡ nodes.old ++ spec.type_node definitions.now types.now name.now) }
{
    match types.find(name.as_str()) {
        Some(index) => {
            let node = type_number(definitions, types.as_slice(), index);
            nodes.push(node)
        }
        None => Ok(()),
    }
}

/// The number of the type at a place.
fn type_number(definitions: &[DirectiveDefinition], types: &[ExtendedType], index: usize) -> usize
    requires { index < length types.now }
    ensures { result ≡ length definitions.now + index }
{
    let count = types.len();
    if index < count {
        definitions.len() + index
    } else {
        definitions.len()
    }
}
