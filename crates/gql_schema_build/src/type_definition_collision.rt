//! Types have distinct names, the built-in types included (GraphQL October 2021, section 3.3).

ghost use Rattle.std.specs.Prelude.{◌≡◌, ◌++◌, IfOk, OnOk, map};
ghost use Rattle.gql_schema_build.specs.Merged as merged;
ghost use Rattle.gql_schema_build.specs.bridge.Merged as merged_bridge;
ghost use Rattle.gql_schema_build.specs.TypeDefinitionCollision as spec;
ghost use Rattle.gql_schema_build.specs.bridge.TypeDefinitionCollision as spec_bridge;

use crate::fault::list_name;
use crate::type_definition::TypeDefinition;
use gql_diag_messages::{DiagnosticData, Rule};
use gql_schema_types::Named;
use jb_map::Pairs;
use jb_text::{Listed, Memory};
use std::alloc::Global;

/// The definitions under their names, of each name the first, and a fault for each other.
pub(crate) fn first_types(
    alloc: Global,
    definitions: Listed<TypeDefinition>,
    faults: &mut Listed<DiagnosticData>,
) -> Result<Pairs<TypeDefinition>, Memory>
    ensures types { IfOk result (λ types. types ≡ map merged.named (merged.firsts definitions)) }
    ensures faults { OnOk result (faults.new ≡ faults.old ++ spec.type_definition_collisions definitions) }
{
    let mut types = Pairs::with_capacity(alloc, definitions.len())?;
    for definition in definitions {
        add_first(alloc, &mut types, definition, faults)?;
    }
    Ok(types)
}

/// Adds a definition last, unless there is one of its name: then it is a fault.
fn add_first(
    alloc: Global,
    types: &mut Pairs<TypeDefinition>,
    definition: TypeDefinition,
    faults: &mut Listed<DiagnosticData>,
) -> Result<(), Memory>
    ensures types { OnOk result (types.new ≡ merged_bridge.with_type types.old definition) }
    ensures faults { OnOk result (faults.new ≡ faults.old ++ spec_bridge.second_of types.old definition) }
{
    match types.get(definition.own_name().as_str()) {
        Some(first) => {
            let told = list_name(
                alloc,
                Rule::TypeDefinitionCollision,
                definition.own_name(),
                first.own_name().location(),
                faults,
            );
            // By name: left to the compiler, the drop of a large enum is written out in this function.
            drop(definition);
            told
        }
        None => match definition.own_name().text().copy(alloc) {
            Ok(name) => types.insert_new(name, definition),
            Err(memory) => {
                drop(definition);
                Err(memory)
            }
        },
    }
}
