//! The definitions of types that a schema is built of.

ghost use Rattle.std.specs.Prelude.{◌≡◌, ◌++◌, IfOk, OnOk};
ghost use Rattle.gql_schema_build.specs.BuiltInScalarTypeRedefinition.{built_in_scalar_type_redefinitions};
ghost use Rattle.gql_schema_build.specs.Considered as spec;

use crate::built_in_scalar_type_redefinition::without_redefinitions;
use crate::lists::append;
use crate::type_definition::{TypeDefinition, find_definition};
use gql_diag_messages::DiagnosticData;
use gql_schema_types::Named;
use jb_text::{Listed, Memory};
use std::alloc::Global;

/// The built-in definitions, and then the others, those aside that are of built-in scalars: these are faults. Where
/// built-in names are ignored, others of them are passed over.
pub(crate) fn type_definitions(
    alloc: Global,
    ignores: bool,
    mut built_in: Listed<TypeDefinition>,
    definitions: Listed<TypeDefinition>,
    faults: &mut Listed<DiagnosticData>,
) -> Result<Listed<TypeDefinition>, Memory>
    ensures made { IfOk result (λ made. made ≡ spec.type_definitions ignores built_in definitions) }
    ensures faults { OnOk result (faults.new ≡ faults.old ++ built_in_scalar_type_redefinitions built_in (spec.considered ignores built_in definitions)) }
{
    let considered = considered(alloc, ignores, &built_in, definitions)?;
    let rest = without_redefinitions(alloc, &built_in, considered, faults)?;
    append(&mut built_in, rest)?;
    Ok(built_in)
}

/// The definitions, without those of built-in names where these are ignored.
fn considered(
    alloc: Global,
    ignores: bool,
    built_in: &Listed<TypeDefinition>,
    definitions: Listed<TypeDefinition>,
) -> Result<Listed<TypeDefinition>, Memory>
    ensures { IfOk result (λ made. made ≡ spec.considered ignores built_in.now definitions) }
{
    if ignores {
        new_names(alloc, built_in, definitions)
    } else {
        Ok(definitions)
    }
}

/// The definitions of names that no built-in type has.
fn new_names(
    alloc: Global,
    built_in: &Listed<TypeDefinition>,
    definitions: Listed<TypeDefinition>,
) -> Result<Listed<TypeDefinition>, Memory>
    ensures { IfOk result (λ made. made ≡ spec.new_names built_in.now definitions) }
{
    let mut made = Listed::new(alloc);
    for definition in definitions {
        add_if_new(built_in, definition, &mut made)?;
    }
    Ok(made)
}

/// Adds a definition, unless its name is that of a built-in type.
fn add_if_new(
    built_in: &Listed<TypeDefinition>,
    definition: TypeDefinition,
    made: &mut Listed<TypeDefinition>,
) -> Result<(), Memory>
    ensures { OnOk result (made.new ≡ made.old ++ spec.new_name built_in.now definition) }
{
    match find_definition(built_in.as_slice(), definition.own_name().as_str()) {
        Some(_) => Ok(()),
        None => made.push(definition),
    }
}
