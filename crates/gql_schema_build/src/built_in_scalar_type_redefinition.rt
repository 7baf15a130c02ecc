//! Built-in scalars are not defined again (GraphQL October 2021, section 3.5).

ghost use Rattle.std.specs.Prelude.{◌≡◌, ◌++◌, IfOk, OnOk};
ghost use Rattle.gql_schema_build.specs.BuiltInScalarTypeRedefinition as spec;

use crate::fault::list_nameless;
use crate::type_definition::{TypeDefinition, find_definition};
use gql_diag_messages::{DiagnosticData, Rule};
use jb_text::{Listed, Memory};
use std::alloc::Global;

/// The definitions that are none of a built-in scalar, and a fault for each other.
pub(crate) fn without_redefinitions(
    alloc: Global,
    built_in: &Listed<TypeDefinition>,
    definitions: Listed<TypeDefinition>,
    faults: &mut Listed<DiagnosticData>,
) -> Result<Listed<TypeDefinition>, Memory>
    ensures rest { IfOk result (λ rest. rest ≡ spec.without_redefinitions built_in.now definitions) }
    ensures faults { OnOk result (faults.new ≡ faults.old ++ spec.built_in_scalar_type_redefinitions built_in.now definitions) }
{
    let mut rest = Listed::new(alloc);
    for definition in definitions {
        sort_out(alloc, built_in, definition, &mut rest, faults)?;
    }
    Ok(rest)
}

/// Puts a definition last among the rest, or lists it if it is one of a built-in scalar.
fn sort_out(
    alloc: Global,
    built_in: &Listed<TypeDefinition>,
    definition: TypeDefinition,
    rest: &mut Listed<TypeDefinition>,
    faults: &mut Listed<DiagnosticData>,
) -> Result<(), Memory>
    ensures rest { OnOk result (rest.new ≡ rest.old ++ spec.other built_in.now definition) }
    ensures faults { OnOk result (faults.new ≡ faults.old ++ spec.redefinition_of built_in.now definition) }
{
    if redefines(built_in, &definition) {
        list_nameless(
            alloc,
            Rule::BuiltInScalarTypeRedefinition,
            definition.location(),
            None,
            faults,
        )
    } else {
        rest.push(definition)
    }
}

/// Whether it is a definition of a scalar that is built in.
fn redefines(built_in: &Listed<TypeDefinition>, definition: &TypeDefinition) -> bool
    ensures { result ≡ spec.redefines built_in.now definition.now }
{
    match definition {
        TypeDefinition::Scalar(scalar) => {
            match find_definition(built_in.as_slice(), scalar.name.as_str()) {
                Some(found) => is_scalar(found),
                None => false,
            }
        }
        _ => false,
    }
}

/// Whether it is a definition of a scalar.
fn is_scalar(definition: &TypeDefinition) -> bool
    ensures { result ≡ spec.is_scalar definition.now }
{
    match definition {
        TypeDefinition::Scalar(_) => true,
        _ => false,
    }
}
