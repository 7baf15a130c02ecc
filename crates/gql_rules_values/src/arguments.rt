//! The rules on the arguments of a field or of a directive (GraphQL October 2021, section 5.4).

ghost use Rattle.std.specs.Prelude.{◌≡◌, ◌++◌, OnOk};
ghost use Rattle.std.specs.List.{flat_map};
ghost use Rattle.gql_rules_values.specs.Arguments as spec;

use crate::by_name::ByName;
use crate::known::Defined;
use crate::literals::{list_literal, list_untyped};
use crate::required_argument::list_required_arguments;
use crate::undefined_argument::list_undefined_argument;
use crate::unique_argument::list_unique_argument;
use gql_ast::InputValueDefinition;
use gql_ast_base::Argument;
use gql_diag_messages::DiagnosticData;
use gql_schema_types::{ExtendedType, Table};
use gql_source::SourceSpan;
use jb_text::{Listed, Memory};
use std::alloc::Global;

/// What arguments are given to: a field or a directive, by its name, and the place of the field or of the use.
#[derive(Clone, Copy)]
pub struct Call<'s> {
    pub directive: bool,
    pub name: &'s str,
    pub location: Option<SourceSpan>,
}

/// Lists what is wrong with the arguments of a field or a directive that has these definitions of arguments. `Err` only when
/// out of memory.
pub fn list_arguments(
    alloc: Global,
    counted: Defined,
    types: &Table<ExtendedType>,
    call: &Call<'_>,
    definitions: &[InputValueDefinition],
    arguments: &[Argument],
    faults: &mut Listed<DiagnosticData>,
) -> Result<(), Memory>
    ensures { OnOk result (faults.new
        ≡ faults.old ++ spec.argument_faults counted types.now call.now.directive call.now.name.now call.now.location definitions.now arguments.now) }
{
    list_unique_argument(alloc, arguments, faults)?;
    let definitions = ByName::new(alloc, definitions, arguments.len())?;
    list_each(
        alloc,
        counted,
        types,
        call.name,
        &definitions,
        arguments,
        faults,
    )?;
    list_required_arguments(alloc, call, arguments, &definitions, faults)
}

/// Lists what is wrong with arguments of which none is known. `Err` only when out of memory.
pub(crate) fn list_unknown_arguments(
    alloc: Global,
    counted: Defined,
    types: &Table<ExtendedType>,
    arguments: &[Argument],
    faults: &mut Listed<DiagnosticData>,
) -> Result<(), Memory>
    ensures { OnOk result (faults.new ≡ faults.old ++ spec.unknown_argument_faults counted types.now arguments.now) }
{
    list_unique_argument(alloc, arguments, faults)?;
    list_each_unknown(alloc, counted, types, arguments, faults)
}

/// Lists what is wrong with each argument by itself.
fn list_each(
    alloc: Global,
    counted: Defined,
    types: &Table<ExtendedType>,
    name: &str,
    definitions: &ByName<'_, InputValueDefinition>,
    arguments: &[Argument],
    faults: &mut Listed<DiagnosticData>,
) -> Result<(), Memory>
    ensures { OnOk result (faults.new ≡ faults.old ++ flat_map (spec.one_argument counted types.now name.now definitions.now) arguments.now) }
{
    for argument in arguments {
        list_argument(alloc, counted, types, name, definitions, argument, faults)?;
    }
    Ok(())
}

/// Lists what is wrong with an argument by itself.
fn list_argument(
    alloc: Global,
    counted: Defined,
    types: &Table<ExtendedType>,
    name: &str,
    definitions: &ByName<'_, InputValueDefinition>,
    argument: &Argument,
    faults: &mut Listed<DiagnosticData>,
) -> Result<(), Memory>
    ensures { OnOk result (faults.new ≡ faults.old ++ spec.one_argument counted types.now name.now definitions.now argument.now) }
{
    list_undefined_argument(alloc, name, definitions, argument, faults)?;
    match definitions.get(argument.name.as_str()) {
        Some(definition) => list_literal(
            alloc,
            counted,
            types,
            &argument.value,
            &definition.ty,
            faults,
        ),
        None => list_untyped(alloc, counted, types, &argument.value, faults),
    }
}

/// Lists what is wrong with the values of arguments of which none is known.
fn list_each_unknown(
    alloc: Global,
    counted: Defined,
    types: &Table<ExtendedType>,
    arguments: &[Argument],
    faults: &mut Listed<DiagnosticData>,
) -> Result<(), Memory>
    ensures { OnOk result (faults.new ≡ faults.old ++ flat_map (spec.unknown_argument counted types.now) arguments.now) }
{
    for argument in arguments {
        list_untyped(alloc, counted, types, &argument.value, faults)?;
    }
    Ok(())
}
