//! An argument that has to be given is given (GraphQL October 2021, section 5.4.2.1).

ghost use Rattle.std.specs.Prelude.{◌≡◌, ◌<◌, ◌++◌, ◌∷◌, [], Some, None, not, length, slice_get, take, IfOk, OnOk};
ghost use Rattle.std.specs.List.{list_any};
ghost use Rattle.gql_ast.specs.TypeText.{type_text};
ghost use Rattle.gql_diag_messages.specs.declared.rule.Rule.TheVariants.{RequiredArgument};
ghost use Rattle.gql_rules_values.specs.Faults as told;
ghost use Rattle.gql_rules_values.specs.RequiredArgument as spec;

use crate::arguments::Call;
use crate::by_name::ByName;
use crate::fault::list_fault;
use crate::type_shape::is_required;
use gql_ast::{InputValueDefinition, print_type};
use gql_ast_base::{Argument, both};
use gql_diag_messages::{DiagnosticData, Rule};
use jb_text::{Listed, Memory, Text};
use std::alloc::Global;

/// Lists each argument that has to be given and is not.
pub(crate) fn list_required_arguments(
    alloc: Global,
    call: &Call<'_>,
    arguments: &[Argument],
    definitions: &ByName<'_, InputValueDefinition>,
    faults: &mut Listed<DiagnosticData>,
) -> Result<(), Memory>
    ensures { OnOk result (faults.new ≡ faults.old ++ spec.required_arguments call.now.directive call.now.name.now call.now.location arguments.now definitions.now) }
{
    let all = definitions.as_slice();
    let given = ByName::new(alloc, arguments, all.len())?;
    for at in 0..all.len() {
        list_required_argument(alloc, call, &given, definitions, at, &all[at], faults)?;
    }
    Ok(())
}

/// Lists the argument that is defined at `at`, if it has to be given and is not. Of several definitions of a name the first
/// counts.
fn list_required_argument(
    alloc: Global,
    call: &Call<'_>,
    given: &ByName<'_, Argument>,
    definitions: &ByName<'_, InputValueDefinition>,
    at: usize,
    definition: &InputValueDefinition,
    faults: &mut Listed<DiagnosticData>,
) -> Result<(), Memory>
    requires within { at < length definitions.now }
    requires there { slice_get definitions.now at ≡ Some definition.now }
    ensures { OnOk result (faults.new
        ≡ faults.old ++ spec.required_argument call.now.directive call.now.name.now call.now.location given.now (take at definitions.now) definition.now) }
{
    if is_required(definition)
        && !given.contains(definition.name.as_str())
        && is_first(definitions, at, definition)
    {
        list_lacking(alloc, call, definition, faults)
    } else {
        Ok(())
    }
}

/// Whether the definition, which is the one at `at`, is the first of its name.
fn is_first(
    definitions: &ByName<'_, InputValueDefinition>,
    at: usize,
    definition: &InputValueDefinition,
) -> bool
    requires within { at < length definitions.now }
    requires there { slice_get definitions.now at ≡ Some definition.now }
    ensures { result ≡ not (list_any (spec.is_called definition.now.name.text) (take at definitions.now)) }
{
    definitions.is_first(at)
}

/// Lists an argument that is not given.
fn list_lacking(
    alloc: Global,
    call: &Call<'_>,
    definition: &InputValueDefinition,
    faults: &mut Listed<DiagnosticData>,
) -> Result<(), Memory>
    ensures { OnOk result (faults.new ≡ faults.old
        ++ told.fault RequiredArgument (spec.told_name call.now.directive call.now.name.now ∷ definition.now.name.text ∷ type_text definition.now.ty ∷ []) call.now.location None ∷ []) }
{
    let (name, ty) = both(
        told_name(alloc, call.directive, call.name),
        print_type(alloc, &definition.ty),
    )?;
    list_fault(
        alloc,
        Rule::RequiredArgument,
        &[name.as_str(), definition.name.as_str(), ty.as_str()],
        call.location,
        None,
        faults,
    )
}

/// The name, with `@` before it if it is a directive's.
fn told_name(alloc: Global, directive: bool, name: &str) -> Result<Text, Memory>
    ensures { IfOk result (λ told. told ≡ spec.told_name directive name.now) }
{
    if !directive {
        return Text::from_str(alloc, name);
    }
    let mut told = String::from_str(alloc, "@")?;
    told.push_str(name)?;
    Ok(Text::from_string(told))
}
