//! The built-in scalars as validation leaves them (GraphQL October 2021, section 3.5).

ghost use Rattle.std.specs.Prelude.{◌≡◌, ◌++◌, ◌∷◌, [], true, None, map, IfOk, OnOk, OnErr};
ghost use Rattle.std.specs.List.{list_any, list_all};
ghost use Rattle.gql_ast_base.specs.Names.{is_name};
ghost use Rattle.gql_schema_types.specs.Types.{type_called};
ghost use Rattle.gql_schema_rules.specs.Scalars as spec;

use gql_ast::{DirectiveDefinition, FieldDefinition, InputValueDefinition};
use gql_ast_base::Name;
use gql_rules_values::is_written;
use gql_schema_types::{ExtendedType, ScalarType, Shared, Table};
use jb_text::{Listed, Memory, Refused};
use std::alloc::{AllocError, Global};

/// The names of the built-in scalars.
const BUILT_IN_SCALARS: [&str; 5] = ["Int", "Float", "String", "Boolean", "ID"];

/// Adds each built-in scalar last that is named and missing, and drops each of `Int`, `Float` and `ID` that is not named.
/// Where memory has run out, the types are as they were.
pub(crate) fn settle_scalars(
    alloc: Global,
    definitions: &Table<DirectiveDefinition>,
    types: &mut Table<ExtendedType>,
) -> Result<(), Memory>
    ensures settled { OnOk result (types.new ≡ spec.validated_types definitions.now types.old) }
    ensures unchanged { OnErr result (types.new ≡ types.old) }
{
    add_missing(alloc, definitions, types, &BUILT_IN_SCALARS)?;
    drop_unused(definitions, types, "Int");
    drop_unused(definitions, types, "Float");
    drop_unused(definitions, types, "ID");
    Ok(())
}

/// Drops the scalar of the name, if it is not named.
fn drop_unused(
    definitions: &Table<DirectiveDefinition>,
    types: &mut Table<ExtendedType>,
    name: &str,
)
    ensures { types.new ≡ spec.unless_unused definitions.now name.now types.old }
{
    if !is_named(definitions, types, name) {
        types.remove(name);
    }
}

/// Adds each of these scalars last that is named and missing. Where memory has run out, the types are as they were.
#[cycle(add)]
fn add_missing(
    alloc: Global,
    definitions: &Table<DirectiveDefinition>,
    types: &mut Table<ExtendedType>,
    names: &[&str],
) -> Result<(), Memory>
    requires { list_all is_name (map (λ name. name.now) names.now) ≡ true }
    ensures added { OnOk result (types.new ≡ spec.with_missing definitions.now types.old (map (λ name. name.now) names.now)) }
    ensures unchanged { OnErr result (types.new ≡ types.old) }
{
    match names {
        [] => Ok(()),
        [name, rest @ ..] => {
            if is_missing(definitions, types, name) {
                add_first(alloc, definitions, types, name, rest)
            } else {
                add_missing(alloc, definitions, types, rest)
            }
        }
    }
}

/// Adds the scalar of a name, which is missing, and then those of the others that are named and missing.
#[cycle(add)]
fn add_first(
    alloc: Global,
    definitions: &Table<DirectiveDefinition>,
    types: &mut Table<ExtendedType>,
    name: &str,
    rest: &[&str],
) -> Result<(), Memory>
    requires name { is_name name.now ≡ true }
    requires rest { list_all is_name (map (λ name. name.now) rest.now) ≡ true }
    requires missing { type_called name.now types.old ≡ None }
    ensures added { OnOk result (types.new ≡ spec.with_missing definitions.now (types.old ++ spec.new_scalar name.now ∷ []) (map (λ name. name.now) rest.now)) }
    ensures unchanged { OnErr result (types.new ≡ types.old) }
{
    add_scalar(alloc, types, name)?;
    match add_missing(alloc, definitions, types, rest) {
        Ok(()) => Ok(()),
        Err(want) => {
            types.remove(name);
            Err(want)
        }
    }
}

/// Adds the scalar of a name, which is missing. Where memory has run out, the types are as they were.
fn add_scalar(alloc: Global, types: &mut Table<ExtendedType>, name: &str) -> Result<(), Memory>
    requires name { is_name name.now ≡ true }
    requires missing { type_called name.now types.old ≡ None }
    ensures added { OnOk result (types.new ≡ types.old ++ spec.new_scalar name.now ∷ []) }
    ensures unchanged { OnErr result (types.new ≡ types.old) }
{
    let scalar = new_scalar(alloc, name)?;
    match types.insert_new(scalar) {
        Ok(()) => Ok(()),
        Err(_) => Err(AllocError),
    }
}

/// The scalar of a name, from no place.
fn new_scalar(alloc: Global, name: &str) -> Result<ExtendedType, Memory>
    requires { is_name name.now ≡ true }
    ensures { IfOk result (λ made. made ≡ spec.new_scalar name.now) }
{
    match Name::new(alloc, name) {
        Ok(name) => Ok(ExtendedType::Scalar(ScalarType {
            description: None,
            name,
            directives: Listed::new(alloc),
            location: None,
        })),
        Err(Refused::Memory) => Err(AllocError),
        Err(Refused::Fault(_)) => unreachable!(),
    }
}

/// Whether a scalar is named, and there is no type of its name.
fn is_missing(
    definitions: &Table<DirectiveDefinition>,
    types: &Table<ExtendedType>,
    name: &str,
) -> bool
    ensures { result ≡ spec.is_missing definitions.now types.now name.now }
{
    types.get(name).is_none() && is_named(definitions, types, name)
}

/// Whether something that is not built in names the type.
fn is_named(
    definitions: &Table<DirectiveDefinition>,
    types: &Table<ExtendedType>,
    name: &str,
) -> bool
    ensures { result ≡ spec.is_named definitions.now types.now name.now }
{
    any_directive_names(definitions.as_slice(), name) || any_type_names(types.as_slice(), name)
}

fn any_directive_names(definitions: &[DirectiveDefinition], name: &str) -> bool
    ensures { result ≡ list_any (spec.directive_names name.now) definitions.now }
{
    definitions
        .iter()
        .any(|definition| directive_names(definition, name))
}

fn any_type_names(types: &[ExtendedType], name: &str) -> bool
    ensures { result ≡ list_any (spec.type_names name.now) types.now }
{
    types.iter().any(|ty| type_names(ty, name))
}

fn directive_names(definition: &DirectiveDefinition, name: &str) -> bool
    ensures { result ≡ spec.directive_names name.now definition.now }
{
    is_written(definition.location) && any_names(definition.arguments.as_slice(), name)
}

fn type_names(ty: &ExtendedType, name: &str) -> bool
    ensures { result ≡ spec.type_names name.now ty.now }
{
    match ty {
        ExtendedType::Object(it) => any_field_names(it.fields.as_slice(), name),
        ExtendedType::Interface(it) => any_field_names(it.fields.as_slice(), name),
        ExtendedType::InputObject(it) => any_input_names(it.fields.as_slice(), name),
        ExtendedType::Scalar(_) => false,
        ExtendedType::Union(_) => false,
        ExtendedType::Enum(_) => false,
    }
}

fn any_field_names(fields: &[Shared<FieldDefinition>], name: &str) -> bool
    ensures { result ≡ list_any (spec.field_names name.now) fields.now }
{
    fields.iter().any(|field| field_names(field, name))
}

fn field_names(field: &FieldDefinition, name: &str) -> bool
    ensures { result ≡ spec.field_names name.now field.now }
{
    is_written(field.location)
        && (name == field.ty.inner_named_type().as_str()
            || any_names(field.arguments.as_slice(), name))
}

fn any_input_names(values: &[InputValueDefinition], name: &str) -> bool
    ensures { result ≡ list_any (spec.input_names name.now) values.now }
{
    values.iter().any(|value| input_names(value, name))
}

fn input_names(value: &InputValueDefinition, name: &str) -> bool
    ensures { result ≡ spec.input_names name.now value.now }
{
    is_written(value.location) && names(value, name)
}

fn any_names(values: &[InputValueDefinition], name: &str) -> bool
    ensures { result ≡ list_any (spec.names name.now) values.now }
{
    values.iter().any(|value| names(value, name))
}

fn names(value: &InputValueDefinition, name: &str) -> bool
    ensures { result ≡ spec.names name.now value.now }
{
    name == value.ty.inner_named_type().as_str()
}
