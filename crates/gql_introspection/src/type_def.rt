//! A type with a name, as `__Type`.

ghost use Rattle.std.specs.Prelude.{◌≡◌, ◌++◌, [], ◌∷◌, OnOk, if◌then◌else◌};
ghost use Rattle.std.specs.Option.{option_copied};
ghost use Rattle.gql_resolvers.specs.Meaning.{meaning_by};
ghost use Rattle.gql_resolvers.specs.Resolved.{gives_object};
ghost use Rattle.gql_introspection.specs.bridge.Items.{answers_in};
ghost use Rattle.gql_introspection.specs.Meta as meta;
ghost use Rattle.gql_introspection.specs.Seen.{stands_for};
ghost use Rattle.gql_introspection.specs.bridge.Seen.{Gives, GivesField};
ghost use Rattle.gql_introspection.specs.TypeDef as spec;

use crate::asked::Asked;
use crate::deprecation::specified_by;
use crate::items::Items;
use crate::leaves::{
    constant_leaf, description_or_null, name_leaf, null_leaf, text_or_null, truth_leaf,
};
use crate::meta_object::MetaObject;
use crate::named_types::named_types;
use crate::shown::kept;
use gql_resolvers::ResolvedValue;
use gql_schema_types::{ExtendedType, Named, Schema, Valid, is_among};
use jb_text::{Memory, Text};
use std::alloc::Global;

/// A field of a type with a name (GraphQL October 2021, section 4.2.2; `isOneOf`: September 2025).
pub(crate) fn type_def_field<'a>(
    asked: &Asked<'_>,
    schema: &'a Valid<Schema>,
    ty: &'a ExtendedType,
) -> Result<Option<ResolvedValue<MetaObject<'a>>>, Memory>
    ensures { GivesField result (spec.type_row schema.now ty.now asked.now.field.now asked.now.arguments.now) }
{
    let alloc = asked.alloc;
    match asked.field {
        "kind" => constant_leaf(alloc, kind(ty)).map(Some),
        "name" => name_leaf(alloc, ty.own_name()).map(Some),
        "description" => description_or_null(alloc, description(ty)).map(Some),
        "fields" => fields(asked, schema, ty).map(Some),
        "interfaces" => interfaces(alloc, schema, ty).map(Some),
        "possibleTypes" => possible_types(alloc, schema, ty).map(Some),
        "enumValues" => enum_values(asked, schema, ty).map(Some),
        "inputFields" => input_fields(asked, schema, ty).map(Some),
        "ofType" => Ok(Some(null_leaf())),
        "specifiedByURL" => text_or_null(alloc, url(ty)).map(Some),
        "isOneOf" => Ok(Some(is_one_of(ty))),
        _ => Ok(None),
    }
}

/// The value of `__TypeKind`.
fn kind(ty: &ExtendedType) -> &'static str
    ensures { result.now ≡ spec.type_kind ty.now }
{
    match ty {
        ExtendedType::Scalar(_) => "SCALAR",
        ExtendedType::Object(_) => "OBJECT",
        ExtendedType::Interface(_) => "INTERFACE",
        ExtendedType::Union(_) => "UNION",
        ExtendedType::Enum(_) => "ENUM",
        ExtendedType::InputObject(_) => "INPUT_OBJECT",
    }
}

/// What is said of the type.
fn description(ty: &ExtendedType) -> Option<&Text>
    ensures { option_copied result ≡ spec.type_description ty.now }
{
    match ty {
        ExtendedType::Scalar(it) => it.description.as_ref(),
        ExtendedType::Object(it) => it.description.as_ref(),
        ExtendedType::Interface(it) => it.description.as_ref(),
        ExtendedType::Union(it) => it.description.as_ref(),
        ExtendedType::Enum(it) => it.description.as_ref(),
        ExtendedType::InputObject(it) => it.description.as_ref(),
    }
}

/// The fields of an object type or an interface, or null for another kind.
fn fields<'a>(
    asked: &Asked<'_>,
    schema: &'a Valid<Schema>,
    ty: &'a ExtendedType,
) -> Result<ResolvedValue<MetaObject<'a>>, Memory>
    ensures { Gives result (spec.type_fields schema.now asked.now.arguments.now ty.now) }
{
    match ty {
        ExtendedType::Object(it) => kept(asked, schema, it.fields.as_slice()),
        ExtendedType::Interface(it) => kept(asked, schema, it.fields.as_slice()),
        _ => Ok(null_leaf()),
    }
}

/// The interfaces of an object type or an interface, or null for another kind.
fn interfaces<'a>(
    alloc: Global,
    schema: &'a Valid<Schema>,
    ty: &'a ExtendedType,
) -> Result<ResolvedValue<MetaObject<'a>>, Memory>
    ensures { Gives result (spec.type_interfaces schema.now ty.now) }
{
    match ty {
        ExtendedType::Object(it) => {
            named_types(alloc, schema, it.implements_interfaces.as_slice())
        }
        ExtendedType::Interface(it) => {
            named_types(alloc, schema, it.implements_interfaces.as_slice())
        }
        _ => Ok(null_leaf()),
    }
}

/// The object types that are possible for an interface or a union, or null for another kind.
fn possible_types<'a>(
    alloc: Global,
    schema: &'a Valid<Schema>,
    ty: &'a ExtendedType,
) -> Result<ResolvedValue<MetaObject<'a>>, Memory>
    ensures { Gives result (spec.possible_types schema.now ty.now) }
{
    match ty {
        ExtendedType::Interface(it) => implementing(alloc, schema, it.name.as_str()),
        ExtendedType::Union(it) => named_types(alloc, schema, it.members.as_slice()),
        _ => Ok(null_leaf()),
    }
}

/// The object types that implement the interface of the name, in the order of the schema: one pass over its types.
fn implementing<'a>(
    alloc: Global,
    schema: &'a Valid<Schema>,
    interface: &str,
) -> Result<ResolvedValue<MetaObject<'a>>, Memory>
    ensures { Gives result (spec.implementing schema.now interface.now) }
{
    let mut items = Items::new(alloc);
    for ty in schema.as_ref().types.as_slice() {
        add_implementing(schema, interface, ty, &mut items)?;
    }
    Ok(items.into_list())
}

/// Adds a type, if it is an object type that implements the interface of the name.
fn add_implementing<'a>(
    schema: &'a Valid<Schema>,
    interface: &str,
    ty: &'a ExtendedType,
    items: &mut Items<'a>,
) -> Result<(), Memory>
    ensures { OnOk result (answers_in items.new ≡ answers_in items.old
        ++ (if spec.is_implementing interface.now ty.now then gives_object (meta.type_def schema.now ty.now) ∷ [] else [])) }
{
    if is_implementing(interface, ty) {
        items.push(ResolvedValue::Object(MetaObject::TypeDef { schema, of: ty }))
    } else {
        Ok(())
    }
}

/// Whether this is an object type that says that it implements the interface of the name.
fn is_implementing(interface: &str, ty: &ExtendedType) -> bool
    ensures { result ≡ spec.is_implementing interface.now ty.now }
{
    match ty {
        ExtendedType::Object(it) => is_among(interface, it.implements_interfaces.as_slice()),
        _ => false,
    }
}

/// The values of an enum, or null for another kind.
fn enum_values<'a>(
    asked: &Asked<'_>,
    schema: &'a Valid<Schema>,
    ty: &'a ExtendedType,
) -> Result<ResolvedValue<MetaObject<'a>>, Memory>
    ensures { Gives result (spec.enum_values schema.now asked.now.arguments.now ty.now) }
{
    match ty {
        ExtendedType::Enum(it) => kept(asked, schema, it.values.as_slice()),
        _ => Ok(null_leaf()),
    }
}

/// The fields of an input object, or null for another kind.
fn input_fields<'a>(
    asked: &Asked<'_>,
    schema: &'a Valid<Schema>,
    ty: &'a ExtendedType,
) -> Result<ResolvedValue<MetaObject<'a>>, Memory>
    ensures { Gives result (spec.input_fields schema.now asked.now.arguments.now ty.now) }
{
    match ty {
        ExtendedType::InputObject(it) => kept(asked, schema, it.fields.as_slice()),
        _ => Ok(null_leaf()),
    }
}

/// The address of what specifies a scalar type.
fn url(ty: &ExtendedType) -> Option<&str>
    ensures { option_copied result ≡ spec.scalar_url ty.now }
{
    match ty {
        ExtendedType::Scalar(it) => specified_by(it.directives.as_slice()),
        _ => None,
    }
}

/// Whether an input object is one-of, or null for another kind.
fn is_one_of<'a>(ty: &ExtendedType) -> ResolvedValue<MetaObject<'a>>
    ensures { meaning_by stands_for result ≡ spec.one_of ty.now }
{
    match ty {
        ExtendedType::InputObject(it) => truth_leaf(it.is_one_of()),
        _ => null_leaf(),
    }
}
