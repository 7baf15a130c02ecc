//! The rules on literals (GraphQL October 2021, section 5.6).

ghost use Rattle.std.specs.Prelude.{◌≡◌, ◌++◌, Some, None, OnOk, List};
ghost use Rattle.std.specs.List.{flat_map};
ghost use Rattle.std.specs.Option.{option_copied};
ghost use Rattle.gql_rules_values.specs.Literals as spec;
ghost use Rattle.gql_rules_values.specs.Typed as nodes;

use crate::int_coercion_error::list_int_coercion_error;
use crate::known::{Defined, is_defined};
use crate::one_of_value::list_one_of_value;
use crate::required_field::list_required_fields;
use crate::undefined_enum_value::list_undefined_enum_value;
use crate::undefined_input_value::list_undefined_input_values;
use crate::unique_input_value::list_unique_keys;
use crate::unsupported_value_type::list_unsupported_value_type;
use gql_ast_base::{Name, TypeRef, Value, ValueKind};
use gql_diag_messages::DiagnosticData;
use gql_schema_types::{ExtendedType, Table};
use jb_text::{Listed, Memory};
use std::alloc::Global;

/// Lists what is wrong with a literal at a type, and with the values inside it. `Err` only when out of memory.
#[cycle(literal)]
pub fn list_literal(
    alloc: Global,
    defined: Defined,
    types: &Table<ExtendedType>,
    literal: &Value,
    ty: &TypeRef,
    faults: &mut Listed<DiagnosticData>,
) -> Result<(), Memory>
    ensures { OnOk result (faults.new ≡ faults.old ++ spec.literal_faults defined types.now (Some ty.now) literal.now) }
{
    list_node(alloc, defined, types, ty, literal, faults)?;
    match &literal.kind {
        ValueKind::List(items) => match ty.item_type() {
            Some(item) => list_items(alloc, defined, types, items, item, faults),
            None => list_untyped_items(alloc, defined, types, items, faults),
        },
        ValueKind::Object(members) => list_members(alloc, defined, types, members, ty, faults),
        ValueKind::Null => Ok(()),
        ValueKind::Variable(_) => Ok(()),
        ValueKind::Int(_) => Ok(()),
        ValueKind::Float(_) => Ok(()),
        ValueKind::String(_) => Ok(()),
        ValueKind::Boolean(_) => Ok(()),
        ValueKind::Enum(_) => Ok(()),
    }
}

/// Lists what is wrong with a literal where no type is known, and with the values inside it. `Err` only when out of memory.
#[cycle(untyped)]
pub fn list_untyped(
    alloc: Global,
    defined: Defined,
    types: &Table<ExtendedType>,
    literal: &Value,
    faults: &mut Listed<DiagnosticData>,
) -> Result<(), Memory>
    ensures { OnOk result (faults.new ≡ faults.old ++ spec.literal_faults defined types.now None literal.now) }
{
    list_unique_keys(alloc, literal, faults)?;
    match &literal.kind {
        ValueKind::List(items) => list_untyped_items(alloc, defined, types, items, faults),
        ValueKind::Object(members) => list_untyped_members(alloc, defined, types, members, faults),
        ValueKind::Null => Ok(()),
        ValueKind::Variable(_) => Ok(()),
        ValueKind::Int(_) => Ok(()),
        ValueKind::Float(_) => Ok(()),
        ValueKind::String(_) => Ok(()),
        ValueKind::Boolean(_) => Ok(()),
        ValueKind::Enum(_) => Ok(()),
    }
}

/// Lists what is wrong with the items of a list.
#[cycle(literal)]
fn list_items(
    alloc: Global,
    defined: Defined,
    types: &Table<ExtendedType>,
    literals: &Listed<Value>,
    item: &TypeRef,
    faults: &mut Listed<DiagnosticData>,
) -> Result<(), Memory>
    ensures { OnOk result (faults.new ≡ faults.old ++ flat_map (spec.literal_faults defined types.now (Some item.now)) literals.now) }
{
    for literal in literals.as_slice() {
        list_literal(alloc, defined, types, literal, item, faults)?;
    }
    Ok(())
}

/// Lists what is wrong with the items of a list where none is wanted.
#[cycle(untyped)]
fn list_untyped_items(
    alloc: Global,
    defined: Defined,
    types: &Table<ExtendedType>,
    literals: &Listed<Value>,
    faults: &mut Listed<DiagnosticData>,
) -> Result<(), Memory>
    ensures { OnOk result (faults.new ≡ faults.old ++ flat_map (spec.literal_faults defined types.now None) literals.now) }
{
    for literal in literals.as_slice() {
        list_untyped(alloc, defined, types, literal, faults)?;
    }
    Ok(())
}

/// Lists what is wrong with the values of an object.
#[cycle(literal)]
fn list_members(
    alloc: Global,
    defined: Defined,
    types: &Table<ExtendedType>,
    members: &Listed<(Name, Value)>,
    ty: &TypeRef,
    faults: &mut Listed<DiagnosticData>,
) -> Result<(), Memory>
    ensures { OnOk result (faults.new
        ≡ faults.old ++ flat_map (λ member. spec.literal_faults defined types.now (nodes.member_type types.now member.0.text ty.now) member.1) members.now) }
{
    for member in members.as_slice() {
        match member_type(types, member.0.as_str(), ty) {
            Some(ty) => list_literal(alloc, defined, types, &member.1, ty, faults)?,
            None => list_untyped(alloc, defined, types, &member.1, faults)?,
        }
    }
    Ok(())
}

/// Lists what is wrong with the values of an object where none is wanted.
#[cycle(untyped)]
fn list_untyped_members(
    alloc: Global,
    defined: Defined,
    types: &Table<ExtendedType>,
    members: &Listed<(Name, Value)>,
    faults: &mut Listed<DiagnosticData>,
) -> Result<(), Memory>
    ensures { OnOk result (faults.new ≡ faults.old ++ flat_map (λ member. spec.literal_faults defined types.now None member.1) members.now) }
{
    for member in members.as_slice() {
        list_untyped(alloc, defined, types, &member.1, faults)?;
    }
    Ok(())
}

/// The type of a key's value, where the type is an input object's.
fn member_type<'s>(types: &'s Table<ExtendedType>, key: &str, ty: &TypeRef) -> Option<&'s TypeRef>
    ensures { option_copied result ≡ nodes.member_type types.now key.now ty.now }
{
    match types.get(ty.inner_named_type().as_str()) {
        Some(found) => field_type(key, found),
        None => None,
    }
}

/// The type of a field, where the type is an input object.
fn field_type<'s>(key: &str, ty: &'s ExtendedType) -> Option<&'s TypeRef>
    ensures { option_copied result ≡ nodes.field_type key.now ty.now }
{
    match ty {
        ExtendedType::InputObject(it) => match it.fields.get(key) {
            Some(field) => Some(&field.ty),
            None => None,
        },
        ExtendedType::Scalar(_) => None,
        ExtendedType::Object(_) => None,
        ExtendedType::Interface(_) => None,
        ExtendedType::Union(_) => None,
        ExtendedType::Enum(_) => None,
    }
}

/// Lists what is wrong with one literal at a type, apart from the values inside it.
fn list_node(
    alloc: Global,
    defined: Defined,
    types: &Table<ExtendedType>,
    ty: &TypeRef,
    literal: &Value,
    faults: &mut Listed<DiagnosticData>,
) -> Result<(), Memory>
    ensures { OnOk result (faults.new ≡ faults.old ++ spec.node_faults defined types.now (record { ty = Some ty.now; literal = literal.now })) }
{
    list_unique_keys(alloc, literal, faults)?;
    if is_defined(defined, types, ty.inner_named_type().as_str()) {
        list_at_type(alloc, types, ty, literal, faults)
    } else {
        Ok(())
    }
}

/// Lists what the type says of one literal.
fn list_at_type(
    alloc: Global,
    types: &Table<ExtendedType>,
    ty: &TypeRef,
    literal: &Value,
    faults: &mut Listed<DiagnosticData>,
) -> Result<(), Memory>
    ensures { OnOk result (faults.new ≡ faults.old ++ spec.at_type types.now literal.now ty.now) }
{
    list_unsupported_value_type(alloc, types, ty, literal, faults)?;
    list_int_coercion_error(alloc, types, ty, literal, faults)?;
    list_undefined_enum_value(alloc, types, ty, literal, faults)?;
    list_keys(alloc, types, ty, literal, faults)
}

/// Lists what is wrong with the keys of a literal at a type.
fn list_keys(
    alloc: Global,
    types: &Table<ExtendedType>,
    ty: &TypeRef,
    literal: &Value,
    faults: &mut Listed<DiagnosticData>,
) -> Result<(), Memory>
    ensures { OnOk result (faults.new ≡ faults.old ++ spec.keys types.now ty.now literal.now) }
{
    match &literal.kind {
        ValueKind::Object(members) => match types.get(ty.inner_named_type().as_str()) {
            Some(found) => list_keys_at(alloc, literal, members, found, faults),
            None => Ok(()),
        },
        ValueKind::Null => Ok(()),
        ValueKind::Variable(_) => Ok(()),
        ValueKind::Int(_) => Ok(()),
        ValueKind::Float(_) => Ok(()),
        ValueKind::String(_) => Ok(()),
        ValueKind::Boolean(_) => Ok(()),
        ValueKind::Enum(_) => Ok(()),
        ValueKind::List(_) => Ok(()),
    }
}

/// Lists what is wrong with the keys of a literal, where the type is an input object.
fn list_keys_at(
    alloc: Global,
    literal: &Value,
    members: &Listed<(Name, Value)>,
    ty: &ExtendedType,
    faults: &mut Listed<DiagnosticData>,
) -> Result<(), Memory>
    ensures { OnOk result (faults.new ≡ faults.old ++ spec.keys_at literal.now members.now ty.now) }
{
    match ty {
        ExtendedType::InputObject(it) => {
            list_undefined_input_values(alloc, it, literal, members.as_slice(), faults)?;
            list_required_fields(
                alloc,
                literal,
                members.as_slice(),
                it.fields.as_slice(),
                faults,
            )?;
            list_one_of_value(alloc, it, literal, members.as_slice(), faults)
        }
        ExtendedType::Scalar(_) => Ok(()),
        ExtendedType::Object(_) => Ok(()),
        ExtendedType::Interface(_) => Ok(()),
        ExtendedType::Union(_) => Ok(()),
        ExtendedType::Enum(_) => Ok(()),
    }
}
