//! What is wrong with types by themselves (GraphQL October 2021, sections 3.5 to 3.10). What is built in is passed over, and
//! what an extension adds to it is not.

ghost use Rattle.std.specs.Prelude.{◌≡◌, ◌++◌, OnOk};
ghost use Rattle.gql_schema_rules_parts.specs.EmptyFieldSet.{empty_field_set};
ghost use Rattle.gql_schema_rules_parts.specs.EmptyInputValueSet.{empty_input_value_set};
ghost use Rattle.gql_schema_rules_parts.specs.EmptyMemberSet.{empty_member_set};
ghost use Rattle.gql_schema_rules_parts.specs.EmptyValueSet.{empty_value_set};
ghost use Rattle.gql_schema_rules_parts.specs.TypeRules as spec;

use crate::empty_field_set::list_empty_field_set;
use crate::empty_input_value_set::list_empty_input_value_set;
use crate::empty_member_set::list_empty_member_set;
use crate::empty_value_set::list_empty_value_set;
use crate::fields::{list_fields, list_values};
use crate::input_values::list_input_fields;
use crate::one_of_field::list_one_of_fields;
use crate::reserved_name::list_reserved_name;
use crate::undefined_definition::list_undefined_definition;
use crate::union_member_object_type::list_union_member_object_type;
use gql_ast::{DirectiveLocation, EnumValueDefinition, FieldDefinition, InputValueDefinition};
use gql_ast_base::Name;
use gql_diag_messages::DiagnosticData;
use gql_rules_values::{Defined, is_written, list_directives};
use gql_schema_types::{
    EnumType, ExtendedType, InputObjectType, InterfaceType, ObjectType, ScalarType, Schema, Shared,
    UnionType,
};
use gql_source::SourceSpan;
use jb_text::{Listed, Memory};
use std::alloc::Global;

/// Lists what is wrong with the types, each by itself. `Err` only when out of memory.
pub fn list_types(
    alloc: Global,
    schema: &Schema,
    faults: &mut Listed<DiagnosticData>,
) -> Result<(), Memory>
    ensures { OnOk result (faults.new ≡ faults.old ++ spec.types_faults schema.now) }
{
    for ty in schema.types.as_slice() {
        list_type(alloc, schema, ty, faults)?;
    }
    Ok(())
}

/// Lists what is wrong with a type.
fn list_type(
    alloc: Global,
    schema: &Schema,
    ty: &ExtendedType,
    faults: &mut Listed<DiagnosticData>,
) -> Result<(), Memory>
    ensures { OnOk result (faults.new ≡ faults.old ++ spec.type_faults schema.now ty.now) }
{
    match ty {
        ExtendedType::Scalar(it) => list_scalar(alloc, schema, it, faults),
        ExtendedType::Object(it) => list_object(alloc, schema, it, faults),
        ExtendedType::Interface(it) => list_interface(alloc, schema, it, faults),
        ExtendedType::Union(it) => list_union(alloc, schema, it, faults),
        ExtendedType::Enum(it) => list_enum(alloc, schema, it, faults),
        ExtendedType::InputObject(it) => list_input_object(alloc, schema, it, faults),
    }
}

fn list_scalar(
    alloc: Global,
    schema: &Schema,
    it: &ScalarType,
    faults: &mut Listed<DiagnosticData>,
) -> Result<(), Memory>
    ensures { OnOk result (faults.new ≡ faults.old ++ spec.scalar_faults schema.now it.now) }
{
    list_type_name(alloc, it.location, &it.name, faults)?;
    list_directives(
        alloc,
        Defined::TypesAndScalars,
        schema,
        DirectiveLocation::Scalar,
        it.directives.as_slice(),
        faults,
    )
}

fn list_object(
    alloc: Global,
    schema: &Schema,
    it: &ObjectType,
    faults: &mut Listed<DiagnosticData>,
) -> Result<(), Memory>
    ensures { OnOk result (faults.new ≡ faults.old ++ spec.object_faults schema.now it.now) }
{
    list_type_name(alloc, it.location, &it.name, faults)?;
    list_no_fields(alloc, it.location, &it.name, it.fields.as_slice(), faults)?;
    list_directives(
        alloc,
        Defined::TypesAndScalars,
        schema,
        DirectiveLocation::Object,
        it.directives.as_slice(),
        faults,
    )?;
    list_listed_names(alloc, schema, it.implements_interfaces.as_slice(), faults)?;
    list_fields(alloc, schema, it.fields.as_slice(), faults)
}

fn list_interface(
    alloc: Global,
    schema: &Schema,
    it: &InterfaceType,
    faults: &mut Listed<DiagnosticData>,
) -> Result<(), Memory>
    ensures { OnOk result (faults.new ≡ faults.old ++ spec.interface_faults schema.now it.now) }
{
    list_type_name(alloc, it.location, &it.name, faults)?;
    list_no_fields(alloc, it.location, &it.name, it.fields.as_slice(), faults)?;
    list_directives(
        alloc,
        Defined::TypesAndScalars,
        schema,
        DirectiveLocation::Interface,
        it.directives.as_slice(),
        faults,
    )?;
    list_listed_names(alloc, schema, it.implements_interfaces.as_slice(), faults)?;
    list_fields(alloc, schema, it.fields.as_slice(), faults)
}

fn list_union(
    alloc: Global,
    schema: &Schema,
    it: &UnionType,
    faults: &mut Listed<DiagnosticData>,
) -> Result<(), Memory>
    ensures { OnOk result (faults.new ≡ faults.old ++ spec.union_faults schema.now it.now) }
{
    list_type_name(alloc, it.location, &it.name, faults)?;
    list_no_members(alloc, it.location, &it.name, it.members.as_slice(), faults)?;
    list_directives(
        alloc,
        Defined::TypesAndScalars,
        schema,
        DirectiveLocation::Union,
        it.directives.as_slice(),
        faults,
    )?;
    list_members(alloc, schema, it.members.as_slice(), faults)
}

fn list_enum(
    alloc: Global,
    schema: &Schema,
    it: &EnumType,
    faults: &mut Listed<DiagnosticData>,
) -> Result<(), Memory>
    ensures { OnOk result (faults.new ≡ faults.old ++ spec.enum_faults schema.now it.now) }
{
    list_type_name(alloc, it.location, &it.name, faults)?;
    list_no_values(alloc, it.location, &it.name, it.values.as_slice(), faults)?;
    list_directives(
        alloc,
        Defined::TypesAndScalars,
        schema,
        DirectiveLocation::Enum,
        it.directives.as_slice(),
        faults,
    )?;
    list_values(alloc, schema, it.values.as_slice(), faults)
}

fn list_input_object(
    alloc: Global,
    schema: &Schema,
    it: &InputObjectType,
    faults: &mut Listed<DiagnosticData>,
) -> Result<(), Memory>
    ensures { OnOk result (faults.new ≡ faults.old ++ spec.input_object_faults schema.now it.now) }
{
    list_type_name(alloc, it.location, &it.name, faults)?;
    list_no_input_fields(alloc, it.location, &it.name, it.fields.as_slice(), faults)?;
    list_directives(
        alloc,
        Defined::TypesAndScalars,
        schema,
        DirectiveLocation::InputObject,
        it.directives.as_slice(),
        faults,
    )?;
    list_input_fields(alloc, schema, it.fields.as_slice(), faults)?;
    list_one_of_fields(alloc, it, faults)
}

/// Lists that an object type or an interface has no fields, if it is not built in.
fn list_no_fields(
    alloc: Global,
    place: Option<SourceSpan>,
    name: &Name,
    fields: &[Shared<FieldDefinition>],
    faults: &mut Listed<DiagnosticData>,
) -> Result<(), Memory>
    ensures { OnOk result (faults.new ≡ faults.old ++ spec.if_written place (empty_field_set name.now fields.now)) }
{
    if is_written(place) {
        list_empty_field_set(alloc, name, fields, faults)
    } else {
        Ok(())
    }
}

/// Lists that a union has no members, if it is not built in.
fn list_no_members(
    alloc: Global,
    place: Option<SourceSpan>,
    name: &Name,
    members: &[Name],
    faults: &mut Listed<DiagnosticData>,
) -> Result<(), Memory>
    ensures { OnOk result (faults.new ≡ faults.old ++ spec.if_written place (empty_member_set name.now members.now)) }
{
    if is_written(place) {
        list_empty_member_set(alloc, name, members, faults)
    } else {
        Ok(())
    }
}

/// Lists that an enum has no values, if it is not built in.
fn list_no_values(
    alloc: Global,
    place: Option<SourceSpan>,
    name: &Name,
    values: &[EnumValueDefinition],
    faults: &mut Listed<DiagnosticData>,
) -> Result<(), Memory>
    ensures { OnOk result (faults.new ≡ faults.old ++ spec.if_written place (empty_value_set name.now values.now)) }
{
    if is_written(place) {
        list_empty_value_set(alloc, name, values, faults)
    } else {
        Ok(())
    }
}

/// Lists that an input object type has no fields, if it is not built in.
fn list_no_input_fields(
    alloc: Global,
    place: Option<SourceSpan>,
    name: &Name,
    fields: &[InputValueDefinition],
    faults: &mut Listed<DiagnosticData>,
) -> Result<(), Memory>
    ensures { OnOk result (faults.new ≡ faults.old ++ spec.if_written place (empty_input_value_set name.now fields.now)) }
{
    if is_written(place) {
        list_empty_input_value_set(alloc, name, fields, faults)
    } else {
        Ok(())
    }
}

/// Lists what is wrong with the name of a type that is not built in.
fn list_type_name(
    alloc: Global,
    place: Option<SourceSpan>,
    name: &Name,
    faults: &mut Listed<DiagnosticData>,
) -> Result<(), Memory>
    ensures { OnOk result (faults.new ≡ faults.old ++ spec.name_faults place name.now) }
{
    if is_written(place) {
        list_reserved_name(alloc, name, faults)
    } else {
        Ok(())
    }
}

/// Lists what is wrong with the names of the interfaces that a type lists.
fn list_listed_names(
    alloc: Global,
    schema: &Schema,
    names: &[Name],
    faults: &mut Listed<DiagnosticData>,
) -> Result<(), Memory>
    ensures { OnOk result (faults.new ≡ faults.old ++ spec.listed_names_faults schema.now names.now) }
{
    for name in names {
        list_listed_name(alloc, schema, name, faults)?;
    }
    Ok(())
}

fn list_listed_name(
    alloc: Global,
    schema: &Schema,
    name: &Name,
    faults: &mut Listed<DiagnosticData>,
) -> Result<(), Memory>
    ensures { OnOk result (faults.new ≡ faults.old ++ spec.listed_name_faults schema.now name.now) }
{
    if is_written(name.location()) {
        list_undefined_definition(alloc, &schema.types, name, faults)
    } else {
        Ok(())
    }
}

/// Lists what is wrong with the members of a union.
fn list_members(
    alloc: Global,
    schema: &Schema,
    names: &[Name],
    faults: &mut Listed<DiagnosticData>,
) -> Result<(), Memory>
    ensures { OnOk result (faults.new ≡ faults.old ++ spec.members_faults schema.now names.now) }
{
    for name in names {
        list_member(alloc, schema, name, faults)?;
    }
    Ok(())
}

fn list_member(
    alloc: Global,
    schema: &Schema,
    name: &Name,
    faults: &mut Listed<DiagnosticData>,
) -> Result<(), Memory>
    ensures { OnOk result (faults.new ≡ faults.old ++ spec.member_faults schema.now name.now) }
{
    if !is_written(name.location()) {
        return Ok(());
    }
    list_undefined_definition(alloc, &schema.types, name, faults)?;
    list_union_member_object_type(alloc, &schema.types, name, faults)
}
