//! Definitions and extensions of types.

use crate::trees::description::Description;
use crate::trees::members::{enum_values, fields, input_values, names};
use crate::trees::values::directives;
use gql_ast::{
    Directive, EnumTypeDefinition, EnumTypeExtension, EnumValueDefinition, FieldDefinition,
    InputObjectTypeDefinition, InputObjectTypeExtension, InputValueDefinition,
    InterfaceTypeDefinition, InterfaceTypeExtension, Name, ObjectTypeDefinition,
    ObjectTypeExtension, ScalarTypeDefinition, ScalarTypeExtension, UnionTypeDefinition,
    UnionTypeExtension,
};
use jb_text::Listed;

pub(crate) fn scalar_definition(out: &mut Description<'_>, it: &ScalarTypeDefinition) {
    out.open("ScalarTypeDefinition", it.location);
    out.description(&it.description);
    scalar(out, &it.name, &it.directives);
}

pub(crate) fn scalar_extension(out: &mut Description<'_>, it: &ScalarTypeExtension) {
    out.open("ScalarTypeExtension", it.location);
    scalar(out, &it.name, &it.directives);
}

fn scalar(out: &mut Description<'_>, name: &Name, applied: &Listed<Directive>) {
    out.name("name", name);
    directives(out, applied);
    out.close();
}

pub(crate) fn object_definition(out: &mut Description<'_>, it: &ObjectTypeDefinition) {
    out.open("ObjectTypeDefinition", it.location);
    out.description(&it.description);
    composite(
        out,
        &it.name,
        &it.implements_interfaces,
        &it.directives,
        &it.fields,
    );
}

pub(crate) fn object_extension(out: &mut Description<'_>, it: &ObjectTypeExtension) {
    out.open("ObjectTypeExtension", it.location);
    composite(
        out,
        &it.name,
        &it.implements_interfaces,
        &it.directives,
        &it.fields,
    );
}

pub(crate) fn interface_definition(out: &mut Description<'_>, it: &InterfaceTypeDefinition) {
    out.open("InterfaceTypeDefinition", it.location);
    out.description(&it.description);
    composite(
        out,
        &it.name,
        &it.implements_interfaces,
        &it.directives,
        &it.fields,
    );
}

pub(crate) fn interface_extension(out: &mut Description<'_>, it: &InterfaceTypeExtension) {
    out.open("InterfaceTypeExtension", it.location);
    composite(
        out,
        &it.name,
        &it.implements_interfaces,
        &it.directives,
        &it.fields,
    );
}

/// What object types and interfaces have alike.
fn composite(
    out: &mut Description<'_>,
    name: &Name,
    interfaces: &Listed<Name>,
    applied: &Listed<Directive>,
    held: &Listed<FieldDefinition>,
) {
    out.name("name", name);
    names(out, "implements", interfaces);
    directives(out, applied);
    fields(out, held);
    out.close();
}

pub(crate) fn union_definition(out: &mut Description<'_>, it: &UnionTypeDefinition) {
    out.open("UnionTypeDefinition", it.location);
    out.description(&it.description);
    union(out, &it.name, &it.directives, &it.members);
}

pub(crate) fn union_extension(out: &mut Description<'_>, it: &UnionTypeExtension) {
    out.open("UnionTypeExtension", it.location);
    union(out, &it.name, &it.directives, &it.members);
}

fn union(
    out: &mut Description<'_>,
    name: &Name,
    applied: &Listed<Directive>,
    members: &Listed<Name>,
) {
    out.name("name", name);
    directives(out, applied);
    names(out, "member", members);
    out.close();
}

pub(crate) fn enum_definition(out: &mut Description<'_>, it: &EnumTypeDefinition) {
    out.open("EnumTypeDefinition", it.location);
    out.description(&it.description);
    enumeration(out, &it.name, &it.directives, &it.values);
}

pub(crate) fn enum_extension(out: &mut Description<'_>, it: &EnumTypeExtension) {
    out.open("EnumTypeExtension", it.location);
    enumeration(out, &it.name, &it.directives, &it.values);
}

fn enumeration(
    out: &mut Description<'_>,
    name: &Name,
    applied: &Listed<Directive>,
    values: &Listed<EnumValueDefinition>,
) {
    out.name("name", name);
    directives(out, applied);
    enum_values(out, values);
    out.close();
}

pub(crate) fn input_object_definition(out: &mut Description<'_>, it: &InputObjectTypeDefinition) {
    out.open("InputObjectTypeDefinition", it.location);
    out.description(&it.description);
    input_object(out, &it.name, &it.directives, &it.fields);
}

pub(crate) fn input_object_extension(out: &mut Description<'_>, it: &InputObjectTypeExtension) {
    out.open("InputObjectTypeExtension", it.location);
    input_object(out, &it.name, &it.directives, &it.fields);
}

fn input_object(
    out: &mut Description<'_>,
    name: &Name,
    applied: &Listed<Directive>,
    held: &Listed<InputValueDefinition>,
) {
    out.name("name", name);
    directives(out, applied);
    input_values(out, "field", held);
    out.close();
}
