//! Definitions of types with what extensions add.

ghost use Rattle.std.specs.Prelude.{◌≡◌, OnOk};
ghost use Rattle.gql_schema_build.specs.Extended as spec;

use crate::lists::append;
use crate::type_definition::TypeDefinition;
use crate::type_extension::TypeExtension;
use gql_ast::{
    EnumTypeDefinition, EnumTypeExtension, InputObjectTypeDefinition, InputObjectTypeExtension,
    InterfaceTypeDefinition, InterfaceTypeExtension, ObjectTypeDefinition, ObjectTypeExtension,
    ScalarTypeDefinition, ScalarTypeExtension, UnionTypeDefinition, UnionTypeExtension,
};
use gql_ast_base::{all_three, both};
use jb_text::Memory;

/// Adds what an extension gives, where it is one of a type of this kind.
pub(crate) fn extend(
    definition: &mut TypeDefinition,
    extension: TypeExtension,
) -> Result<(), Memory>
    ensures { OnOk result (definition.new ≡ spec.extended definition.old extension) }
{
    match extension {
        TypeExtension::Scalar(extension) => match definition {
            TypeDefinition::Scalar(definition) => extend_scalar(definition, extension),
            _ => Ok(()),
        },
        TypeExtension::Object(extension) => match definition {
            TypeDefinition::Object(definition) => extend_object(definition, extension),
            _ => Ok(()),
        },
        TypeExtension::Interface(extension) => match definition {
            TypeDefinition::Interface(definition) => extend_interface(definition, extension),
            _ => Ok(()),
        },
        TypeExtension::Union(extension) => match definition {
            TypeDefinition::Union(definition) => extend_union(definition, extension),
            _ => Ok(()),
        },
        TypeExtension::Enum(extension) => match definition {
            TypeDefinition::Enum(definition) => extend_enum(definition, extension),
            _ => Ok(()),
        },
        TypeExtension::InputObject(extension) => match definition {
            TypeDefinition::InputObject(definition) => extend_input_object(definition, extension),
            _ => Ok(()),
        },
    }
}

fn extend_scalar(
    definition: &mut ScalarTypeDefinition,
    extension: ScalarTypeExtension,
) -> Result<(), Memory>
    ensures { OnOk result (definition.new ≡ spec.extended_scalar definition.old extension) }
{
    let ScalarTypeExtension {
        name: _,
        directives,
        location: _,
    } = extension;
    append(&mut definition.directives, directives)
}

fn extend_object(
    definition: &mut ObjectTypeDefinition,
    extension: ObjectTypeExtension,
) -> Result<(), Memory>
    ensures { OnOk result (definition.new ≡ spec.extended_object definition.old extension) }
{
    let ObjectTypeExtension {
        name: _,
        implements_interfaces,
        directives,
        fields,
        location: _,
    } = extension;
    all_three(
        append(&mut definition.implements_interfaces, implements_interfaces),
        append(&mut definition.directives, directives),
        append(&mut definition.fields, fields),
    )?;
    Ok(())
}

fn extend_interface(
    definition: &mut InterfaceTypeDefinition,
    extension: InterfaceTypeExtension,
) -> Result<(), Memory>
    ensures { OnOk result (definition.new ≡ spec.extended_interface definition.old extension) }
{
    let InterfaceTypeExtension {
        name: _,
        implements_interfaces,
        directives,
        fields,
        location: _,
    } = extension;
    all_three(
        append(&mut definition.implements_interfaces, implements_interfaces),
        append(&mut definition.directives, directives),
        append(&mut definition.fields, fields),
    )?;
    Ok(())
}

fn extend_union(
    definition: &mut UnionTypeDefinition,
    extension: UnionTypeExtension,
) -> Result<(), Memory>
    ensures { OnOk result (definition.new ≡ spec.extended_union definition.old extension) }
{
    let UnionTypeExtension {
        name: _,
        directives,
        members,
        location: _,
    } = extension;
    both(
        append(&mut definition.directives, directives),
        append(&mut definition.members, members),
    )?;
    Ok(())
}

fn extend_enum(
    definition: &mut EnumTypeDefinition,
    extension: EnumTypeExtension,
) -> Result<(), Memory>
    ensures { OnOk result (definition.new ≡ spec.extended_enum definition.old extension) }
{
    let EnumTypeExtension {
        name: _,
        directives,
        values,
        location: _,
    } = extension;
    both(
        append(&mut definition.directives, directives),
        append(&mut definition.values, values),
    )?;
    Ok(())
}

fn extend_input_object(
    definition: &mut InputObjectTypeDefinition,
    extension: InputObjectTypeExtension,
) -> Result<(), Memory>
    ensures { OnOk result (definition.new ≡ spec.extended_input_object definition.old extension) }
{
    let InputObjectTypeExtension {
        name: _,
        directives,
        fields,
        location: _,
    } = extension;
    both(
        append(&mut definition.directives, directives),
        append(&mut definition.fields, fields),
    )?;
    Ok(())
}
