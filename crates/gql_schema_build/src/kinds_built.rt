//! The types of definitions of one kind, and the faults in these.

ghost use Rattle.std.specs.Prelude.{◌≡◌, ◌++◌, IfOk, OnOk};
ghost use Rattle.gql_schema_build.specs.EnumValueNameCollision.{enum_value_name_collisions};
ghost use Rattle.gql_schema_build.specs.InputFieldNameCollision.{input_field_name_collisions};
ghost use Rattle.gql_schema_build.specs.KindsBuilt as spec;
ghost use Rattle.gql_schema_build.specs.UnionMemberNameCollision.{union_member_name_collisions};

use crate::duplicate_implements_interface_in_interface::interface_interfaces;
use crate::duplicate_implements_interface_in_object::object_interfaces;
use crate::enum_value_name_collision::enum_values;
use crate::input_field_name_collision::input_fields;
use crate::interface_field_name_collision::interface_fields;
use crate::object_field_name_collision::object_fields;
use crate::union_member_name_collision::union_members;
use gql_ast::{
    EnumTypeDefinition, InputObjectTypeDefinition, InterfaceTypeDefinition, ObjectTypeDefinition,
    ScalarTypeDefinition, UnionTypeDefinition,
};
use gql_ast_base::both;
use gql_diag_messages::DiagnosticData;
use gql_schema_types::{
    EnumType, ExtendedType, InputObjectType, InterfaceType, ObjectType, ScalarType, UnionType,
};
use jb_text::{Listed, Memory};
use std::alloc::Global;

/// The type of a scalar's definition (GraphQL October 2021, section 3.5).
#[must_use]
pub(crate) fn scalar_type(definition: ScalarTypeDefinition) -> ScalarType
    ensures { result ≡ spec.scalar_type definition }
{
    let ScalarTypeDefinition {
        description,
        name,
        directives,
        location,
    } = definition;
    ScalarType {
        description,
        name,
        directives,
        location,
    }
}

fn object_type(
    alloc: Global,
    definition: ObjectTypeDefinition,
    faults: &mut Listed<DiagnosticData>,
) -> Result<ObjectType, Memory>
    ensures made { IfOk result (λ made. made ≡ spec.object_type definition) }
    ensures faults { OnOk result (faults.new ≡ faults.old ++ spec.object_faults definition) }
{
    let ObjectTypeDefinition {
        description,
        name,
        implements_interfaces,
        directives,
        fields,
        location,
    } = definition;
    let (implements_interfaces, fields) = both(
        object_interfaces(alloc, name.as_str(), implements_interfaces, faults),
        object_fields(alloc, name.as_str(), fields, faults),
    )?;
    Ok(ObjectType {
        description,
        name,
        implements_interfaces,
        directives,
        fields,
        location,
    })
}

fn interface_type(
    alloc: Global,
    definition: InterfaceTypeDefinition,
    faults: &mut Listed<DiagnosticData>,
) -> Result<InterfaceType, Memory>
    ensures made { IfOk result (λ made. made ≡ spec.interface_type definition) }
    ensures faults { OnOk result (faults.new ≡ faults.old ++ spec.interface_faults definition) }
{
    let InterfaceTypeDefinition {
        description,
        name,
        implements_interfaces,
        directives,
        fields,
        location,
    } = definition;
    let (implements_interfaces, fields) = both(
        interface_interfaces(alloc, name.as_str(), implements_interfaces, faults),
        interface_fields(alloc, name.as_str(), fields, faults),
    )?;
    Ok(InterfaceType {
        description,
        name,
        implements_interfaces,
        directives,
        fields,
        location,
    })
}

fn union_type(
    alloc: Global,
    definition: UnionTypeDefinition,
    faults: &mut Listed<DiagnosticData>,
) -> Result<UnionType, Memory>
    ensures made { IfOk result (λ made. made ≡ spec.union_type definition) }
    ensures faults { OnOk result (faults.new ≡ faults.old ++ union_member_name_collisions definition.name.text definition.members) }
{
    let UnionTypeDefinition {
        description,
        name,
        directives,
        members,
        location,
    } = definition;
    let members = union_members(alloc, name.as_str(), members, faults)?;
    Ok(UnionType {
        description,
        name,
        directives,
        members,
        location,
    })
}

fn enum_type(
    alloc: Global,
    definition: EnumTypeDefinition,
    faults: &mut Listed<DiagnosticData>,
) -> Result<EnumType, Memory>
    ensures made { IfOk result (λ made. made ≡ spec.enum_type definition) }
    ensures faults { OnOk result (faults.new ≡ faults.old ++ enum_value_name_collisions definition.name.text definition.values) }
{
    let EnumTypeDefinition {
        description,
        name,
        directives,
        values,
        location,
    } = definition;
    let values = enum_values(alloc, name.as_str(), values, faults)?;
    Ok(EnumType {
        description,
        name,
        directives,
        values,
        location,
    })
}

fn input_object_type(
    alloc: Global,
    definition: InputObjectTypeDefinition,
    faults: &mut Listed<DiagnosticData>,
) -> Result<InputObjectType, Memory>
    ensures made { IfOk result (λ made. made ≡ spec.input_object_type definition) }
    ensures faults { OnOk result (faults.new ≡ faults.old ++ input_field_name_collisions definition.name.text definition.fields) }
{
    let InputObjectTypeDefinition {
        description,
        name,
        directives,
        fields,
        location,
    } = definition;
    let fields = input_fields(alloc, name.as_str(), fields, faults)?;
    Ok(InputObjectType {
        description,
        name,
        directives,
        fields,
        location,
    })
}

/// The type of an object type's definition (GraphQL October 2021, section 3.6), and the faults in this. `Err` only when out of
/// memory.
pub(crate) fn any_object(
    alloc: Global,
    definition: ObjectTypeDefinition,
    faults: &mut Listed<DiagnosticData>,
) -> Result<ExtendedType, Memory>
    ensures made { IfOk result (λ made. made ≡ ExtendedType.Object (spec.object_type definition)) }
    ensures faults { OnOk result (faults.new ≡ faults.old ++ spec.object_faults definition) }
{
    Ok(ExtendedType::Object(object_type(alloc, definition, faults)?))
}

/// The type of an interface's definition (GraphQL October 2021, section 3.7), and the faults in this. `Err` only when out of
/// memory.
pub(crate) fn any_interface(
    alloc: Global,
    definition: InterfaceTypeDefinition,
    faults: &mut Listed<DiagnosticData>,
) -> Result<ExtendedType, Memory>
    ensures made { IfOk result (λ made. made ≡ ExtendedType.Interface (spec.interface_type definition)) }
    ensures faults { OnOk result (faults.new ≡ faults.old ++ spec.interface_faults definition) }
{
    Ok(ExtendedType::Interface(interface_type(alloc, definition, faults)?))
}

/// The type of a union's definition (GraphQL October 2021, section 3.8), and the faults in this. `Err` only when out of
/// memory.
pub(crate) fn any_union(
    alloc: Global,
    definition: UnionTypeDefinition,
    faults: &mut Listed<DiagnosticData>,
) -> Result<ExtendedType, Memory>
    ensures made { IfOk result (λ made. made ≡ ExtendedType.Union (spec.union_type definition)) }
    ensures faults { OnOk result (faults.new ≡ faults.old ++ union_member_name_collisions definition.name.text definition.members) }
{
    Ok(ExtendedType::Union(union_type(alloc, definition, faults)?))
}

/// The type of an enum's definition (GraphQL October 2021, section 3.9), and the faults in this. `Err` only when out of
/// memory.
pub(crate) fn any_enum(
    alloc: Global,
    definition: EnumTypeDefinition,
    faults: &mut Listed<DiagnosticData>,
) -> Result<ExtendedType, Memory>
    ensures made { IfOk result (λ made. made ≡ ExtendedType.Enum (spec.enum_type definition)) }
    ensures faults { OnOk result (faults.new ≡ faults.old ++ enum_value_name_collisions definition.name.text definition.values) }
{
    Ok(ExtendedType::Enum(enum_type(alloc, definition, faults)?))
}

/// The type of an input object type's definition (GraphQL October 2021, section 3.10), and the faults in this. `Err` only when out of
/// memory.
pub(crate) fn any_input_object(
    alloc: Global,
    definition: InputObjectTypeDefinition,
    faults: &mut Listed<DiagnosticData>,
) -> Result<ExtendedType, Memory>
    ensures made { IfOk result (λ made. made ≡ ExtendedType.InputObject (spec.input_object_type definition)) }
    ensures faults { OnOk result (faults.new ≡ faults.old ++ input_field_name_collisions definition.name.text definition.fields) }
{
    Ok(ExtendedType::InputObject(input_object_type(alloc, definition, faults)?))
}
