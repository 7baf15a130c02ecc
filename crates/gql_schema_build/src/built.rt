//! Types of their definitions, and the faults in these.

ghost use Rattle.std.specs.Prelude.{◌≡◌, ◌++◌, IfOk, OnOk};
ghost use Rattle.gql_schema_build.specs.Built as spec;

use crate::kinds_built::{
    any_enum, any_input_object, any_interface, any_object, any_union, scalar_type,
};
use crate::type_definition::TypeDefinition;
use gql_diag_messages::DiagnosticData;
use gql_schema_types::ExtendedType;
use jb_text::{Listed, Memory};
use std::alloc::Global;

/// The type of a definition, and the faults in this.
pub(crate) fn built(
    alloc: Global,
    definition: TypeDefinition,
    faults: &mut Listed<DiagnosticData>,
) -> Result<ExtendedType, Memory>
    ensures made { IfOk result (λ made. made ≡ spec.built definition) }
    ensures faults { OnOk result (faults.new ≡ faults.old ++ spec.part_faults definition) }
{
    match definition {
        TypeDefinition::Scalar(it) => Ok(ExtendedType::Scalar(scalar_type(it))),
        TypeDefinition::Object(it) => any_object(alloc, it, faults),
        TypeDefinition::Interface(it) => any_interface(alloc, it, faults),
        TypeDefinition::Union(it) => any_union(alloc, it, faults),
        TypeDefinition::Enum(it) => any_enum(alloc, it, faults),
        TypeDefinition::InputObject(it) => any_input_object(alloc, it, faults),
    }
}
