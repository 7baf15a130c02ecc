//! What the objects of one type ask by a group: a definition and arguments, which are the same for each of them.

ghost use Rattle.std.specs.Prelude.{◌≡◌, IfOk, IfSome};
ghost use Rattle.gql_collect.specs.bridge.Plan as spec;

use crate::group::Group;
use crate::kept_arguments::are_kept;
use crate::planner::Planner;
use gql_ast::FieldDefinition;
use gql_coerce::{ArgumentFault, coerce_arguments};
use gql_document_types::Field;
use gql_response::JsonMap;
use gql_schema_types::{ExtendedType, ObjectType};
use jb_text::{Memory, Refused};
use std::alloc::AllocError;

/// A group that was collected on an object type, and what each object of the type asks by its first field.
pub struct PlannedField<'d> {
    pub group: Group<'d>,
    /// The definition of the field on the type.
    pub definition: &'d FieldDefinition,
    /// The type of the schema that the definition's type names, within all lists.
    pub named: Option<&'d ExtendedType>,
    /// The coerced arguments of the field, or the fault of the first that fails. Where they are too large to be kept, they are
    /// coerced for each object.
    pub arguments: Option<Result<JsonMap, ArgumentFault>>,
}

impl Drop for PlannedField<'_> {
    fn drop(self) {
        let PlannedField {
            group: _,
            definition: _,
            named: _,
            arguments: _,
        } = self;
    }
}

impl<'d> Planner<'d> {
    /// What objects of this type ask by a group. `Err` only when out of memory.
    pub(crate) fn planned(
        &self,
        object_type: &ObjectType,
        group: Group<'d>,
    ) -> Result<PlannedField<'d>, Memory>
        ensures group { IfOk result (λ field. field.group ≡ group.entry) }
        ensures planned { IfOk result (λ field. spec.IsPlanned (spec.ground_of self.now) object_type.now field) }
    {
        let definition = self.definition_on(object_type, group.first);
        let arguments = self.kept_arguments(definition, group.first)?;
        Ok(PlannedField {
            group,
            definition,
            named: self.schema.as_ref().type_named_by(&definition.ty),
            arguments,
        })
    }

    /// The definition of a field on this type, which every group that is collected has; else that on the type that it is
    /// selected on.
    fn definition_on(&self, object_type: &ObjectType, field: &'d Field) -> &'d FieldDefinition
        ensures { result.now ≡ spec.definition_on (spec.ground_of self.now) object_type.now field.now }
    {
        let schema = self.schema.as_ref();
        match schema.type_field(object_type.name.as_str(), field.name.as_str()) {
            Some(definition) => definition,
            None => &field.definition,
        }
    }

    /// The arguments of a field with this definition, where they are kept. `Err` only when out of memory.
    fn kept_arguments(
        &self,
        definition: &FieldDefinition,
        field: &Field,
    ) -> Result<Option<Result<JsonMap, ArgumentFault>>, Memory>
        ensures { IfOk result (λ kept. IfSome kept (λ arguments.
            arguments ≡ spec.arguments_by (spec.ground_of self.now) definition.now field.now)) }
    {
        let arguments = self.arguments(definition, field)?;
        if are_kept(&arguments) {
            Ok(Some(arguments))
        } else {
            Ok(None)
        }
    }

    /// The arguments of a field with this definition (GraphQL October 2021, section 6.4.1), or the fault of the first that
    /// fails. `Err` only when out of memory.
    pub fn arguments(
        &self,
        definition: &FieldDefinition,
        field: &Field,
    ) -> Result<Result<JsonMap, ArgumentFault>, Memory>
        ensures { IfOk result (λ arguments. arguments ≡ spec.arguments_by (spec.ground_of self.now) definition.now field.now) }
    {
        match coerce_arguments(
            self.alloc,
            self.schema,
            definition,
            &field.arguments,
            self.variables,
        ) {
            Ok(arguments) => Ok(Ok(arguments)),
            Err(Refused::Fault(fault)) => Ok(Err(fault)),
            Err(Refused::Memory) => Err(AllocError),
        }
    }
}
