//! What comes of a field on an object: its resolver is asked with the arguments that are planned.

ghost use Rattle.std.specs.Prelude.{◌≡◌, true, is_some, IfOk};
ghost use Rattle.gql_schema_types.specs.Schemas.{field_of};
ghost use Rattle.gql_resolvers.specs.Meaning.{Answers};
ghost use Rattle.gql_resolvers.specs.Resolved.{answered, Meaning};
ghost use Rattle.gql_collect.specs.bridge.Plan.{IsPlanned, arguments_by, definition_on};
ghost use Rattle.gql_exec.specs.Asks as spec;
ghost use Rattle.gql_exec.specs.bridge.Asking.{IsDefined, outcome_of};
ghost use Rattle.gql_exec.specs.Executing as executing;
ghost use Rattle.gql_exec.specs.bridge.Executing.{request_of};
ghost use Rattle.gql_exec.specs.bridge.Planning.{ground_in};

use crate::executing::Executing;
use gql_coerce::ArgumentFault;
use gql_collect::PlannedField;
use gql_resolvers::{FieldError, ObjectValue, ResolveError, ResolveInfo, ResolvedValue};
use gql_response::JsonMap;
use gql_schema_types::{ObjectType, Schema};
use jb_text::{Memory, Text};
use jb_tree::Value;
use std::alloc::{AllocError, Global};

/// What comes of a field: what its resolver gives, its failure, or the fault of an argument.
#[derive(Drop)]
pub enum Asked<O> {
    Gave(ResolvedValue<O>),
    Failed(FieldError),
    Refused(ArgumentFault),
}

impl<'s> Executing<'s> {
    /// What comes of a field on an object of the type that it is planned on (GraphQL October 2021, sections 6.4.1 and 6.4.2).
    /// `Err` only when out of memory.
    pub fn ask<O: ObjectValue>(
        &self,
        object_type: &ObjectType,
        object: &O,
        field: &PlannedField<'_>,
    ) -> Result<Asked<O>, Memory>
        requires planned { IsPlanned (ground_in self.now) object_type.now field.now }
        requires defined { is_some (field_of self.now.request.schema.now object_type.now.name.text field.now.group.first.now.name.text) ≡ true }
        ensures { IfOk result (λ asked.
            let r = request_of self.now O.type_of O.resolves in
            outcome_of O.seen asked ≡ spec.asks r object_type.now (O.seen object.now) field.now.group.first.now) }
    {
        match &field.arguments {
            Some(arguments) => self.ask_with(object_type, object, field, arguments),
            None => {
                let planner = self.planner();
                let arguments = planner.arguments(field.definition, field.group.first)?;
                self.ask_with(object_type, object, field, &arguments)
            }
        }
    }

    /// The same with what has come of coercing the arguments.
    #[inline(always)]
    fn ask_with<O: ObjectValue>(
        &self,
        object_type: &ObjectType,
        object: &O,
        field: &PlannedField<'_>,
        arguments: &Result<JsonMap, ArgumentFault>,
    ) -> Result<Asked<O>, Memory>
        requires arguments { arguments.now ≡ arguments_by (ground_in self.now)
            (definition_on (ground_in self.now) object_type.now field.now.group.first.now) field.now.group.first.now }
        requires defined { IsDefined self.now.request.schema.now object_type.now field.now }
        ensures { IfOk result (λ asked.
            let r = request_of self.now O.type_of O.resolves in
            outcome_of O.seen asked ≡ spec.asks r object_type.now (O.seen object.now) field.now.group.first.now) }
    {
        match arguments {
            Ok(arguments) => self.resolve(object_type, object, field, arguments),
            Err(fault) => {
                let fault = copied(self.alloc, fault)?;
                Ok(Asked::Refused(fault))
            }
        }
    }

    /// The same with these arguments.
    #[inline(always)]
    fn resolve<O: ObjectValue>(
        &self,
        object_type: &ObjectType,
        object: &O,
        field: &PlannedField<'_>,
        arguments: &JsonMap,
    ) -> Result<Asked<O>, Memory>
        requires { IsDefined self.now.request.schema.now object_type.now field.now }
        ensures { IfOk result (λ asked.
            let r = request_of self.now O.type_of O.resolves in
            outcome_of O.seen asked ≡ answered (spec.answer r object_type.now (O.seen object.now) field.now.group.first.now.name.text arguments.now)) }
    {
        if field.group.first.name.is_reserved() {
            self.resolve_reserved(object_type, object, field, arguments)
        } else {
            self.ask_object(object_type, object, field, arguments)
        }
    }

    /// The same of a field that may be `__typename`, or tell of the schema.
    fn resolve_reserved<O: ObjectValue>(
        &self,
        object_type: &ObjectType,
        object: &O,
        field: &PlannedField<'_>,
        arguments: &JsonMap,
    ) -> Result<Asked<O>, Memory>
        requires { IsDefined self.now.request.schema.now object_type.now field.now }
        ensures { IfOk result (λ asked.
            let r = request_of self.now O.type_of O.resolves in
            outcome_of O.seen asked ≡ answered (spec.answer r object_type.now (O.seen object.now) field.now.group.first.now.name.text arguments.now)) }
    {
        let name = field.group.first.name.as_str();
        if name == "__typename" {
            let text = object_type.name.text().copy(self.alloc)?;
            return Ok(Asked::Gave(ResolvedValue::Leaf(Value::String(text))));
        }
        if self.is_hidden(object_type, name) {
            let message = Text::from_str(self.alloc, "schema introspection is disabled")?;
            return Ok(Asked::Failed(FieldError { message }));
        }
        self.ask_object(object_type, object, field, arguments)
    }

    /// What the object's resolver gives with these arguments.
    fn ask_object<O: ObjectValue>(
        &self,
        object_type: &ObjectType,
        object: &O,
        field: &PlannedField<'_>,
        arguments: &JsonMap,
    ) -> Result<Asked<O>, Memory>
        requires { IsDefined self.now.request.schema.now object_type.now field.now }
        ensures { IfOk result (λ asked. outcome_of O.seen asked ≡ answered
            (O.resolves self.now.request.schema.now object_type.now (O.seen object.now) field.now.group.first.now.name.text arguments.now)) }
    {
        let group = &field.group;
        let info = ResolveInfo::new(
            &self.request,
            object_type,
            group.first,
            &group.fields,
            arguments,
        );
        let info = info.planned(field.definition, field.named);
        told(object.resolve_field(self.alloc, &info))
    }

    /// Whether the field of this name on this type tells of the schema (section 4.2) while introspection is off.
    fn is_hidden(&self, object_type: &ObjectType, name: &str) -> bool
        ensures { result ≡ executing.is_hidden self.now.introspection self.now.request.schema.now object_type.now name.now }
    {
        !self.introspection && is_introspection(self.schema(), object_type, name)
    }
}

/// A copy of the fault of an argument. `Err` only when out of memory.
fn copied(alloc: Global, fault: &ArgumentFault) -> Result<ArgumentFault, Memory>
    ensures { IfOk result (λ copy. copy ≡ fault.now) }
{
    Ok(ArgumentFault {
        message: fault.message.copy(alloc)?,
        location: fault.location,
        suspected: fault.suspected,
    })
}

/// What a resolver's answer is.
#[inline(always)]
fn told<O: ObjectValue>(answer: Result<ResolvedValue<O>, ResolveError>) -> Result<Asked<O>, Memory>
    ensures { (meaning : Meaning O.Seen) → Answers O.seen answer meaning → IfOk result (λ asked. outcome_of O.seen asked ≡ answered meaning) }
{
    match answer {
        Ok(resolved) => Ok(Asked::Gave(resolved)),
        Err(ResolveError::Field(error)) => Ok(Asked::Failed(error)),
        Err(ResolveError::Memory) => Err(AllocError),
    }
}

/// Whether the field of this name on this type tells of the schema (GraphQL October 2021, section 4.2).
#[must_use]
pub fn is_introspection(schema: &Schema, object_type: &ObjectType, name: &str) -> bool
    ensures { result ≡ spec.is_introspection schema.now object_type.now name.now }
{
    (name == "__schema" || name == "__type")
        && schema
            .schema_definition
            .is_query_root(object_type.name.as_str())
}
