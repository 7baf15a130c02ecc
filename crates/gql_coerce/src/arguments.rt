//! The arguments of a field (GraphQL October 2021, section 6.4.1).

ghost use Rattle.std.specs.Prelude.{Some};
ghost use Rattle.gql_coerce.specs.bridge.ByName.{FindsFirst};
ghost use Rattle.gql_coerce.specs.Outcome.{Answers, told_as};
ghost use Rattle.gql_coerce.specs.Told.{argument_fault};
ghost use Rattle.gql_coerce.specs.Arguments.{coerced_arguments, argument_value, argument_given, whole_value, no_argument, literal_argument};

use crate::fault::{CoercionFault, refuse};
use crate::given_arguments::GivenArguments;
use crate::input_value::Coercion;
use crate::literal_value::LiteralCoercion;
use crate::messages::null_argument;
use crate::missing::Missing;
use crate::outcome::{given_value, put};
use crate::subject::Subject;
use crate::told::{ArgumentFault, tell_arguments};
use gql_ast::{FieldDefinition, InputValueDefinition};
use gql_ast_base::{Argument, Value as Literal, ValueKind};
use gql_schema_types::{Schema, Valid};
use jb_text::{Listed, Refused};
use jb_tree::{Map, Map as JsonMap, Value};
use std::alloc::Global;

/// The arguments of a field by its definition, in order of definition, where variables have these values (GraphQL October 2021,
/// section 6.4.1). A variable that has no value is no argument, and what is not given has its default. Of several arguments of one
/// name the first counts.
///
/// # Errors
///
/// `Fault` exactly where an argument fails, with the message of the first in order of definition, and its place: a value
/// inside a literal, or the argument's definition. It is `suspected` where no schema and document that passed validation lead to
/// it. `Memory` only when out of memory.
pub fn coerce_arguments(
    alloc: Global,
    schema: &Valid<Schema>,
    definition: &FieldDefinition,
    arguments: &Listed<Argument>,
    variables: &Valid<JsonMap>,
) -> Result<JsonMap, Refused<ArgumentFault>>
    ensures { Answers (told_as argument_fault (coerced_arguments schema.now.types variables.now definition.now.arguments arguments.now)) result }
{
    let types = &schema.as_ref().types;
    let coercion = LiteralCoercion {
        coercion: Coercion { alloc, types },
        env: variables.as_ref(),
    };
    tell_arguments(coercion.argument_values(&definition.arguments, arguments))
}

impl<'s> LiteralCoercion<'s> {
    /// The arguments with these definitions.
    fn argument_values(
        &self,
        definitions: &Listed<InputValueDefinition>,
        arguments: &Listed<Argument>,
    ) -> Result<Map, Refused<CoercionFault>>
        ensures { Answers (coerced_arguments self.now.coercion.types.now self.now.env.now definitions.now arguments.now) result }
    {
        match GivenArguments::of(self.coercion.alloc, arguments.as_slice()) {
            Ok(by_name) => self.arguments_by_name(definitions, arguments, &by_name),
            Err(_) => Err(Refused::Memory),
        }
    }

    /// The same, where `by_name` finds the arguments.
    fn arguments_by_name(
        &self,
        definitions: &Listed<InputValueDefinition>,
        arguments: &Listed<Argument>,
        by_name: &GivenArguments<'_>,
    ) -> Result<Map, Refused<CoercionFault>>
        requires { FindsFirst by_name.now arguments.now }
        ensures { Answers (coerced_arguments self.now.coercion.types.now self.now.env.now definitions.now arguments.now) result }
    {
        let alloc = self.coercion.alloc;
        let mut made = Map::new(alloc);
        for definition in definitions.as_slice() {
            match self.argument_value(definition, arguments, by_name) {
                Ok(found) => put(alloc, &mut made, definition.name.as_str(), found)?,
                Err(refused) => return Err(refused),
            }
        }
        Ok(made)
    }

    /// The argument with this definition.
    fn argument_value(
        &self,
        definition: &InputValueDefinition,
        arguments: &Listed<Argument>,
        by_name: &GivenArguments<'_>,
    ) -> Result<Option<Value>, Refused<CoercionFault>>
        requires { FindsFirst by_name.now arguments.now }
        ensures { Answers (argument_value self.now.coercion.types.now self.now.env.now arguments.now definition.now) result }
    {
        match by_name.first(definition.name.as_str()) {
            Some(argument) => self.argument_given(definition, argument),
            None => self.no_argument(definition),
        }
    }

    /// The argument with this definition that is given so.
    fn argument_given(
        &self,
        definition: &InputValueDefinition,
        argument: &Argument,
    ) -> Result<Option<Value>, Refused<CoercionFault>>
        ensures { Answers (argument_given self.now.coercion.types.now self.now.env.now definition.now (Some argument.now)) result }
    {
        match &argument.value.kind {
            ValueKind::Variable(variable) => match self.env.get(variable.as_str()) {
                Some(value) => self.whole_value(definition, value),
                None => self.no_argument(definition),
            },
            ValueKind::Null => self.whole_value(definition, &Value::Null),
            ValueKind::Int(_) => self.literal_argument(definition, &argument.value),
            ValueKind::Float(_) => self.literal_argument(definition, &argument.value),
            ValueKind::String(_) => self.literal_argument(definition, &argument.value),
            ValueKind::Boolean(_) => self.literal_argument(definition, &argument.value),
            ValueKind::Enum(_) => self.literal_argument(definition, &argument.value),
            ValueKind::List(_) => self.literal_argument(definition, &argument.value),
            ValueKind::Object(_) => self.literal_argument(definition, &argument.value),
        }
    }

    /// A literal that is neither null nor a variable as the argument.
    fn literal_argument(
        &self,
        definition: &InputValueDefinition,
        literal: &Literal,
    ) -> Result<Option<Value>, Refused<CoercionFault>>
        ensures { Answers (literal_argument self.now.coercion.types.now self.now.env.now definition.now literal.now) result }
    {
        let subject = Subject::Argument(definition.name.as_str());
        given_value(self.coerce_literal(literal, &subject, &definition.ty))
    }

    /// A value that is given as it is.
    fn whole_value(
        &self,
        definition: &InputValueDefinition,
        value: &Value,
    ) -> Result<Option<Value>, Refused<CoercionFault>>
        ensures { Answers (whole_value definition.now value.now) result }
    {
        if definition.ty.is_non_null() && value.as_null().is_some() {
            return refuse(
                null_argument(self.coercion.alloc, definition.name.as_str()),
                definition.location,
            );
        }
        Ok(Some(value.copy(self.coercion.alloc)?))
    }

    /// What the argument is where none is given.
    fn no_argument(
        &self,
        definition: &InputValueDefinition,
    ) -> Result<Option<Value>, Refused<CoercionFault>>
        ensures { Answers (no_argument definition.now) result }
    {
        let name = definition.name.as_str();
        self.coercion.not_given(
            &Subject::Argument(name),
            &definition.ty,
            &definition.default_value,
            &Missing::Argument(name, definition.location),
        )
    }
}
