//! The values of an operation's variables (GraphQL October 2021, section 6.1.2).

ghost use Rattle.gql_coerce.specs.Outcome.{Answers, told_as};
ghost use Rattle.gql_coerce.specs.bridge.Told.{input_error};
ghost use Rattle.gql_coerce.specs.Variables.{coerced_variables, variable_value};

use crate::fault::CoercionFault;
use crate::input_value::Coercion;
use crate::missing::Missing;
use crate::outcome::{given_value, put};
use crate::subject::Subject;
use crate::told::{InputCoercionError, tell_variables};
use crate::wanted::Wanted;
use gql_ast::VariableDefinition;
use gql_schema_types::{Schema, Valid};
use jb_text::{Listed, Refused};
use jb_tree::{Map, Map as JsonMap, Value};
use std::alloc::Global;

/// The variables that these definitions make of the given values, in order of definition: a given value is coerced to its
/// variable's type, a variable that is not given has its default (GraphQL October 2021, section 6.1.2). Values that no definition
/// names are left out. The values are copied once.
///
/// # Errors
///
/// `Fault` exactly where some variable fails, with the message of the first in order of definition: its value is none of
/// its type, or is missing; `SuspectedValidationBug` where the type is undefined or no input type, or a default holds a
/// variable. `Memory` only when out of memory.
pub fn coerce_variables(
    alloc: Global,
    schema: &Valid<Schema>,
    definitions: &Listed<VariableDefinition>,
    values: &JsonMap,
) -> Result<Valid<JsonMap>, Refused<InputCoercionError>>
    ensures { Answers (told_as input_error (coerced_variables schema.now.types definitions.now values.now)) result }
{
    let types = &schema.as_ref().types;
    let coercion = Coercion { alloc, types };
    match tell_variables(coercion.variable_values(definitions, values)) {
        Ok(made) => Ok(Valid::assume_valid(made)),
        Err(refused) => Err(refused),
    }
}

impl<'s> Coercion<'s> {
    /// The values of the variables with these definitions.
    fn variable_values(
        &self,
        definitions: &Listed<VariableDefinition>,
        values: &Map,
    ) -> Result<Map, Refused<CoercionFault>>
        ensures { Answers (coerced_variables self.now.types.now definitions.now values.now) result }
    {
        let mut made = Map::new(self.alloc);
        for definition in definitions.as_slice() {
            match self.variable_value(definition, values) {
                Ok(found) => put(self.alloc, &mut made, definition.name.as_str(), found)?,
                Err(refused) => return Err(refused),
            }
        }
        Ok(made)
    }

    /// The value of the variable with this definition.
    fn variable_value(
        &self,
        definition: &VariableDefinition,
        values: &Map,
    ) -> Result<Option<Value>, Refused<CoercionFault>>
        ensures { Answers (variable_value self.now.types.now values.now definition.now) result }
    {
        let name = definition.name.as_str();
        match values.get(name) {
            Some(value) => given_value(self.coerce_value(
                value,
                &Subject::Variable(name),
                &Wanted::new(&*self.types, &definition.ty),
            )),
            None => self.not_given(
                &Subject::DefaultOfVariable(name),
                &definition.ty,
                &definition.default_value,
                &Missing::Variable(name, definition.location),
            ),
        }
    }
}
