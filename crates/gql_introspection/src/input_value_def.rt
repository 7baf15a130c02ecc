//! An argument or a field of an input object, as `__InputValue`.

ghost use Rattle.std.specs.Option.{option_copied, option_map};
ghost use Rattle.gql_ast.specs.ValueText.{value_text};
ghost use Rattle.gql_introspection.specs.Answers as answers;
ghost use Rattle.gql_introspection.specs.InputValueDef as spec;
ghost use Rattle.gql_introspection.specs.bridge.Seen.{Gives, GivesField};

use crate::asked::Asked;
use crate::deprecation::{deprecation_reason, is_deprecated};
use crate::leaves::{
    description_or_null, name_leaf, null_leaf, text_leaf, text_or_null, truth_leaf,
};
use crate::meta_object::MetaObject;
use crate::named_types::type_object;
use gql_ast::{InputValueDefinition, print_value};
use gql_ast_base::Value;
use gql_resolvers::ResolvedValue;
use gql_schema_types::{Schema, Valid};
use jb_text::Memory;
use std::alloc::Global;

/// A field of an argument or of a field of an input object (GraphQL October 2021, section 4.2.4).
pub(crate) fn input_value_def_field<'a>(
    asked: &Asked<'_>,
    schema: &'a Valid<Schema>,
    value: &'a InputValueDefinition,
) -> Result<Option<ResolvedValue<MetaObject<'a>>>, Memory>
    ensures { GivesField result (spec.input_value_row schema.now value.now asked.now.field.now) }
{
    let alloc = asked.alloc;
    let directives = value.directives.as_slice();
    match asked.field {
        "name" => name_leaf(alloc, &value.name).map(Some),
        "description" => description_or_null(alloc, value.description.as_ref()).map(Some),
        "type" => Ok(Some(type_object(schema, &value.ty))),
        "defaultValue" => default_value(alloc, value.default_value.as_ref()).map(Some),
        "isDeprecated" => Ok(Some(truth_leaf(is_deprecated(directives)))),
        "deprecationReason" => {
            text_or_null(alloc, deprecation_reason(schema.as_ref(), directives)).map(Some)
        }
        _ => Ok(None),
    }
}

/// A default value as its text, or null where there is none.
fn default_value<'a>(
    alloc: Global,
    value: Option<&Value>,
) -> Result<ResolvedValue<MetaObject<'a>>, Memory>
    ensures { Gives result (answers.text_or_null (option_map value_text (option_copied value.entry))) }
{
    match value {
        Some(value) => text_leaf(alloc, print_value(alloc, value)?.as_str()),
        None => Ok(null_leaf()),
    }
}
