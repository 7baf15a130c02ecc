//! A value of an enum, as `__EnumValue`.

ghost use Rattle.gql_introspection.specs.EnumValueDef as spec;
ghost use Rattle.gql_introspection.specs.bridge.Seen.{GivesField};

use crate::asked::Asked;
use crate::deprecation::{deprecation_reason, is_deprecated};
use crate::leaves::{description_or_null, name_leaf, text_or_null, truth_leaf};
use crate::meta_object::MetaObject;
use gql_ast::EnumValueDefinition;
use gql_resolvers::ResolvedValue;
use gql_schema_types::{Schema, Valid};
use jb_text::Memory;

/// A field of a value of an enum (GraphQL October 2021, section 4.2.5).
pub(crate) fn enum_value_def_field<'a>(
    asked: &Asked<'_>,
    schema: &'a Valid<Schema>,
    value: &'a EnumValueDefinition,
) -> Result<Option<ResolvedValue<MetaObject<'a>>>, Memory>
    ensures { GivesField result (spec.enum_value_row schema.now value.now asked.now.field.now) }
{
    let alloc = asked.alloc;
    let directives = value.directives.as_slice();
    match asked.field {
        "name" => name_leaf(alloc, &value.value).map(Some),
        "description" => description_or_null(alloc, value.description.as_ref()).map(Some),
        "isDeprecated" => Ok(Some(truth_leaf(is_deprecated(directives)))),
        "deprecationReason" => {
            text_or_null(alloc, deprecation_reason(schema.as_ref(), directives)).map(Some)
        }
        _ => Ok(None),
    }
}
