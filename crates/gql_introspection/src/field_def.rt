//! A field of an object type or an interface, as `__Field`.

ghost use Rattle.gql_introspection.specs.FieldDef as spec;
ghost use Rattle.gql_introspection.specs.bridge.Seen.{GivesField};

use crate::asked::Asked;
use crate::deprecation::{deprecation_reason, is_deprecated};
use crate::leaves::{description_or_null, name_leaf, text_or_null, truth_leaf};
use crate::meta_object::MetaObject;
use crate::named_types::type_object;
use crate::shown::kept;
use gql_ast::FieldDefinition;
use gql_resolvers::ResolvedValue;
use gql_schema_types::{Schema, Valid};
use jb_text::Memory;

/// A field of a field (GraphQL October 2021, section 4.2.3).
pub(crate) fn field_def_field<'a>(
    asked: &Asked<'_>,
    schema: &'a Valid<Schema>,
    field: &'a FieldDefinition,
) -> Result<Option<ResolvedValue<MetaObject<'a>>>, Memory>
    ensures { GivesField result (spec.field_row schema.now field.now asked.now.field.now asked.now.arguments.now) }
{
    let alloc = asked.alloc;
    let directives = field.directives.as_slice();
    match asked.field {
        "name" => name_leaf(alloc, &field.name).map(Some),
        "description" => description_or_null(alloc, field.description.as_ref()).map(Some),
        "args" => kept(asked, schema, field.arguments.as_slice()).map(Some),
        "type" => Ok(Some(type_object(schema, &field.ty))),
        "isDeprecated" => Ok(Some(truth_leaf(is_deprecated(directives)))),
        "deprecationReason" => {
            text_or_null(alloc, deprecation_reason(schema.as_ref(), directives)).map(Some)
        }
        _ => Ok(None),
    }
}
