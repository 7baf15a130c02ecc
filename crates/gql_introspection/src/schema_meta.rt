//! A schema, as `__Schema`.

ghost use Rattle.gql_introspection.specs.SchemaMeta as spec;
ghost use Rattle.gql_introspection.specs.bridge.Seen.{GivesField};

use crate::asked::Asked;
use crate::leaves::description_or_null;
use crate::meta_object::MetaObject;
use crate::named_types::root_type;
use crate::shown::all_shown;
use gql_resolvers::ResolvedValue;
use gql_schema_types::{Schema, Valid};
use jb_text::Memory;

/// A field of a schema (GraphQL October 2021, section 4.2.1).
pub(crate) fn schema_meta_field<'a>(
    asked: &Asked<'_>,
    schema: &'a Valid<Schema>,
) -> Result<Option<ResolvedValue<MetaObject<'a>>>, Memory>
    ensures { GivesField result (spec.schema_row schema.now asked.now.field.now) }
{
    let alloc = asked.alloc;
    let whole = schema.as_ref();
    let definition = &whole.schema_definition;
    match asked.field {
        "description" => description_or_null(alloc, definition.description.as_ref()).map(Some),
        "types" => all_shown(alloc, schema, whole.types.as_slice()).map(Some),
        "queryType" => Ok(Some(root_type(schema, definition.query.as_ref()))),
        "mutationType" => Ok(Some(root_type(schema, definition.mutation.as_ref()))),
        "subscriptionType" => Ok(Some(root_type(schema, definition.subscription.as_ref()))),
        "directives" => {
            all_shown(alloc, schema, whole.directive_definitions.as_slice()).map(Some)
        }
        _ => Ok(None),
    }
}
