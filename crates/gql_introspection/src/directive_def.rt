//! A directive, as `__Directive`.

ghost use Rattle.std.specs.Prelude.{map};
ghost use Rattle.gql_ast.specs.Schemas.{location_name};
ghost use Rattle.gql_introspection.specs.Answers.{texts};
ghost use Rattle.gql_introspection.specs.DirectiveDef as spec;
ghost use Rattle.gql_introspection.specs.bridge.Seen.{Gives, GivesField};

use crate::asked::Asked;
use crate::items::Items;
use crate::leaves::{description_or_null, name_leaf, text_leaf, truth_leaf};
use crate::meta_object::MetaObject;
use crate::shown::kept;
use gql_ast::{DirectiveDefinition, DirectiveLocation};
use gql_resolvers::ResolvedValue;
use gql_schema_types::{Schema, Valid};
use jb_text::Memory;
use std::alloc::Global;

/// A field of a directive (GraphQL October 2021, section 4.2.6).
pub(crate) fn directive_def_field<'a>(
    asked: &Asked<'_>,
    schema: &'a Valid<Schema>,
    directive: &'a DirectiveDefinition,
) -> Result<Option<ResolvedValue<MetaObject<'a>>>, Memory>
    ensures { GivesField result (spec.directive_row schema.now directive.now asked.now.field.now asked.now.arguments.now) }
{
    let alloc = asked.alloc;
    match asked.field {
        "name" => name_leaf(alloc, &directive.name).map(Some),
        "description" => description_or_null(alloc, directive.description.as_ref()).map(Some),
        "locations" => locations(alloc, directive.locations.as_slice()).map(Some),
        "args" => kept(asked, schema, directive.arguments.as_slice()).map(Some),
        "isRepeatable" => Ok(Some(truth_leaf(directive.repeatable))),
        _ => Ok(None),
    }
}

/// Where a directive may stand.
fn locations<'a>(
    alloc: Global,
    locations: &[DirectiveLocation],
) -> Result<ResolvedValue<MetaObject<'a>>, Memory>
    ensures { Gives result (texts (map location_name locations.now)) }
{
    let mut items = Items::new(alloc);
    for location in locations {
        items.push(text_leaf(alloc, location.name())?)?;
    }
    Ok(items.into_list())
}
