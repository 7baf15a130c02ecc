//! Definitions of schemas and directives, of what their rows keep.

ghost use Rattle.std.specs.Prelude.{◌≡◌, IfOk};
ghost use Rattle.std.specs.Option.{option_map};
ghost use Rattle.gql_ast.specs.declared.definition.Definition.TheVariants as definition;
ghost use Rattle.gql_ast_reader.specs.bridge.Making as spec;

use crate::found::{joined, listed};
use crate::place::{name_there, text_there};
use crate::row::Row;
use crate::word::word_is;
use gql_ast::{Definition, DirectiveDefinition, SchemaDefinition};
use gql_ast_base::Source;
use gql_source::SourceSpan;
use jb_text::{Listed, Memory};
use std::mem;

/// The root operation types of a schema.
pub(crate) fn make_schema(
    source: &Source<'_>,
    row: &mut Row,
    location: Option<SourceSpan>,
) -> Definition
    ensures { result ≡ definition.SchemaDefinition (spec.schema_made source.now.text.now source.now.file_id row.old location) }
{
    Definition::SchemaDefinition(SchemaDefinition {
        description: joined(row.singles.description.take()),
        directives: listed(source.alloc, &mut row.groups.directives),
        root_operations: mem::replace(&mut row.root_operations, Listed::new(source.alloc)),
        location,
    })
}

/// A directive that may be used, by the second word. `Err` only where memory runs out.
pub(crate) fn make_directive_definition(
    source: &Source<'_>,
    row: &mut Row,
    location: Option<SourceSpan>,
) -> Result<Option<Definition>, Memory>
    ensures { IfOk result (λ found. found ≡ option_map definition.DirectiveDefinition (spec.directive_definition_made source.now.text.now source.now.file_id row.old location)) }
{
    let Some(name) = name_there(source, row.words.two)? else {
        return Ok(None);
    };
    Ok(Some(Definition::DirectiveDefinition(DirectiveDefinition {
        description: joined(row.singles.description.take()),
        name,
        arguments: listed(source.alloc, &mut row.groups.inputs),
        repeatable: word_is(text_there(source.text, row.words.three), "repeatable"),
        locations: mem::replace(&mut row.words.locations, Listed::new(source.alloc)),
        location,
    })))
}
