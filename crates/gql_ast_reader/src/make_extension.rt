//! Extensions, of what their rows keep.

ghost use Rattle.std.specs.Prelude.{◌≡◌, IfOk};
ghost use Rattle.gql_ast_reader.specs.bridge.Extending as spec;

use crate::make_type_extension::{
    make_enum_extension, make_input_object_extension, make_interface_extension,
    make_object_extension, make_scalar_extension, make_schema_extension, make_union_extension,
};
use crate::place::text_there;
use crate::row::Row;
use crate::word::word_is;
use gql_ast::Definition;
use gql_ast_base::Source;
use gql_source::SourceSpan;
use jb_text::Memory;

/// The extension of what the second word says. `Err` only where memory runs out.
pub(crate) fn make_extension(
    source: &Source<'_>,
    row: &mut Row,
    location: Option<SourceSpan>,
) -> Result<Option<Definition>, Memory>
    ensures { IfOk result (λ found. found ≡ spec.extension_made source.now.text.now source.now.file_id row.old location) }
{
    let word = text_there(source.text, row.words.two);
    if word_is(word, "schema") {
        return Ok(Some(make_schema_extension(source, row, location)));
    }
    if word_is(word, "scalar") {
        return make_scalar_extension(source, row, location);
    }
    if word_is(word, "type") {
        return make_object_extension(source, row, location);
    }
    if word_is(word, "interface") {
        return make_interface_extension(source, row, location);
    }
    if word_is(word, "union") {
        return make_union_extension(source, row, location);
    }
    if word_is(word, "enum") {
        return make_enum_extension(source, row, location);
    }
    if word_is(word, "input") {
        return make_input_object_extension(source, row, location);
    }
    Ok(None)
}
