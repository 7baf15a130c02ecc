//! The built-in definitions, made of their rows.

ghost use Rattle.std.specs.Prelude.{◌≡◌, [], ◌∷◌, IfOk};
ghost use Rattle.gql_schema.specs.BuiltInSchema as spec;
ghost use Rattle.gql_schema.specs.bridge.Rows as rows;

use crate::built_in_making::all_of;
use crate::built_in_row::{DefinitionRow, DirectiveRow};
use crate::built_in_rows::{DIRECTIVES, TYPES};
use crate::built_in_text::{BUILT_IN_PATH, BUILT_IN_TEXT};
use gql_ast_base::{Source, both};
use gql_grammar::laws;
use gql_schema_build::BuiltIn;
use gql_source::{FileId, SourceFile, SourceMap};
use jb_text::{ByteString, Memory};
use std::alloc::Global;

/// The built-in definitions, and the file that their places are in.
///
/// They are made of rows of places in their text, and are what the text means. `Err` when out of memory. It would come as
/// well at a row with a place that the text does not have, or a name that is none; there is no such row, which a test shows.
pub(crate) fn built_in(alloc: Global) -> Result<(BuiltIn, SourceMap), Memory>
    ensures definitions { IfOk result (λ made. spec.IsBuiltIn made.0) }
    ensures sources { IfOk result (λ made. made.1 ≡ spec.built_in_sources) }
{
    laws::factored_is_declared();
    let file = SourceFile::new(alloc, BUILT_IN_PATH, BUILT_IN_TEXT)?;
    let built_in = of_rows(alloc, file.shared_text(), DIRECTIVES, TYPES)?;
    let sources = only(alloc, file)?;
    Ok((built_in, sources))
}

/// What the rows stand for in the text, from which names are cut.
fn of_rows(
    alloc: Global,
    text: &ByteString,
    directives: &[DirectiveRow],
    types: &[DefinitionRow],
) -> Result<BuiltIn, Memory>
    ensures { IfOk result (λ made. made ≡ rows.built_in_of text.now spec.built_in_file directives.now types.now) }
{
    let source = Source::sharing(alloc, text, FileId::BUILT_IN);
    let (directives, types) = both(all_of(&source, directives), all_of(&source, types))?;
    Ok(BuiltIn { directives, types })
}

/// The file of the built-in definitions, as the only one.
fn only(alloc: Global, file: SourceFile) -> Result<SourceMap, Memory>
    ensures { IfOk result (λ made. made ≡ (spec.built_in_file, file) ∷ []) }
{
    let mut sources = SourceMap::new(alloc);
    sources.insert(FileId::BUILT_IN, file)?;
    Ok(sources)
}
