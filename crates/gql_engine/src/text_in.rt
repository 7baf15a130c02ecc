//! The texts of files.

ghost use Rattle.std.specs.Prelude.{◌≡◌};
ghost use Rattle.gql_engine.specs.AtHand as at_hand;

use gql_source::{FileId, SourceMap};

/// The file of a schema's text.
pub(crate) const SCHEMA_FILE: FileId = FileId { number: 3 };

/// The file of a query's text.
pub(crate) const QUERY_FILE: FileId = FileId { number: 4 };

/// The text of a file, or none where there is no such file.
pub(crate) fn text_in(sources: &SourceMap, file: FileId) -> &str
    ensures { result.now ≡ at_hand.text_in file sources.now }
{
    match sources.get(file) {
        Some(found) => found.source_text(),
        None => "",
    }
}
