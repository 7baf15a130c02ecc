//! Operation types and the types that operations are on, of what their rows keep.

ghost use Rattle.std.specs.Prelude.{◌≡◌, IfOk};
ghost use Rattle.gql_ast_reader.specs.bridge.Making as spec;

use crate::found::joined;
use crate::place::{name_there, text_there};
use crate::row::Row;
use gql_ast_base::{Name, OperationType, Source, operation_word};
use jb_text::Memory;

/// The operation type that the first word names.
pub(crate) fn make_operation(text: &str, row: &Row) -> Option<OperationType>
    ensures { result ≡ spec.operation_made text.now row.now }
{
    let found = text_there(text, row.words.one)?;
    operation_word(found)
}

/// An operation type, and the type that its operations are on. `Err` only where memory runs out.
pub(crate) fn make_root_operation(
    source: &Source<'_>,
    row: &Row,
) -> Result<Option<(OperationType, Name)>, Memory>
    ensures { IfOk result (λ found. found ≡ spec.root_operation_made source.now.text.now source.now.file_id row.now) }
{
    let Some(operation) = row.singles.operation else {
        return Ok(None);
    };
    match name_there(source, joined(row.roles.named_type))? {
        Some(name) => Ok(Some((operation, name))),
        None => Ok(None),
    }
}
