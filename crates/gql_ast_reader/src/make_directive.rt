//! Arguments and directives, of what their rows keep.

ghost use Rattle.std.specs.Prelude.{◌≡◌, IfOk};
ghost use Rattle.gql_ast_reader.specs.bridge.Making as spec;

use crate::found::listed;
use crate::place::name_there;
use crate::row::Row;
use gql_ast_base::{Argument, Directive, Source};
use gql_source::SourceSpan;
use jb_text::Memory;

/// An argument: its name and its value. `Err` only where memory runs out.
pub(crate) fn make_argument(
    source: &Source<'_>,
    row: &mut Row,
    location: Option<SourceSpan>,
) -> Result<Option<Argument>, Memory>
    ensures { IfOk result (λ found. found ≡ spec.argument_made source.now.text.now source.now.file_id row.old location) }
{
    let Some(name) = name_there(source, row.words.one)? else {
        return Ok(None);
    };
    let Some(value) = row.own.take_value() else {
        return Ok(None);
    };
    Ok(Some(Argument {
        name,
        value,
        location,
    }))
}

/// A directive: its name and its arguments. `Err` only where memory runs out.
pub(crate) fn make_directive(
    source: &Source<'_>,
    row: &mut Row,
    location: Option<SourceSpan>,
) -> Result<Option<Directive>, Memory>
    ensures { IfOk result (λ found. found ≡ spec.directive_made source.now.text.now source.now.file_id row.old location) }
{
    let Some(name) = name_there(source, row.words.one)? else {
        return Ok(None);
    };
    Ok(Some(Directive {
        name,
        arguments: listed(source.alloc, &mut row.groups.arguments),
        location,
    }))
}
