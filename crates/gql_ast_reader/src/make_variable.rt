//! Definitions of variables, of what their rows keep.

ghost use Rattle.std.specs.Prelude.{◌≡◌, IfOk};
ghost use Rattle.gql_ast_reader.specs.bridge.Making as spec;

use crate::found::{joined, listed};
use crate::place::name_there;
use crate::row::Row;
use gql_ast::VariableDefinition;
use gql_ast_base::Source;
use gql_source::SourceSpan;
use jb_text::Memory;

/// A variable that an operation takes. `Err` only where memory runs out.
pub(crate) fn make_variable(
    source: &Source<'_>,
    row: &mut Row,
    location: Option<SourceSpan>,
) -> Result<Option<VariableDefinition>, Memory>
    ensures { IfOk result (λ found. found ≡ spec.variable_made source.now.text.now source.now.file_id row.old location) }
{
    let Some(name) = name_there(source, joined(row.roles.variable))? else {
        return Ok(None);
    };
    let Some(ty) = row.singles.ty.take() else {
        return Ok(None);
    };
    Ok(Some(VariableDefinition {
        name,
        ty,
        default_value: joined(row.singles.default_value.take()),
        directives: listed(source.alloc, &mut row.groups.directives),
        location,
    }))
}
