//! Selections, of what their rows keep.

ghost use Rattle.std.specs.Prelude.{◌≡◌, IfOk};
ghost use Rattle.std.specs.Option.{option_map};
ghost use Rattle.gql_ast.specs.declared.selection.Selection.{Field as a_field, InlineFragment as an_inline_fragment};
ghost use Rattle.gql_ast.specs.declared.selection.Selection.TheVariants.{FragmentSpread as a_spread};
ghost use Rattle.gql_ast_reader.specs.bridge.Making as spec;

use crate::found::{joined, listed};
use crate::place::name_there;
use crate::row::Row;
use gql_ast::{Field, FragmentSpread, InlineFragment, Selection};
use gql_ast_base::Source;
use gql_source::SourceSpan;
use jb_text::Memory;

/// A field. `Err` only where memory runs out.
pub(crate) fn make_field(
    source: &Source<'_>,
    row: &mut Row,
    location: Option<SourceSpan>,
) -> Result<Option<Selection>, Memory>
    ensures { IfOk result (λ found. found ≡ option_map a_field (spec.field_made source.now.text.now source.now.file_id row.old location)) }
{
    let Some(name) = name_there(source, row.words.one)? else {
        return Ok(None);
    };
    let alias = name_there(source, joined(row.roles.alias))?;
    Ok(Some(Selection::Field(Field {
        alias,
        name,
        arguments: listed(source.alloc, &mut row.groups.arguments),
        directives: listed(source.alloc, &mut row.groups.directives),
        selection_set: listed(source.alloc, &mut row.groups.selections),
        location,
    })))
}

/// A fragment by its name. `Err` only where memory runs out.
pub(crate) fn make_spread(
    source: &Source<'_>,
    row: &mut Row,
    location: Option<SourceSpan>,
) -> Result<Option<Selection>, Memory>
    ensures { IfOk result (λ found. found ≡ option_map a_spread (spec.spread_made source.now.text.now source.now.file_id row.old location)) }
{
    let Some(fragment_name) = name_there(source, joined(row.roles.fragment_name))? else {
        return Ok(None);
    };
    Ok(Some(Selection::FragmentSpread(FragmentSpread {
        fragment_name,
        directives: listed(source.alloc, &mut row.groups.directives),
        location,
    })))
}

/// A fragment in its place. `Err` only where memory runs out.
pub(crate) fn make_inline(
    source: &Source<'_>,
    row: &mut Row,
    location: Option<SourceSpan>,
) -> Result<Option<Selection>, Memory>
    ensures { IfOk result (λ found. found ≡ option_map an_inline_fragment (spec.inline_made source.now.text.now source.now.file_id row.old location)) }
{
    let type_condition = name_there(source, joined(row.roles.type_condition))?;
    let Some(selection_set) = row.groups.selections.take() else {
        return Ok(None);
    };
    Ok(Some(Selection::InlineFragment(InlineFragment {
        type_condition,
        directives: listed(source.alloc, &mut row.groups.directives),
        selection_set,
        location,
    })))
}
