//! Selections, arguments and directives, in the rows around them.

ghost use Rattle.std.specs.Prelude.{◌≡◌, OnOk};
ghost use Rattle.std.specs.Option.{option_map};
ghost use Rattle.gql_ast.specs.declared.selection.Selection.{Field as a_field, InlineFragment as an_inline_fragment};
ghost use Rattle.gql_ast.specs.declared.selection.Selection.TheVariants.{FragmentSpread as a_spread};
ghost use Rattle.gql_ast_reader.specs.bridge.Making as spec;
ghost use Rattle.gql_ast_reader.specs.bridge.Taking as taking;
ghost use Rattle.gql_ast_reader.specs.declared.part.Item.TheVariants as item;
ghost use Rattle.gql_ast_reader.specs.declared.part.Part.TheVariants as part;

use crate::make_directive::{make_argument, make_directive};
use crate::make_selection::{make_field, make_inline, make_spread};
use crate::row::Row;
use gql_ast_base::Source;
use gql_source::SourceSpan;
use jb_text::Memory;

/// An argument. `Err` only where memory runs out.
pub(crate) fn deliver_argument(
    source: &Source<'_>,
    row: &mut Row,
    outer: &mut Row,
    location: Option<SourceSpan>,
) -> Result<(), Memory>
    ensures { OnOk result (outer.new ≡ taking.taken source.now.text.now source.now.file_id outer.old (part.Item (item.Argument (spec.argument_made source.now.text.now source.now.file_id row.old location)))) }
{
    let found = make_argument(source, row, location)?;
    outer.own.take_in_argument(source.alloc, found)
}

/// A directive. `Err` only where memory runs out.
pub(crate) fn deliver_directive(
    source: &Source<'_>,
    row: &mut Row,
    outer: &mut Row,
    location: Option<SourceSpan>,
) -> Result<(), Memory>
    ensures { OnOk result (outer.new ≡ taking.taken source.now.text.now source.now.file_id outer.old (part.Item (item.Directive (spec.directive_made source.now.text.now source.now.file_id row.old location)))) }
{
    let found = make_directive(source, row, location)?;
    outer.own.take_in_directive(source.alloc, found)
}

/// A field, as the way to select. `Err` only where memory runs out.
pub(crate) fn deliver_field(
    source: &Source<'_>,
    row: &mut Row,
    outer: &mut Row,
    location: Option<SourceSpan>,
) -> Result<(), Memory>
    ensures { OnOk result (outer.new ≡ taking.taken source.now.text.now source.now.file_id outer.old (part.Item (item.Choice (option_map a_field (spec.field_made source.now.text.now source.now.file_id row.old location))))) }
{
    let found = make_field(source, row, location)?;
    outer.own.take_in_choice(found);
    Ok(())
}

/// A fragment by its name, as the way to select. `Err` only where memory runs out.
pub(crate) fn deliver_spread(
    source: &Source<'_>,
    row: &mut Row,
    outer: &mut Row,
    location: Option<SourceSpan>,
) -> Result<(), Memory>
    ensures { OnOk result (outer.new ≡ taking.taken source.now.text.now source.now.file_id outer.old (part.Item (item.Choice (option_map a_spread (spec.spread_made source.now.text.now source.now.file_id row.old location))))) }
{
    let found = make_spread(source, row, location)?;
    outer.own.take_in_choice(found);
    Ok(())
}

/// A fragment in its place, as the way to select. `Err` only where memory runs out.
pub(crate) fn deliver_inline(
    source: &Source<'_>,
    row: &mut Row,
    outer: &mut Row,
    location: Option<SourceSpan>,
) -> Result<(), Memory>
    ensures { OnOk result (outer.new ≡ taking.taken source.now.text.now source.now.file_id outer.old (part.Item (item.Choice (option_map an_inline_fragment (spec.inline_made source.now.text.now source.now.file_id row.old location))))) }
{
    let found = make_inline(source, row, location)?;
    outer.own.take_in_choice(found);
    Ok(())
}

/// A selection. `Err` only where memory runs out.
pub(crate) fn deliver_selection(
    source: &Source<'_>,
    row: &mut Row,
    outer: &mut Row,
) -> Result<(), Memory>
    ensures { OnOk result (outer.new ≡ taking.taken source.now.text.now source.now.file_id outer.old (part.Item (item.Selection (spec.own_choice row.old.own)))) }
{
    let found = row.own.take_choice();
    outer.own.take_in_selection(source.alloc, found)
}
