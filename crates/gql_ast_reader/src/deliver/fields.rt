//! Variables, input values, fields and enum values, in the rows around them.

ghost use Rattle.std.specs.Prelude.{◌≡◌, OnOk};
ghost use Rattle.gql_ast_reader.specs.bridge.Making as spec;
ghost use Rattle.gql_ast_reader.specs.bridge.Taking as taking;
ghost use Rattle.gql_ast_reader.specs.declared.part.Item.TheVariants as item;
ghost use Rattle.gql_ast_reader.specs.declared.part.Part.TheVariants as part;

use crate::make_field::{make_enum_value, make_field_definition, make_input};
use crate::make_variable::make_variable;
use crate::row::Row;
use gql_ast_base::Source;
use gql_source::SourceSpan;
use jb_text::Memory;

/// A variable that an operation takes. `Err` only where memory runs out.
pub(crate) fn deliver_variable(
    source: &Source<'_>,
    row: &mut Row,
    outer: &mut Row,
    location: Option<SourceSpan>,
) -> Result<(), Memory>
    ensures { OnOk result (outer.new ≡ taking.taken source.now.text.now source.now.file_id outer.old (part.Item (item.Variable (spec.variable_made source.now.text.now source.now.file_id row.old location)))) }
{
    let found = make_variable(source, row, location)?;
    outer.own.take_in_variable(source.alloc, found)
}

/// An argument of a field or a directive, or a field of an input object type. `Err` only where memory runs out.
pub(crate) fn deliver_input(
    source: &Source<'_>,
    row: &mut Row,
    outer: &mut Row,
    location: Option<SourceSpan>,
) -> Result<(), Memory>
    ensures { OnOk result (outer.new ≡ taking.taken source.now.text.now source.now.file_id outer.old (part.Item (item.Input (spec.input_made source.now.text.now source.now.file_id row.old location)))) }
{
    let found = make_input(source, row, location)?;
    outer.own.take_in_input(source.alloc, found)
}

/// A field of an object type or an interface type. `Err` only where memory runs out.
pub(crate) fn deliver_field_definition(
    source: &Source<'_>,
    row: &mut Row,
    outer: &mut Row,
    location: Option<SourceSpan>,
) -> Result<(), Memory>
    ensures { OnOk result (outer.new ≡ taking.taken source.now.text.now source.now.file_id outer.old (part.Item (item.Field (spec.field_definition_made source.now.text.now source.now.file_id row.old location)))) }
{
    let found = make_field_definition(source, row, location)?;
    outer.own.take_in_field(source.alloc, found)
}

/// A value of an enum type. `Err` only where memory runs out.
pub(crate) fn deliver_enum_value(
    source: &Source<'_>,
    row: &mut Row,
    outer: &mut Row,
    location: Option<SourceSpan>,
) -> Result<(), Memory>
    ensures { OnOk result (outer.new ≡ taking.taken source.now.text.now source.now.file_id outer.old (part.Item (item.EnumValue (spec.enum_value_made source.now.text.now source.now.file_id row.old location)))) }
{
    let found = make_enum_value(source, row, location)?;
    outer.own.take_in_enum_value(source.alloc, found)
}
