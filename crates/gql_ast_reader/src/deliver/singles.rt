//! Types, values by default, descriptions and operation types, in the rows around them.

ghost use Rattle.std.specs.Prelude.{◌≡◌, OnOk};
ghost use Rattle.std.specs.Option.{option_map};
ghost use Rattle.gql_ast_base.specs.Types.{non_null};
ghost use Rattle.gql_ast_base.specs.declared.type_ref.TypeRef.{List as ListOf};
ghost use Rattle.gql_ast_reader.specs.bridge.Making as spec;
ghost use Rattle.gql_ast_reader.specs.bridge.Taking as taking;
ghost use Rattle.gql_ast_reader.specs.declared.part.Part.TheVariants as part;

use crate::make_root_operation::{make_operation, make_root_operation};
use crate::make_type::{make_list_type, make_non_null_type};
use crate::row::Row;
use crate::row::keeping::{add, keep_first, keep_some};
use gql_ast_base::Source;
use jb_text::Memory;

/// The operation type that an operation or a root operation is of.
pub(crate) fn deliver_operation(source: &Source<'_>, row: &Row, outer: &mut Row)
    ensures { outer.new ≡ taking.taken source.now.text.now source.now.file_id outer.old (part.Operation (spec.operation_made source.now.text.now row.now)) }
{
    keep_first(
        &mut outer.singles.operation,
        make_operation(source.text, row),
    );
}

/// A reference to a type.
pub(crate) fn deliver_type(source: &Source<'_>, row: &mut Row, outer: &mut Row)
    ensures { outer.new ≡ taking.taken source.now.text.now source.now.file_id outer.old (part.Type row.old.singles.form) }
{
    keep_first(&mut outer.singles.ty, row.singles.form.take());
}

/// A type that may not be null, as one way to refer to a type.
pub(crate) fn deliver_non_null_type(source: &Source<'_>, row: &mut Row, outer: &mut Row)
    ensures { outer.new ≡ taking.taken source.now.text.now source.now.file_id outer.old (part.Form (option_map non_null row.old.singles.form)) }
{
    keep_first(&mut outer.singles.form, make_non_null_type(row));
}

/// The value by default of a variable or an input.
pub(crate) fn deliver_default_value(source: &Source<'_>, row: &mut Row, outer: &mut Row)
    ensures { outer.new ≡ taking.taken source.now.text.now source.now.file_id outer.old (part.DefaultValue (spec.own_value row.old.own)) }
{
    keep_some(&mut outer.singles.default_value, row.own.take_value());
}

/// The description of a definition.
pub(crate) fn deliver_description(source: &Source<'_>, row: &mut Row, outer: &mut Row)
    ensures { outer.new ≡ taking.taken source.now.text.now source.now.file_id outer.old (part.Description (spec.own_text row.old.own)) }
{
    keep_some(&mut outer.singles.description, row.own.take_text());
}

/// A list type, as one way to refer to a type. `Err` only where memory runs out.
pub(crate) fn deliver_list_type(
    source: &Source<'_>,
    row: &mut Row,
    outer: &mut Row,
) -> Result<(), Memory>
    ensures { OnOk result (outer.new ≡ taking.taken source.now.text.now source.now.file_id outer.old (part.Form (option_map ListOf row.old.singles.ty))) }
{
    let found = make_list_type(source.alloc, row)?;
    keep_first(&mut outer.singles.form, found);
    Ok(())
}

/// An operation type and the type that its operations are on. `Err` only where memory runs out.
pub(crate) fn deliver_root_operation(
    source: &Source<'_>,
    row: &Row,
    outer: &mut Row,
) -> Result<(), Memory>
    ensures { OnOk result (outer.new ≡ taking.taken source.now.text.now source.now.file_id outer.old (part.RootOperation (spec.root_operation_made source.now.text.now source.now.file_id row.now))) }
{
    let found = make_root_operation(source, row)?;
    add(&mut outer.root_operations, source.alloc, found)
}
