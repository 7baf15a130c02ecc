//! Operations and fragments, of what their rows keep.

ghost use Rattle.std.specs.Prelude.{◌≡◌, IfOk};
ghost use Rattle.std.specs.Option.{option_map};
ghost use Rattle.gql_ast.specs.declared.definition.Definition.TheVariants as definition;
ghost use Rattle.gql_ast_reader.specs.bridge.Making as spec;

use crate::found::{joined, listed};
use crate::place::name_there;
use crate::row::Row;
use gql_ast::{Definition, FragmentDefinition, OperationDefinition};
use gql_ast_base::{OperationType, Source};
use gql_source::SourceSpan;
use jb_text::Memory;

/// An operation: a query where nothing says which. `Err` only where memory runs out.
pub(crate) fn make_operation_definition(
    source: &Source<'_>,
    row: &mut Row,
    location: Option<SourceSpan>,
) -> Result<Option<Definition>, Memory>
    ensures { IfOk result (λ found. found ≡ option_map definition.OperationDefinition (spec.operation_definition_made source.now.text.now source.now.file_id row.old location)) }
{
    let Some(selection_set) = row.groups.selections.take() else {
        return Ok(None);
    };
    let name = name_there(source, row.words.one)?;
    Ok(Some(Definition::OperationDefinition(OperationDefinition {
        operation_type: row.singles.operation.unwrap_or(OperationType::Query),
        name,
        variables: listed(source.alloc, &mut row.groups.variables),
        directives: listed(source.alloc, &mut row.groups.directives),
        selection_set,
        location,
    })))
}

/// A fragment with a name. `Err` only where memory runs out.
pub(crate) fn make_fragment(
    source: &Source<'_>,
    row: &mut Row,
    location: Option<SourceSpan>,
) -> Result<Option<Definition>, Memory>
    ensures { IfOk result (λ found. found ≡ option_map definition.FragmentDefinition (spec.fragment_made source.now.text.now source.now.file_id row.old location)) }
{
    let Some(selection_set) = row.groups.selections.take() else {
        return Ok(None);
    };
    let Some(name) = name_there(source, joined(row.roles.fragment_name))? else {
        return Ok(None);
    };
    let Some(type_condition) = name_there(source, joined(row.roles.type_condition))? else {
        return Ok(None);
    };
    Ok(Some(Definition::FragmentDefinition(FragmentDefinition {
        name,
        type_condition,
        directives: listed(source.alloc, &mut row.groups.directives),
        selection_set,
        location,
    })))
}
