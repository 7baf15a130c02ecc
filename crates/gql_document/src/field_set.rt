//! Sets of fields.

ghost use Rattle.gql_diag.specs.Judged.{IsJudged};
ghost use Rattle.gql_document.specs.FieldSets as spec;

use crate::built_selections::built_set;
use crate::judged::judged;
use crate::selection_faults::list_selection_faults;
use gql_ast::Selection;
use gql_ast_base::{Copying, Name};
use gql_diag::{DiagnosticList, WithErrors, add_items};
use gql_document_types::FieldSet;
use gql_schema_types::Schema;
use jb_text::{Listed, Memory, Refused};
use std::alloc::Global;

/// The set that selections make on the type of this name, with the files of the list. Nothing in it is checked by the rules
/// of documents, and spreads are not looked up.
///
/// # Errors
///
/// The faults of the list and those of the selections, sorted as [`DiagnosticList::sort`] does, exactly where there are any;
/// beside them the set without what they list. Otherwise only when out of memory.
pub fn build_field_set(
    alloc: Global,
    schema: &Schema,
    type_name: &Name,
    selections: &Listed<Selection>,
    errors: DiagnosticList,
) -> Result<FieldSet, Refused<WithErrors<FieldSet>>>
    ensures { IsJudged (spec.built schema.now type_name.now selections.now errors.sources) errors.sources (spec.all_faults schema.now type_name.now selections.now errors) result }
{
    let (sources, items) = errors.into_parts();
    let mut faults = Listed::new(alloc);
    add_items(items, &mut faults)?;
    list_selection_faults(alloc, schema, type_name, selections, &mut faults)?;
    let selection_set = built_set(
        alloc,
        schema,
        type_name.copy(alloc)?,
        selections.copy(alloc)?,
    )?;
    let set = FieldSet {
        sources,
        selection_set,
    };
    judged(alloc, set, faults)
}
