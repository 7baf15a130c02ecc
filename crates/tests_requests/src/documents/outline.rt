//! What documents hold, as texts: the names of operations and fragments with their types, and what is selected in them, two
//! levels deep.

use gql_document_types::{ExecutableDocument, Fragment, Operation, Selection, SelectionSet};
use jb_text::Memory;

/// Adds the operations of a document, and its fragments.
pub(crate) fn add_document(text: &mut String, document: &ExecutableDocument) -> Result<(), Memory> {
    for operation in document.operations.as_slice() {
        add_operation(text, operation)?;
    }
    add_fragments(text, document.fragments.as_slice())
}

fn add_fragments(text: &mut String, fragments: &[Fragment]) -> Result<(), Memory> {
    for fragment in fragments {
        add_fragment(text, fragment)?;
    }
    Ok(())
}

/// Adds an operation, which is told as `-` where it has no name.
pub(crate) fn add_operation(text: &mut String, operation: &Operation) -> Result<(), Memory> {
    match &operation.name {
        Some(name) => add_definition(text, name.as_str(), &operation.selection_set),
        None => add_definition(text, "-", &operation.selection_set),
    }
}

pub(crate) fn add_fragment(text: &mut String, fragment: &Fragment) -> Result<(), Memory> {
    add_definition(text, fragment.name.as_str(), &fragment.selection_set)
}

fn add_definition(text: &mut String, name: &str, set: &SelectionSet) -> Result<(), Memory> {
    text.push_str(name)?;
    text.push_str(" on ")?;
    text.push_str(set.ty.as_str())?;
    text.push_str(":")?;
    for selection in set.selections.as_slice() {
        add_selection(text, selection)?;
    }
    text.push_str("; ")
}

/// Adds a selection behind a blank, and between braces what stands right below it.
pub(crate) fn add_selection(text: &mut String, selection: &Selection) -> Result<(), Memory> {
    add_name(text, selection)?;
    match below(selection) {
        Some(set) => add_names(text, set.selections.as_slice()),
        None => Ok(()),
    }
}

fn add_names(text: &mut String, selections: &[Selection]) -> Result<(), Memory> {
    text.push_str(" {")?;
    for selection in selections {
        add_name(text, selection)?;
    }
    text.push_str(" }")
}

fn add_name(text: &mut String, selection: &Selection) -> Result<(), Memory> {
    text.push_str(" ")?;
    text.push_str(name_of(selection))
}

fn name_of(selection: &Selection) -> &str {
    match selection {
        Selection::Field(field) => field.name.as_str(),
        Selection::FragmentSpread(spread) => spread.fragment_name.as_str(),
        Selection::InlineFragment(_) => "...",
    }
}

/// The selections below a selection, where there are any.
fn below(selection: &Selection) -> Option<&SelectionSet> {
    match selection {
        Selection::Field(field) if field.selection_set.selections.is_empty() => None,
        Selection::Field(field) => Some(&field.selection_set),
        Selection::FragmentSpread(_) => None,
        Selection::InlineFragment(fragment) => Some(&fragment.selection_set),
    }
}
