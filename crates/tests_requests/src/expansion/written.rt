//! Selections as texts.

use gql_ast_base::{Directive, Name};
use gql_document_types::{Operation, Selection, SelectionSet};
use jb_text::Listed;
use std::alloc::Global;
use std::test::Fail;

/// The selections of an operation, with names and directives alone.
pub(crate) fn operation_text(alloc: Global, operation: &Operation) -> Result<String, Fail> {
    let mut text = String::new(alloc);
    write_set(&operation.selection_set, &mut text)?;
    Ok(text)
}

/// A set in braces, or nothing where it is empty.
#[cycle(written)]
fn write_set(set: &SelectionSet, text: &mut String) -> Result<(), Fail> {
    if set.selections.is_empty() {
        return Ok(());
    }
    text.push_str("{ ")?;
    for selection in set.selections.as_slice() {
        write_selection(selection, text)?;
    }
    text.push_str("} ")?;
    Ok(())
}

#[cycle(written)]
fn write_selection(selection: &Selection, text: &mut String) -> Result<(), Fail> {
    match selection {
        Selection::Field(field) => {
            write_word(field.name.as_str(), text)?;
            write_directives(&field.directives, text)?;
            write_set(&field.selection_set, text)
        }
        Selection::FragmentSpread(spread) => {
            text.push_str("...")?;
            write_word(spread.fragment_name.as_str(), text)
        }
        Selection::InlineFragment(fragment) => {
            write_condition(&fragment.type_condition, text)?;
            write_directives(&fragment.directives, text)?;
            write_set(&fragment.selection_set, text)
        }
    }
}

fn write_condition(condition: &Option<Name>, text: &mut String) -> Result<(), Fail> {
    text.push_str("... ")?;
    match condition {
        Some(name) => {
            text.push_str("on ")?;
            write_word(name.as_str(), text)
        }
        None => Ok(()),
    }
}

fn write_directives(directives: &Listed<Directive>, text: &mut String) -> Result<(), Fail> {
    for directive in directives.as_slice() {
        text.push_str("@")?;
        write_word(directive.name.as_str(), text)?;
    }
    Ok(())
}

fn write_word(word: &str, text: &mut String) -> Result<(), Fail> {
    text.push_str(word)?;
    text.push_str(" ")?;
    Ok(())
}
