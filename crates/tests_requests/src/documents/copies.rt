//! Copies of documents' parts.

use crate::documents::outline::{add_fragment, add_operation, add_selection};
use crate::fixtures::{bytes_of, document_of, schema_of};
use bytes::Bytes;
use gql_ast_base::Copying;
use gql_document_types::{ExecutableDocument, Selection};
use gql_source::FileIds;
use jb_text::Memory;
use std::alloc::Global;
use std::mem::ManuallyDrop;
use std::test::Fail;

const SCHEMA: &str = "type Query { f: Int q: Query }";

const QUERY: &str =
    "query A { k: q { f } ...F ... on Query { f } } fragment F on Query { q { f } }";

/// Adds what the copy of a selection is, and of what it is.
fn add_copy(alloc: Global, text: &mut String, selection: &Selection) -> Result<(), Memory> {
    let copy = ManuallyDrop::new(selection.copy(alloc)?);
    add_selection(text, &copy)?;
    match selection {
        Selection::Field(field) => {
            let copy = ManuallyDrop::new(Selection::Field(field.copy(alloc)?));
            add_selection(text, &copy)
        }
        Selection::FragmentSpread(spread) => {
            let copy = ManuallyDrop::new(Selection::FragmentSpread(spread.copy(alloc)?));
            add_selection(text, &copy)
        }
        Selection::InlineFragment(fragment) => {
            let copy = ManuallyDrop::new(Selection::InlineFragment(fragment.copy(alloc)?));
            add_selection(text, &copy)
        }
    }
}

/// Adds what copies of the selections of a set are.
fn add_copies(alloc: Global, text: &mut String, selections: &[Selection]) -> Result<(), Memory> {
    for selection in selections {
        add_copy(alloc, text, selection)?;
    }
    Ok(())
}

/// What the copies of an operation and of a fragment are, and those of the operation's selections.
fn copied(alloc: Global, document: &ExecutableDocument) -> Result<Bytes, Fail> {
    let mut text = String::new(alloc);
    let (Some(operation), Some(fragment)) = (
        document.operations.as_slice().first(),
        document.fragments.as_slice().first(),
    ) else {
        return Err("no operation or no fragment")?;
    };
    add_operation(&mut text, &ManuallyDrop::new(operation.copy(alloc)?))?;
    add_fragment(&mut text, &ManuallyDrop::new(fragment.copy(alloc)?))?;
    let set = ManuallyDrop::new(operation.selection_set.copy(alloc)?);
    add_copies(alloc, &mut text, set.selections.as_slice())?;
    Ok(bytes_of(alloc, text.as_str())?)
}

fn copied_parts(alloc: Global) -> Result<Bytes, Fail> {
    let mut ids = FileIds::new();
    let schema = schema_of(alloc, SCHEMA, &mut ids)?;
    let document = document_of(alloc, &*schema, QUERY, &mut ids)?;
    copied(alloc, document.as_ref())
}

#[test]
fn copies_are_the_same(rt: HostRuntime) -> Result<(), Fail> {
    let found = copied_parts(rt.alloc())?;
    let wanted =
        "A on Query: q { f } F ... { f }; F on Query: q { f };  q { f } q { f } F F ... { f } ... { f }";
    assert_eq!(rt; found.as_slice(), wanted.as_bytes());
    Ok(())
}
