//! The trees of texts, and what is left of them where a fault cuts them.

use crate::same::same;
use gql_cst::{Limits, Tree, parse_document};
use jb_text::Memory;
use std::alloc::Global;
use std::test::Fail;

const LIMITS: Limits = Limits {
    recursion: 500,
    tokens: None,
};

/// A tree's kind and its range.
fn step(alloc: Global, tree: &Tree) -> Result<String, Memory> {
    let kind = tree.kind();
    let range = tree.range();
    let start = range.start;
    let end = range.end;
    format!(in alloc; "{kind:?} {start}-{end};")
}

/// The trees on the way down, from the whole text to the last child of each node.
fn last_way(alloc: Global, root: &Tree) -> Result<String, Memory> {
    let mut way = String::new(alloc);
    let mut tree = root;
    for _ in 0..16 {
        way.push_str(step(alloc, tree)?.as_str())?;
        let Some(last) = tree.children().last() else {
            break;
        };
        tree = last;
    }
    Ok(way)
}

/// Texts, and the way down their trees.
const WAYS: &[(&str, &str)] = &[
    ("", "Document 0-0;"),
    ("{ a }  ", "Document 0-7;Ignored 5-7;"),
    (
        "{a {b]",
        "Document 0-5;Definition 0-5;OperationDefinition 0-5;SelectionSet 0-5;Selection 1-5;Field 1-5;SelectionSet 2-5;Selection 4-5;Field 4-5;Token 4-5;",
    ),
    (
        "{...F]",
        "Document 0-5;Definition 0-5;OperationDefinition 0-5;SelectionSet 0-5;Selection 1-5;FragmentSpread 1-5;FragmentName 4-5;Token 4-5;",
    ),
    (
        "{...]",
        "Document 0-4;Definition 0-4;OperationDefinition 0-4;SelectionSet 0-4;Selection 1-4;Token 1-4;",
    ),
    (
        "type A{a:B]",
        "Document 0-10;Definition 0-10;FieldsDefinition 6-10;FieldDefinition 7-10;TypeReference 9-10;NamedType 9-10;Token 9-10;",
    ),
];

fn way_of(alloc: Global, text: &str) -> Result<String, Memory> {
    let parsed = parse_document(alloc, text, &LIMITS)?;
    last_way(alloc, &parsed.tree)
}

#[test]
fn ways(rt: HostRuntime) -> Result<(), Fail> {
    for (text, wanted) in WAYS {
        same(&rt, text, way_of(rt.alloc(), text)?.as_str(), wanted);
    }
    Ok(())
}
