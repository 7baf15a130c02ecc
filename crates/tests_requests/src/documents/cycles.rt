//! Whether fragments lead back to themselves (GraphQL October 2021, section 5.5.2.2).

use crate::fixtures::{document_of, schema_of};
use gql_source::FileIds;
use std::alloc::Global;
use std::test::Fail;

/// Queries, and whether no fragment of theirs leads back to itself.
const ROWS: &[(&str, bool)] = &[
    ("{ f }", true),
    (
        "{ ...F ...F } fragment F on Query { ...G f ...G } fragment G on Query { f }",
        true,
    ),
    ("{ ...F } fragment F on Query { ...Missing }", true),
    ("{ ...F } fragment F on Query { f ...F }", false),
    (
        "{ f } fragment F on Query { ... { ...G } } fragment G on Query { q { ...F } }",
        false,
    ),
    (
        "{ ...F } fragment F on Query { ...G } fragment G on Query { f } fragment H on Query { ...F ...H }",
        false,
    ),
    (
        "{ ...F } fragment F on Query { ...G } fragment G on Query { ...H } fragment H on Query { ...G }",
        false,
    ),
];

fn is_acyclic(alloc: Global, query: &str) -> Result<bool, Fail> {
    let mut ids = FileIds::new();
    let schema = schema_of(alloc, "type Query { f: Int q: Query }", &mut ids)?;
    let document = document_of(alloc, &*schema, query, &mut ids)?;
    Ok(document.as_ref().fragments_acyclic(alloc)?)
}

#[test]
fn cycles_of_fragments_are_found(rt: HostRuntime) -> Result<(), Fail> {
    for (query, acyclic) in ROWS {
        let found = is_acyclic(rt.alloc(), query)?;
        assert_eq!(rt; found, *acyclic, "{query:?}");
    }
    Ok(())
}
