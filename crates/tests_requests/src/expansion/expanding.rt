//! Inline fragments in the place of spreads, and limits (GraphQL October 2021, sections 2.8 and 2.8.2).

use crate::expansion::fixtures::expanded;
use std::alloc::Global;
use std::test::Fail;

const SCHEMA: &str =
    "type Query { f: Int node: Node } interface Node { id: Int } type User implements Node { id: Int }";

/// Queries, limits, and the selections without spreads.
const ROWS: &[(&str, usize, &str)] = &[
    ("{ f }", 1, "{ f } "),
    ("{ f }", 0, "too large"),
    (
        "{ ...F } fragment F on Query { f }",
        2,
        "{ ... on Query { f } } ",
    ),
    ("{ ...F } fragment F on Query { f }", 1, "too large"),
    (
        "{ f ...F @include(if: true) } fragment F on Query @skip(if: true) { f }",
        3,
        "{ f ... on Query @include { f } } ",
    ),
    (
        "{ node { ...N ... on User { id ...N } } } fragment N on Node { id ...U } fragment U on User { id }",
        11,
        "{ node { ... on Node { id ... on User { id } } ... on User { id ... on Node { id ... on User { id } } } } } ",
    ),
    (
        "{ node { ...N ... on User { id ...N } } } fragment N on Node { id ...U } fragment U on User { id }",
        10,
        "too large",
    ),
    (
        "{ ... @skip(if: false) { ...F ...None } } fragment F on Query { f }",
        3,
        "{ ... @skip { ... on Query { f } } } ",
    ),
];

#[test]
fn spreads_are_replaced(rt: HostRuntime) -> Result<(), Fail> {
    for (query, limit, wanted) in ROWS {
        let text = expanded(rt.alloc(), SCHEMA, query, *limit)?;
        assert_eq!(rt; text.as_str(), *wanted, "{query} within {limit}");
    }
    Ok(())
}

/// A query whose fragments each spread the one before twice, so many of them.
fn doubling(alloc: Global, fragments: usize) -> Result<String, Fail> {
    let mut text = format!(in alloc; "{{ ...F{fragments} }} fragment F0 on Query {{ f }}")?;
    for number in 0..fragments {
        let next = format!(in alloc;
            " fragment F{} on Query {{ ...F{number} ...F{number} }}",
            number + 1
        )?;
        text.push_str(next.as_str())?;
    }
    Ok(text)
}

#[test]
fn doubling_fragments_cost_their_text(rt: HostRuntime) -> Result<(), Fail> {
    let query = doubling(rt.alloc(), 30)?;
    let text = expanded(rt.alloc(), SCHEMA, query.as_str(), 1000)?;
    assert_eq!(rt; text.as_str(), "too large");
    Ok(())
}

#[test]
fn limits_are_exact(rt: HostRuntime) -> Result<(), Fail> {
    let query = doubling(rt.alloc(), 3)?;
    let within = expanded(rt.alloc(), SCHEMA, query.as_str(), 23)?;
    assert!(rt; within.as_str() != "too large");
    let past = expanded(rt.alloc(), SCHEMA, query.as_str(), 22)?;
    assert_eq!(rt; past.as_str(), "too large");
    Ok(())
}
