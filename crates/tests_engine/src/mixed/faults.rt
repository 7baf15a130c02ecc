//! What is told of a text: that of the first phase that finds something, and nothing of those behind it (GraphQL October 2021,
//! sections 2, 3 and 5).

use crate::mixed::told_otherwise;
use std::test::Fail;

/// Texts that are a schema and a document.
const GOOD: &[(&str, &str)] = &[
    ("type Query { a: Int } { a }", ""),
    (
        "{ ...F } fragment F on Query { a b } extend type Query { b: Int } type Query { a: Int }",
        "",
    ),
    ("type Query { a: Int }", ""),
    (
        "schema { query: R } type R { a: Int } directive @d on FIELD query A { a @d } query B { __schema { queryType { name } } }",
        "",
    ),
    (
        "type Query { a(x: Float): Int } query ($v: Float) { a(x: $v) }",
        "",
    ),
];

#[test]
fn nothing_is_told_of_good_texts(rt: HostRuntime) -> Result<(), Fail> {
    let wrong = told_otherwise(rt.alloc(), GOOD)?;
    assert_eq!(rt; wrong.as_str(), "");
    Ok(())
}

/// Texts that are no sentences, and the reports. What was read before is not looked at.
const NO_SENTENCES: &[(&str, &str)] = &[
    ("", "Error: syntax error: Unexpected <EOF>.\na:1:1: here\n"),
    (
        "type Query { a: Int } { a",
        "Error: syntax error: Unexpected <EOF>.\na:1:26: here\n",
    ),
    (
        "type Query { a: Int }\ntype Query { a: Nothing }\n{ b(",
        "Error: syntax error: Unexpected <EOF>.\na:3:5: here\n",
    ),
    (
        "type Query { a: Int } ? { a }",
        "Error: syntax error: unexpected character\na:1:23: here\n",
    ),
];

#[test]
fn the_first_fault_of_the_syntax_is_told_alone(rt: HostRuntime) -> Result<(), Fail> {
    let wrong = told_otherwise(rt.alloc(), NO_SENTENCES)?;
    assert_eq!(rt; wrong.as_str(), "");
    Ok(())
}

/// Texts that one of the builds, or both, find a fault of, and the reports.
const NOT_BUILT: &[(&str, &str)] = &[
    // The schema.
    (
        "type Query { a: Int a: Int } { a }",
        "Error: duplicate definitions for the `a` field of `Query`\na:1:21: here\na:1:14: previous definition here\n",
    ),
    (
        "type Query { a: Int }\nextend type X { b: Int }\n{ a }",
        "Error: type extension for undefined type `X`\na:2:13: here\n",
    ),
    // The document.
    (
        "type Query { a: Int }\nmutation { a }",
        "Error: `mutation` root operation type is not defined\n\
         a:2:1: `mutation` is not defined in the schema and is therefore not supported\n",
    ),
    (
        "type Query { a: Int }\nquery A { a }\nquery A { b }",
        "Error: the operation `A` is defined multiple times in the document\na:3:7: here\na:2:7: previous definition here\n",
    ),
    // Both, by their places.
    (
        "type Query { a: Int }\ntype Query { b: Int }\n{ b }",
        "Error: the type `Query` is defined multiple times in the schema\na:2:6: here\na:1:6: previous definition here\n\
         Error: type `Query` does not have a field `b`\na:3:3: here\n",
    ),
    (
        "{ b }\ntype Query { a: Int }\nscalar Int",
        "Error: type `Query` does not have a field `b`\na:1:3: here\n\
         Error: built-in scalar definitions must be omitted\na:3:1: here\n",
    ),
    // No rule is checked then.
    (
        "type Query { a: Nothing }\n{ b @d }",
        "Error: type `Query` does not have a field `b`\na:2:3: here\n",
    ),
    (
        "type Query { a: Nothing }\nscalar Int\n{ a @d }",
        "Error: built-in scalar definitions must be omitted\na:2:1: here\n",
    ),
];

#[test]
fn the_faults_of_both_builds_are_told(rt: HostRuntime) -> Result<(), Fail> {
    let wrong = told_otherwise(rt.alloc(), NOT_BUILT)?;
    assert_eq!(rt; wrong.as_str(), "");
    Ok(())
}

/// Texts that break a rule on schemas, and the reports.
const SCHEMA_RULES: &[(&str, &str)] = &[
    (
        "type Query { a: Nothing } { a }",
        "Error: cannot find type `Nothing` in this document\na:1:17: here\n",
    ),
    (
        "type T { a: Int }",
        "Error: missing query root operation type\n",
    ),
    (
        "{ a }\nunion U\ntype Query { a: Nothing }",
        "Error: `U` must not be empty\na:2:7: here\n\
         Error: cannot find type `Nothing` in this document\na:3:17: here\n",
    ),
    // The rules on documents are not checked then.
    (
        "type Query { a: Nothing }\n{ a @d ...F }",
        "Error: cannot find type `Nothing` in this document\na:1:17: here\n",
    ),
];

#[test]
fn broken_rules_on_schemas_are_told(rt: HostRuntime) -> Result<(), Fail> {
    let wrong = told_otherwise(rt.alloc(), SCHEMA_RULES)?;
    assert_eq!(rt; wrong.as_str(), "");
    Ok(())
}

/// Texts that break a rule on documents, and the reports.
const DOCUMENT_RULES: &[(&str, &str)] = &[
    (
        "type Query { a: Int }\n{ a @d }",
        "Error: cannot find directive `@d` in this document\na:2:5: here\n",
    ),
    (
        "query ($v: Int) { a }\ntype Query { a(x: Int!): Int }\nfragment F on Query { a(x: 1) }",
        "Error: unused variable: `$v`\na:1:8: here\n\
         Error: the required argument `x` is not provided\na:1:19: here\n\
         Error: fragment `F` must be used in an operation\na:3:1: here\n",
    ),
    // Spreads that lead nowhere are told alone.
    (
        "type Query { a: Int }\n{ a @d ...F }",
        "Error: cannot find fragment `F` in this document\na:2:8: here\n",
    ),
    // The schema is as its validation leaves it: a scalar that it does not name is not there.
    (
        "type Query { a(x: Int): Int }\nquery ($v: Float) { a(x: $v) }",
        "Error: cannot find type `Float` in this document\na:2:12: here\n",
    ),
];

#[test]
fn broken_rules_on_documents_are_told(rt: HostRuntime) -> Result<(), Fail> {
    let wrong = told_otherwise(rt.alloc(), DOCUMENT_RULES)?;
    assert_eq!(rt; wrong.as_str(), "");
    Ok(())
}
