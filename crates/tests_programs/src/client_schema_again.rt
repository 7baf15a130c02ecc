//! Schemas that give themselves again, one thing that a schema can have at a time, and those that do not: what defines or extends
//! something built in, and what wraps a type more than eight times.

use crate::client_schema_round_trips::answer_of;
use gql_client_schema::{ClientFault, client_schema};
use jb_text::Refused;
use std::alloc::Global;
use std::test::Fail;

/// What comes of a schema's answer.
#[derive(Clone, Copy, Debug, PartialEq, Eq)]
enum Outcome {
    /// The schema that is read back gives the answer again.
    Same,
    /// It gives another.
    Other,
    /// The answer is refused for its shape.
    Unshaped,
    /// Its schema is refused.
    Wrong,
}

const ALIKE: [&str; 30] = [
    "schema { query: Mutation mutation: Query } type Query { f: Int } type Mutation { g: Int }",
    "extend schema { subscription: S } type S { g: Int } type Query { f: Int }",
    "schema @d { query: Q } directive @d repeatable on SCHEMA extend schema @d @d type Q { f: Int } type Query { g: Int }",
    "\"\" schema { query: Q } \"\"\"\n  two\n    lines\r\n\"\"\" type Q { \"\\u0000\\u007f\\ud83d\\ude00\\\\\\\"\\/\\b\\f\\n\\r\\t\" f: Int }",
    "type Query { f: Int @deprecated(reason: null) g: Int @deprecated(reason: \"\") h(a: Int @deprecated): Int }",
    "type Query { f: Int @deprecated(reason: \"\"\" a\n   b \"\"\") } enum E { A @deprecated B }",
    "input I { a: Int @deprecated b: Int! = 3 @deprecated(reason: null) } type Query { f(i: I): Int }",
    "directive @d(a: Int @deprecated, b: E = A) repeatable on FIELD | FIELD_DEFINITION type Query { f: Int @d @d(a: 4) } enum E { A }",
    "type Query { f(a: [Int] = 1, b: [[Int]] = [1, [2, null], null]): Int }",
    "type Query { f(a: Float = -0.0, b: Float = 1E5, c: Float = 1, d: Int = -0, e: ID = 12345678901234567890123): Int }",
    "type Query { f(a: S = {a: [1e400, x, \"s\", true, null, {}], b: []}, b: S = on): Int } scalar S",
    "type Query { f(a: String = \"\"\"\n  x\n    \\\"\"\" y\n\"\"\", b: String = \"\\u2028\\ufeff\"): Int }",
    "enum E { type query on null_ implements } type Query { f(a: [E!]! = [type, on]): E }",
    "type Query { f(i: I = {c: {}, a: 2, b: null}): Int } input I { a: Int = 1 b: E = A c: I } enum E { A }",
    "input O @oneOf { a: Int b: O c: [O!] } extend input O { d: ID } type Query { f(o: O = {a: 1}): Int }",
    "input O { a: Int } extend input O @oneOf type Query { f(o: O): Int }",
    "scalar S @specifiedBy(url: \"https://e/\\\"x\\\"\") scalar T extend scalar T @specifiedBy(url: \"\") type Query { s: S t: T }",
    "interface A { a: A } interface B implements A { a: B } type Query implements A & B { a: Query! b(c: Int = 1): Int }",
    "extend interface I { b: Int } interface I { a: Int } type Query implements I { a: Int } extend type Query { b: Int! }",
    "interface J { b: Int } type Query implements I { a: Int } extend type Query implements J { b: Int } interface I { a: Int }",
    "union U = | Query | B extend union U = C type B { x: Int } type C { y: Int } type Query { u: U }",
    "type Query { f: [[[[[[[[Int]]]]]]]] g: [[[[Int!]!]!]!] h(a: [[[Int!]!]!]!): Int }",
    "type Query { f: __Type g: [__TypeKind!]! h(a: __DirectiveLocation = FIELD): __Schema } union U = __Type | __Field",
    "type Query { f: String } directive @d(a: ID, b: [Float!]) on FIELD",
    "type Query { f: String @d(a: 1) } directive @d(a: S) on FIELD_DEFINITION scalar S",
    "scalar on scalar true type type { type(query: on): type } schema { query: type } directive @repeatable on FIELD",
    "directive @a(x: Int @b) on FIELD directive @b(x: Int @c) on ARGUMENT_DEFINITION directive @c on ARGUMENT_DEFINITION type Query { f: Int }",
    "scalar S\nscalar T\n\"e\" enum E { \"A\" A \"\"\"B\"\"\" B }\ntype Query { f(\"a\" a: Int, \"b\" b: [S]): E \"g\" g: Int }",
    "extend scalar String @d directive @d on SCALAR type Query { f: String }",
    "directive @skip(if: Boolean!) on FIELD | FRAGMENT_SPREAD | INLINE_FRAGMENT type Query { f: Int }",
];

/// A schema, and what comes of its answer.
struct Row {
    schema: &'static str,
    outcome: Outcome,
}

const OTHERS: [Row; 6] = [
    Row {
        schema: "directive @deprecated on FIELD_DEFINITION type Query { f: Int @deprecated }",
        outcome: Outcome::Other,
    },
    Row {
        schema: "directive @oneOf(a: Int) on INPUT_OBJECT input I @oneOf(a: 1) { a: Int } type Query { f(i: I): Int }",
        outcome: Outcome::Other,
    },
    Row {
        schema: "extend type __Type { more: Int } type Query { f: Int }",
        outcome: Outcome::Other,
    },
    Row {
        schema: "extend scalar ID @specifiedBy(url: \"x\") type Query { f: ID }",
        outcome: Outcome::Other,
    },
    Row {
        schema: "type Query { f: [[[[[[[[[Int]]]]]]]]] }",
        outcome: Outcome::Unshaped,
    },
    Row {
        schema: "type Query { f(a: [[[[Int!]!]!]!]!): Int }",
        outcome: Outcome::Unshaped,
    },
];

/// What comes of the schema's answer.
fn outcome_of(alloc: Global, schema: &str) -> Result<Outcome, Fail> {
    let answer = answer_of(alloc, schema)?;
    match client_schema(alloc, &answer) {
        Ok(made) if made.same => Ok(Outcome::Same),
        Ok(_) => Ok(Outcome::Other),
        Err(Refused::Fault(ClientFault::Schema(_))) => Ok(Outcome::Wrong),
        Err(Refused::Fault(_)) => Ok(Outcome::Unshaped),
        Err(Refused::Memory) => Err(Fail::from("memory ran out")),
    }
}

#[test]
fn schemas_give_themselves_again(rt: HostRuntime) -> Result<(), Fail> {
    for schema in &ALIKE {
        assert_eq!(rt; outcome_of(rt.alloc(), schema)?, Outcome::Same, "{schema}");
    }
    Ok(())
}

#[test]
fn what_is_built_in_and_deep_wrappers_are_left_aside(rt: HostRuntime) -> Result<(), Fail> {
    for row in &OTHERS {
        assert_eq!(rt;
            outcome_of(rt.alloc(), row.schema)?,
            row.outcome,
            "{}",
            row.schema
        );
    }
    Ok(())
}
