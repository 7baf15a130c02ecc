//! Schemas that are introspected, read back and introspected again.

ghost use Rattle.gql_document_types.specs.Spreads.{AreAcyclic};

use bytes::Bytes;
use gql_client_schema::{FULL_QUERY, client_schema};
use gql_engine::{
    ExecutableDocument, Schema, Valid, document_of_text, partial_execute, schema_of_text,
};
use jb_tree::Map;
use std::alloc::Global;
use std::test::Fail;

/// The text of a schema, and the text that is made of its answer.
struct Row {
    schema: &'static str,
    text: &'static str,
}

const ROWS: [Row; 8] = [
    Row {
        schema: "type Query { f: Int }",
        text: "schema { query: Query }\ntype Query { f: Int }\n",
    },
    Row {
        schema: "\"d\" type Query { f(a: [Int!] = [1,2]): E @deprecated(reason: \"x\") } enum E { A B }",
        text: "schema { query: Query }\n\
            \"d\" type Query { f(a: [Int!] = [1, 2]): E @deprecated(reason: \"x\") }\nenum E { A B }\n",
    },
    Row {
        schema: "\"\"\"of\n  two\"\"\" schema { query: Q subscription: S } type Q { f: ID } type S { g: ID } type Mutation { h: ID }",
        text: "\"of\\ntwo\" schema { query: Q subscription: S }\ntype Q { f: ID }\ntype S { g: ID }\ntype Mutation { h: ID }\n",
    },
    Row {
        schema: "type Query implements A & B { f(a: Int! = 1, b: String): [[Int!]]! } interface A implements B { f(a: Int!): [[Int]]! } \
            interface B { f(a: Int!): [[Int]] }",
        text: "schema { query: Query }\ntype Query implements A & B { f(a: Int! = 1, b: String): [[Int!]]! }\n\
            interface A implements B { f(a: Int!): [[Int]]! }\ninterface B { f(a: Int!): [[Int]] }\n",
    },
    Row {
        schema: "type Query { u: U } union U = Query | T type T { s: S } scalar S @specifiedBy(url: \"https://s\")",
        text: "schema { query: Query }\ntype Query { u: U }\nunion U = Query | T\ntype T { s: S }\n\
            scalar S @specifiedBy(url: \"https://s\")\n",
    },
    Row {
        schema: "type Query { f(i: I, o: O = {a: 1}): Int } input I { a: Float = 1.5e3 b: I = {a: 2, b: null} c: String = \"\\\"q\\u00e9\" } \
            input O @oneOf { a: Int b: Int @deprecated }",
        text: "schema { query: Query }\ntype Query { f(i: I, o: O = {a: 1}): Int }\n\
            input I { a: Float = 1.5e3 b: I = {a: 2, b: null} c: String = \"\\\"q\u{e9}\" }\n\
            input O @oneOf { a: Int b: Int @deprecated(reason: \"No longer supported\") }\n",
    },
    Row {
        schema: "directive @d(a: Int = 1 @deprecated(reason: null), b: [E]) repeatable on FIELD | ENUM_VALUE \
            \"e\" directive @e on SCHEMA type Query @f { f: E } enum E { A @d B @deprecated } directive @f on OBJECT",
        text: "schema { query: Query }\n\
            directive @d(a: Int = 1 @deprecated(reason: null), b: [E]) repeatable on FIELD | ENUM_VALUE\n\
            \"e\" directive @e on SCHEMA\ndirective @f on OBJECT\ntype Query { f: E }\n\
            enum E { A B @deprecated(reason: \"No longer supported\") }\n",
    },
    Row {
        schema: "type Query { type: __Type \"\" on(repeatable: [[[[Int!]!]!]!]): Boolean } extend type Query { more: __TypeKind }",
        text: "schema { query: Query }\n\
            type Query { type: __Type \"\" on(repeatable: [[[[Int!]!]!]!]): Boolean more: __TypeKind }\n",
    },
];

/// The answer of the schema to the full query.
pub(crate) fn answer_of(alloc: Global, text: &str) -> Result<Bytes, Fail> {
    let Ok(schema) = schema_of_text(alloc, text) else {
        return Err(Fail::from("the schema is wrong"));
    };
    let Ok(document) = document_of_text(alloc, &schema, FULL_QUERY) else {
        return Err(Fail::from("the query is wrong"));
    };
    executed(alloc, &schema, &document)
}

fn executed(
    alloc: Global,
    schema: &Valid<Schema>,
    document: &Valid<ExecutableDocument>,
) -> Result<Bytes, Fail>
    requires { AreAcyclic document.now.fragments }
{
    let Ok(operation) = document.as_ref().operations_get(alloc, None) else {
        return Err(Fail::from("there is no operation"));
    };
    let implementers = schema.as_ref().implementers_map(alloc)?;
    let variables = Valid::assume_valid(Map::new(alloc));
    match partial_execute(
        alloc,
        schema,
        &implementers,
        document,
        operation,
        &variables,
    ) {
        Ok(response) => Ok(response.to_bytes(alloc)?),
        Err(_) => Err(Fail::from("the query is refused")),
    }
}

/// Whether the text is made of the schema's answer, and gives that answer again.
fn is_read_back(alloc: Global, row: &Row) -> Result<bool, Fail> {
    let answer = answer_of(alloc, row.schema)?;
    match client_schema(alloc, &answer) {
        Ok(made) => Ok(made.same && made.text.as_str() == row.text),
        Err(_) => Ok(false),
    }
}

#[test]
fn schemas_are_read_back(rt: HostRuntime) -> Result<(), Fail> {
    for row in &ROWS {
        assert!(rt; is_read_back(rt.alloc(), row)?, "{}", row.schema);
    }
    Ok(())
}
