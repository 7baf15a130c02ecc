//! Answers with one part damaged, and the path to it.

use crate::client_schema_answers::{ANSWER, written};
use std::alloc::Global;
use std::test::Fail;

/// A part of the answer that stands there once or first, what stands in its place, and the path that is told.
struct Row {
    part: &'static str,
    damaged: &'static str,
    path: &'static str,
}

const ROWS: [Row; 40] = [
    Row {
        part: ANSWER,
        damaged: r#"[]"#,
        path: r#"[]"#,
    },
    Row {
        part: r#""data""#,
        damaged: r#""datum""#,
        path: r#"["data"]"#,
    },
    Row {
        part: r#"{"__schema""#,
        damaged: r#"{"schema""#,
        path: r#"["data","__schema"]"#,
    },
    Row {
        part: r#""__schema":{"#,
        damaged: r#""__schema":null,"rest":{"#,
        path: r#"["data","__schema"]"#,
    },
    Row {
        part: r#""description":"s""#,
        damaged: r#""description":1"#,
        path: r#"["data","__schema","description"]"#,
    },
    Row {
        part: r#""queryType":{"name":"Q"}"#,
        damaged: r#""queryType":null"#,
        path: r#"["data","__schema","queryType"]"#,
    },
    Row {
        part: r#""queryType":{"name":"Q"}"#,
        damaged: r#""queryType":{"name":"1"}"#,
        path: r#"["data","__schema","queryType","name"]"#,
    },
    Row {
        part: r#""queryType":{"name":"Q"},"#,
        damaged: r#""#,
        path: r#"["data","__schema","queryType"]"#,
    },
    Row {
        part: r#""mutationType":{"name":"M"}"#,
        damaged: r#""mutationType":"M""#,
        path: r#"["data","__schema","mutationType"]"#,
    },
    Row {
        part: r#""mutationType":{"name":"M"}"#,
        damaged: r#""mutationType":{}"#,
        path: r#"["data","__schema","mutationType","name"]"#,
    },
    Row {
        part: r#""subscriptionType":null,"#,
        damaged: r#""#,
        path: r#"["data","__schema","subscriptionType"]"#,
    },
    Row {
        part: r#""types":["#,
        damaged: r#""kinds":["#,
        path: r#"["data","__schema","types"]"#,
    },
    Row {
        part: r#"{"kind":"OBJECT","name":"Q","description":"q""#,
        damaged: r#"{"kind":"THING","name":"Q","description":"q""#,
        path: r#"["data","__schema","types",0,"kind"]"#,
    },
    Row {
        part: r#"{"kind":"OBJECT","name":"Q","description":"q""#,
        damaged: r#"{"kind":"OBJECT","name":null,"description":"q""#,
        path: r#"["data","__schema","types",0,"name"]"#,
    },
    Row {
        part: r#"{"kind":"OBJECT","name":"Q","description":"q""#,
        damaged: r#"{"kind":"LIST","name":null,"description":"q""#,
        path: r#"["data","__schema","types",0]"#,
    },
    Row {
        part: r#"{"kind":"ENUM","name":"E","description":null"#,
        damaged: r#"{"kind":"NON_NULL","name":"E","description":null"#,
        path: r#"["data","__schema","types",1]"#,
    },
    Row {
        part: r#""description":"q""#,
        damaged: r#""description":{}"#,
        path: r#"["data","__schema","types",0,"description"]"#,
    },
    Row {
        part: r#""specifiedByURL":"u""#,
        damaged: r#""specifiedByURL":true"#,
        path: r#"["data","__schema","types",3,"specifiedByURL"]"#,
    },
    Row {
        part: r#""isOneOf":true"#,
        damaged: r#""isOneOf":"true""#,
        path: r#"["data","__schema","types",2,"isOneOf"]"#,
    },
    Row {
        part: r#""fields":[{"#,
        damaged: r#""fields":[null,{"#,
        path: r#"["data","__schema","types",0,"fields",0]"#,
    },
    Row {
        part: r#"{"name":"f","description":null"#,
        damaged: r#"{"name":"","description":null"#,
        path: r#"["data","__schema","types",0,"fields",0,"name"]"#,
    },
    Row {
        part: r#""args":[{"name":"a""#,
        damaged: r#""args":null,"rest":[{"name":"a""#,
        path: r#"["data","__schema","types",0,"fields",0,"args"]"#,
    },
    Row {
        part: r#"{"name":"a","description":"d""#,
        damaged: r#"{"name":"a b","description":"d""#,
        path: r#"["data","__schema","types",0,"fields",0,"args",0,"name"]"#,
    },
    Row {
        part: r#""type":{"kind":"LIST","name":null"#,
        damaged: r#""type":{"kind":"LIST","name":0"#,
        path: r#"["data","__schema","types",0,"fields",0,"args",0,"type","name"]"#,
    },
    Row {
        part: r#""ofType":{"kind":"SCALAR","name":"Int","ofType":null}}}"#,
        damaged: r#""ofType":{"kind":"SCALAR","name":"Int"}}}"#,
        path: r#"["data","__schema","types",0,"fields",0,"args",0,"type","ofType","ofType","ofType"]"#,
    },
    Row {
        part: r#""ofType":{"kind":"SCALAR","name":"Int","ofType":null}}}"#,
        damaged: r#""ofType":null}}"#,
        path: r#"["data","__schema","types",0,"fields",0,"args",0,"type"]"#,
    },
    Row {
        part: r#"{"kind":"LIST","name":null,"ofType":{"kind":"NON_NULL""#,
        damaged: r#"{"kind":"NON_NULL","name":null,"ofType":{"kind":"NON_NULL""#,
        path: r#"["data","__schema","types",0,"fields",0,"args",0,"type"]"#,
    },
    Row {
        part: r#""defaultValue":"[1]""#,
        damaged: r#""defaultValue":"[1""#,
        path: r#"["data","__schema","types",0,"fields",0,"args",0,"defaultValue"]"#,
    },
    Row {
        part: r#""defaultValue":"[1]""#,
        damaged: r#""defaultValue":"$v""#,
        path: r#"["data","__schema","types",0,"fields",0,"args",0,"defaultValue"]"#,
    },
    Row {
        part: r#""defaultValue":"[1]","#,
        damaged: r#""#,
        path: r#"["data","__schema","types",0,"fields",0,"args",0,"defaultValue"]"#,
    },
    Row {
        part: r#""isDeprecated":true,"deprecationReason":"r""#,
        damaged: r#""isDeprecated":null,"deprecationReason":"r""#,
        path: r#"["data","__schema","types",0,"fields",0,"args",0,"isDeprecated"]"#,
    },
    Row {
        part: r#""deprecationReason":"r""#,
        damaged: r#""deprecationReason":[]"#,
        path: r#"["data","__schema","types",0,"fields",0,"args",0,"deprecationReason"]"#,
    },
    Row {
        part: r#""isDeprecated":false,"deprecationReason":null}],"inputFields":null,"interfaces":["#,
        damaged: r#""deprecationReason":null}],"inputFields":null,"interfaces":["#,
        path: r#"["data","__schema","types",0,"fields",0,"isDeprecated"]"#,
    },
    Row {
        part: r#""interfaces":[{"kind":"INTERFACE","name":"I","ofType":null}]"#,
        damaged: r#""interfaces":[{"kind":"INTERFACE","name":"I","ofType":null},{"kind":"LIST","name":null,"ofType":null}]"#,
        path: r#"["data","__schema","types",0,"interfaces",1]"#,
    },
    Row {
        part: r#""possibleTypes":[{"#,
        damaged: r#""possibleTypes":{},"rest":[{"#,
        path: r#"["data","__schema","types",4,"possibleTypes"]"#,
    },
    Row {
        part: r#"{"name":"A","description":null,"isDeprecated":true"#,
        damaged: r#"{"name":"A","description":null,"isDeprecated":1"#,
        path: r#"["data","__schema","types",1,"enumValues",0,"isDeprecated"]"#,
    },
    Row {
        part: r#""directives":[{"#,
        damaged: r#""directives":[0,{"#,
        path: r#"["data","__schema","directives",0]"#,
    },
    Row {
        part: r#""isRepeatable":true"#,
        damaged: r#""isRepeatable":null"#,
        path: r#"["data","__schema","directives",0,"isRepeatable"]"#,
    },
    Row {
        part: r#""locations":["FIELD","QUERY"]"#,
        damaged: r#""locations":["FIELD","NOWHERE"]"#,
        path: r#"["data","__schema","directives",0,"locations",1]"#,
    },
    Row {
        part: r#""defaultValue":"1""#,
        damaged: r#""defaultValue":"1 2""#,
        path: r#"["data","__schema","directives",0,"args",0,"defaultValue"]"#,
    },
];

/// Whether the damaged answer is refused at the path.
fn is_refused_there(alloc: Global, row: &Row) -> Result<bool, Fail> {
    let (front, behind) = ANSWER.split_once(row.part).ok_or("no such part")?;
    let damaged = row.damaged;
    let path = row.path;
    let answer = format!(in alloc; "{front}{damaged}{behind}")?;
    let told = format!(in alloc; "answer: shape at {path}\n")?;
    let found = written(alloc, answer.as_str())?;
    Ok(found.as_slice() == told.as_bytes())
}

#[test]
fn damaged_answers_are_refused_at_their_paths(rt: HostRuntime) -> Result<(), Fail> {
    for row in &ROWS {
        assert!(rt; is_refused_there(rt.alloc(), row)?, "{}", row.path);
    }
    Ok(())
}
