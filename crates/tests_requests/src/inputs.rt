//! Input values over a schema and documents whose rules do not hold (GraphQL October 2021, sections 3.10, 6.1.2 and 6.4.1).

mod arguments;
mod calls;
mod defaults;
mod input_objects;
mod one_of;
mod variables;

use crate::echo::Echo;
use crate::fixtures::{response_to, told};
use std::alloc::Global;
use std::test::Fail;

/// The rules do not hold: there is no type `X`, `Query`, `I` and `U` are none for input, and the one-of type `P` has a field
/// that rules out null. The letter of a field is that of
/// its argument's type, the number says how many lists stand around it, and an `r` that each of them rules out null.
const SCHEMA: &str = "type Query { free: Any \
     x0(a: X): Any x0r(a: X!): Any x1(a: [X]): Any x1r(a: [X!]!): Any x2(a: [[X]]): Any x2r(a: [[X!]!]!): Any \
     q0(a: Query): Any q0r(a: Query!): Any q1(a: [I]): Any q1r(a: [I!]!): Any q2(a: [[U]]): Any q2r(a: [[U!]!]!): Any \
     i0(a: Int): Any i0r(a: Int!): Any i1(a: [Int]): Any i1r(a: [Int!]!): Any i2(a: [[Int]]): Any i2r(a: [[Int!]!]!): Any \
     n0(a: N): Any n0r(a: N!): Any n1(a: [N]): Any n1r(a: [N!]!): Any n2(a: [[N]]): Any n2r(a: [[N!]!]!): Any \
     o0(a: O): Any o1(a: [O]): Any p0(a: P): Any \
     d(a: [Int!]! = 1, b: N = {}, c: Int! = null, d: X! = {k: [A]}): Any } \
     input N { b: Int! c: X d: Query e: Int = 3 f: [N!] } input O @oneOf { i: Int l: [Int] o: O } input P @oneOf { i: Int r: Int! } \
     interface I { i: Int } union U = Query scalar Any";

/// The first row that is answered otherwise, and the answer; no text where each row has its response. A row is a query, the
/// values that its variables are given, and the response. Each field is the object of its arguments.
fn answered_otherwise(alloc: Global, rows: &[(&str, &str, &str)]) -> Result<String, Fail> {
    for (query, variables, response) in rows {
        let answer = response_to(alloc, SCHEMA, query, variables, &Echo)?;
        if answer.as_slice() != response.as_bytes() {
            return Ok(told(alloc, query, &answer)?);
        }
    }
    Ok(String::new(alloc))
}
