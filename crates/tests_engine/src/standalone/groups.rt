//! Several faults in one text: all of the first rules that tell any, in the order of lists (GraphQL October 2021, section 5).

use crate::standalone::{document_of, told_otherwise};
use bytes::Bytes;
use gql_engine::{DiagnosticList, reports, validate_standalone};
use std::alloc::Global;
use std::test::Fail;

const ROWS: &[(&str, &str)] = &[
    // What is wrong with the definitions by themselves, and nothing else.
    (
        "{ ...X }\ntype T { f: Int }\nquery A($v: Int, $v: Int) { a(x: 1, x: $w) }\nquery A { a }\nfragment F on T { ...F }\n\
         fragment F on T { a }",
        "Error: anonymous operation cannot be selected when the document contains other operations\na:1:1: here\n\
         Error: an executable document must not contain an object type definition\na:2:1: here\n\
         Error: the operation `A` is defined multiple times in the document\na:4:7: here\na:3:7: previous definition here\n\
         Error: the fragment `F` is defined multiple times in the document\na:6:10: here\na:5:10: previous definition here\n",
    ),
    // What is wrong with the spreads, and nothing else.
    (
        "query B($v: Int, $v: Int) { a(x: 1, x: $w) ...X } fragment G on T { b } fragment H on T { ...H }",
        "Error: cannot find fragment `X` in this document\na:1:44: here\n\
         Error: `H` fragment cannot reference itself\na:1:73: here\n",
    ),
    // What is wrong with the rest. A second variable of a name is told before that it is not used.
    (
        "query ($v: Int, $v: Int) { a(x: 1, x: $w) } fragment F on T { b }",
        "Error: unused variable: `$v`\na:1:8: here\n\
         Error: the variable `$v` is declared multiple times\na:1:17: here\na:1:8: previous definition here\n\
         Error: unused variable: `$v`\na:1:17: here\n\
         Error: the argument `x` is not unique\na:1:36: here\na:1:30: previous definition here\n\
         Error: variable `$w` is not defined\na:1:39: here\n\
         Error: fragment `F` must be used in an operation\na:1:45: here\n",
    ),
    // What asks for a schema is not told: roots, fields, types, directives, values, and which fields have one key.
    (
        "subscription ($v: Nothing, $w: [Int] = {k: 1, k: 2}) @nowhere @nowhere { a(x: $v) a: b(y: $w) { c } __d \
         ... on Nothing @skip { e } }",
        "",
    ),
];

#[test]
fn the_first_rules_that_tell_any_are_told_alone(rt: HostRuntime) -> Result<(), Fail> {
    let wrong = told_otherwise(rt.alloc(), ROWS)?;
    assert_eq!(rt; wrong.as_str(), "");
    Ok(())
}

/// What is told of a text by a list that had the same before.
fn reports_of_both(alloc: Global, text: &str) -> Result<Bytes, Fail> {
    let document = document_of(alloc, text)?;
    let mut errors = DiagnosticList::new(alloc, document.sources.copy(alloc)?);
    validate_standalone(alloc, &*document, &mut errors)?;
    validate_standalone(alloc, &*document, &mut errors)?;
    Ok(reports(alloc, errors)?)
}

#[test]
fn a_list_keeps_what_it_had(rt: HostRuntime) -> Result<(), Fail> {
    let found = reports_of_both(rt.alloc(), "{ ...F a { ...G } }")?;
    let wanted = "Error: cannot find fragment `F` in this document\na:1:3: here\n\
        Error: cannot find fragment `F` in this document\na:1:3: here\n\
        Error: cannot find fragment `G` in this document\na:1:12: here\n\
        Error: cannot find fragment `G` in this document\na:1:12: here\n";
    assert_eq!(rt; found.as_slice(), wanted.as_bytes());
    Ok(())
}
