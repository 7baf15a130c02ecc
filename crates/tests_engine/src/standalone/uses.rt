//! Fragments that are not used, variables and their uses, and second arguments of a name (GraphQL October 2021, sections 5.4.2,
//! 5.5.1.4 and 5.8).

use crate::standalone::told_otherwise;
use std::test::Fail;

/// Texts with fragments that no operation reaches, and the reports.
const UNUSED_FRAGMENTS: &[(&str, &str)] = &[
    (
        "{ a } fragment F on T { a }",
        "Error: fragment `F` must be used in an operation\na:1:7: here\n",
    ),
    (
        "{ a } fragment F on T { ...G } fragment G on T { a }",
        "Error: fragment `F` must be used in an operation\na:1:7: here\n\
         Error: fragment `G` must be used in an operation\na:1:32: here\n",
    ),
    (
        "fragment F on T { a }",
        "Error: fragment `F` must be used in an operation\na:1:1: here\n",
    ),
    (
        "{ ...F } fragment F on T { b { ... { ...G } } } fragment G on T { a }",
        "",
    ),
];

#[test]
fn fragments_that_are_not_used_are_told(rt: HostRuntime) -> Result<(), Fail> {
    let wrong = told_otherwise(rt.alloc(), UNUSED_FRAGMENTS)?;
    assert_eq!(rt; wrong.as_str(), "");
    Ok(())
}

/// Texts that define variables, and the reports.
const DEFINED_VARIABLES: &[(&str, &str)] = &[
    (
        "query ($v: Int, $v: Int) { a(x: $v) }",
        "Error: the variable `$v` is declared multiple times\na:1:17: here\na:1:8: previous definition here\n",
    ),
    ("query ($v: Int, $V: Int) { a(x: $v, y: $V) }", ""),
    (
        "query A($v: Int) { a(x: $v) } query B($v: Int) { a(x: $v) }",
        "",
    ),
    (
        "query ($v: Int) { a }",
        "Error: unused variable: `$v`\na:1:8: here\n",
    ),
    // A use in another operation is none, nor is one in a fragment that the operation does not reach.
    (
        "query A($v: Int) { a } query B($v: Int) { ...F } fragment F on T { a(x: $v) }",
        "Error: unused variable: `$v`\na:1:9: here\n",
    ),
    (
        "query ($v: Int) { ...F } fragment F on T { ... { ...G } } fragment G on T { a(x: [{k: $v}]) }",
        "",
    ),
    ("query ($v: Boolean) { ... @skip(if: $v) { a } }", ""),
    ("query ($v: Int) @d(x: $v) { a }", ""),
    (
        "query ($v: Int) { ...F } fragment F on T @d(x: $v) { a }",
        "",
    ),
];

#[test]
fn variables_that_are_defined_are_told(rt: HostRuntime) -> Result<(), Fail> {
    let wrong = told_otherwise(rt.alloc(), DEFINED_VARIABLES)?;
    assert_eq!(rt; wrong.as_str(), "");
    Ok(())
}

/// Texts that use variables, and the reports.
const USED_VARIABLES: &[(&str, &str)] = &[
    (
        "{ a(x: $v) }",
        "Error: variable `$v` is not defined\na:1:8: here\n",
    ),
    (
        "query ($v: Int) { a(x: $v, y: [1, {k: $V}]) @d(x: $w) }",
        "Error: variable `$V` is not defined\na:1:39: here\n\
         Error: variable `$w` is not defined\na:1:51: here\n",
    ),
    // A use in a fragment is told once, if an operation that reaches it lacks the variable.
    (
        "query A($v: Int) { ...F } query B { ...F } fragment F on T { a(x: $v) }",
        "Error: variable `$v` is not defined\na:1:67: here\n",
    ),
    (
        "query A { ...F } query B { ...F } fragment F on T { a(x: $v) }",
        "Error: variable `$v` is not defined\na:1:58: here\n",
    ),
    // None reaches this one.
    (
        "{ a } fragment F on T { a(x: $v) }",
        "Error: fragment `F` must be used in an operation\na:1:7: here\n",
    ),
    (
        "query A($v: Int) { ...F } query B($v: T) { ...F } fragment F on T { a(x: $v) }",
        "",
    ),
];

#[test]
fn variables_that_are_used_are_told(rt: HostRuntime) -> Result<(), Fail> {
    let wrong = told_otherwise(rt.alloc(), USED_VARIABLES)?;
    assert_eq!(rt; wrong.as_str(), "");
    Ok(())
}

/// Texts with several arguments, and the reports.
const ARGUMENTS: &[(&str, &str)] = &[
    (
        "{ a(x: 1, x: 1, x: 2) }",
        "Error: the argument `x` is not unique\na:1:11: here\na:1:5: previous definition here\n\
         Error: the argument `x` is not unique\na:1:17: here\na:1:5: previous definition here\n",
    ),
    // Those of each directive, be it at an operation, a variable, a field, a spread, an inline fragment or a fragment.
    (
        "query ($v: Int @d(x: 1, x: 1))\n@d(x: 1, x: 1) {\na(x: $v) @d(x: 1, x: 1)\n...F @d(x: 1, x: 1)\n... @d(x: 1, x: 1) { a } }\n\
         fragment F on T @d(x: 1, x: 1) { a }",
        "Error: the argument `x` is not unique\na:1:25: here\na:1:19: previous definition here\n\
         Error: the argument `x` is not unique\na:2:10: here\na:2:4: previous definition here\n\
         Error: the argument `x` is not unique\na:3:19: here\na:3:13: previous definition here\n\
         Error: the argument `x` is not unique\na:4:15: here\na:4:9: previous definition here\n\
         Error: the argument `x` is not unique\na:5:14: here\na:5:8: previous definition here\n\
         Error: the argument `x` is not unique\na:6:26: here\na:6:20: previous definition here\n",
    ),
    (
        "{ a(x: 1, X: 1) @d(x: 1) @d(x: 1) b(x: 1) { a(x: 1) } }",
        "",
    ),
    // Keys are no arguments.
    ("{ a(x: {k: 1, k: 2}) }", ""),
];

#[test]
fn second_arguments_of_a_name_are_told(rt: HostRuntime) -> Result<(), Fail> {
    let wrong = told_otherwise(rt.alloc(), ARGUMENTS)?;
    assert_eq!(rt; wrong.as_str(), "");
    Ok(())
}
