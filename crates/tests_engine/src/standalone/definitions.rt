//! Definitions of a type system, operations without a name, and second definitions of a name (GraphQL October 2021, sections
//! 5.1.1, 5.2.1.1, 5.2.2.1 and 5.5.1.1).

use crate::standalone::told_otherwise;
use std::test::Fail;

/// Texts with definitions of a type system, and the reports.
const OF_A_TYPE_SYSTEM: &[(&str, &str)] = &[
    (
        "{ a }\nschema { query: Q }\ndirective @d on FIELD\nscalar S\ntype T { f: Int }\ninterface I { f: Int }\nunion U = T\nenum E { V }\n\
         input N { f: Int }",
        "Error: an executable document must not contain a schema definition\na:2:1: here\n\
         Error: an executable document must not contain a directive definition\na:3:1: here\n\
         Error: an executable document must not contain a scalar type definition\na:4:1: here\n\
         Error: an executable document must not contain an object type definition\na:5:1: here\n\
         Error: an executable document must not contain an interface type definition\na:6:1: here\n\
         Error: an executable document must not contain a union type definition\na:7:1: here\n\
         Error: an executable document must not contain an enum type definition\na:8:1: here\n\
         Error: an executable document must not contain an input object type definition\na:9:1: here\n",
    ),
    (
        "{ a }\nextend schema @d\nextend scalar S @d\nextend type T @d\nextend interface I @d\nextend union U @d\nextend enum E @d\n\
         extend input N @d",
        "Error: an executable document must not contain a schema extension\na:2:1: here\n\
         Error: an executable document must not contain a scalar type extension\na:3:1: here\n\
         Error: an executable document must not contain an object type extension\na:4:1: here\n\
         Error: an executable document must not contain an interface type extension\na:5:1: here\n\
         Error: an executable document must not contain a union type extension\na:6:1: here\n\
         Error: an executable document must not contain an enum type extension\na:7:1: here\n\
         Error: an executable document must not contain an input object type extension\na:8:1: here\n",
    ),
    // A description belongs to its definition. Types of one name are told for what they are and not for their name.
    (
        "{ a } \"of T\" type T type T",
        "Error: an executable document must not contain an object type definition\na:1:7: here\n\
         Error: an executable document must not contain an object type definition\na:1:21: here\n",
    ),
    // Words of a type system are names as others are.
    ("query type { schema extend { scalar } }", ""),
];

#[test]
fn definitions_of_a_type_system_are_told(rt: HostRuntime) -> Result<(), Fail> {
    let wrong = told_otherwise(rt.alloc(), OF_A_TYPE_SYSTEM)?;
    assert_eq!(rt; wrong.as_str(), "");
    Ok(())
}

/// Texts with operations without a name, and the reports.
const WITHOUT_A_NAME: &[(&str, &str)] = &[
    (
        "{ a } query B { b }",
        "Error: anonymous operation cannot be selected when the document contains other operations\na:1:1: here\n",
    ),
    (
        "query A { a } { b } mutation { c }",
        "Error: anonymous operation cannot be selected when the document contains other operations\na:1:15: here\n\
         Error: anonymous operation cannot be selected when the document contains other operations\na:1:21: here\n",
    ),
    ("{ a }", ""),
    ("subscription { ...F } fragment F on T { a }", ""),
    ("query A { a } query B { b }", ""),
];

#[test]
fn operations_without_a_name_are_told(rt: HostRuntime) -> Result<(), Fail> {
    let wrong = told_otherwise(rt.alloc(), WITHOUT_A_NAME)?;
    assert_eq!(rt; wrong.as_str(), "");
    Ok(())
}

/// Texts with several operations or fragments of a name, and the reports.
const OF_ONE_NAME: &[(&str, &str)] = &[
    (
        "query A { a } mutation A { b }",
        "Error: the operation `A` is defined multiple times in the document\na:1:24: here\na:1:7: previous definition here\n",
    ),
    (
        "query A { a } query A { b } query A { c }",
        "Error: the operation `A` is defined multiple times in the document\na:1:21: here\na:1:7: previous definition here\n\
         Error: the operation `A` is defined multiple times in the document\na:1:35: here\na:1:7: previous definition here\n",
    ),
    ("query A { a } query a { b }", ""),
    ("query A { ...A } fragment A on T { a }", ""),
    (
        "{ ...F } fragment F on T { a } fragment F on U { b }",
        "Error: the fragment `F` is defined multiple times in the document\na:1:41: here\na:1:19: previous definition here\n",
    ),
    (
        "{ ...F ...f } fragment F on T { a } fragment f on T { a }",
        "",
    ),
];

#[test]
fn second_definitions_of_a_name_are_told(rt: HostRuntime) -> Result<(), Fail> {
    let wrong = told_otherwise(rt.alloc(), OF_ONE_NAME)?;
    assert_eq!(rt; wrong.as_str(), "");
    Ok(())
}
