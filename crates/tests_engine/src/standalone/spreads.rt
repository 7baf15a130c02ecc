//! Spreads that lead nowhere, back, or through too many fragments (GraphQL October 2021, section 5.5.2).

use crate::standalone::told_otherwise;
use std::test::Fail;

/// Texts with spreads of fragments that are not there, and the reports.
const UNDEFINED: &[(&str, &str)] = &[
    (
        "{ ...F }",
        "Error: cannot find fragment `F` in this document\na:1:3: here\n",
    ),
    // Each spread is told, wherever it stands.
    (
        "{ ...F a { ...F } }",
        "Error: cannot find fragment `F` in this document\na:1:3: here\n\
         Error: cannot find fragment `F` in this document\na:1:12: here\n",
    ),
    (
        "{ ... on T { ...G } ... @d { ...H } }",
        "Error: cannot find fragment `G` in this document\na:1:14: here\n\
         Error: cannot find fragment `H` in this document\na:1:30: here\n",
    ),
    // The fragment that it stands in is not used, of which nothing is told beside it.
    (
        "{ a } fragment F on T { ...G }",
        "Error: cannot find fragment `G` in this document\na:1:25: here\n",
    ),
    (
        "{ ...f } fragment F on T { a }",
        "Error: cannot find fragment `f` in this document\na:1:3: here\n",
    ),
    ("{ ...F } fragment F on T { a }", ""),
    ("fragment F on T { a } { b { ... { ...F } } }", ""),
];

#[test]
fn spreads_that_lead_nowhere_are_told(rt: HostRuntime) -> Result<(), Fail> {
    let wrong = told_otherwise(rt.alloc(), UNDEFINED)?;
    assert_eq!(rt; wrong.as_str(), "");
    Ok(())
}

/// Texts with fragments that spread themselves, and the reports.
const RECURSIVE: &[(&str, &str)] = &[
    (
        "{ ...F } fragment F on T { ...F }",
        "Error: `F` fragment cannot reference itself\na:1:10: here\n",
    ),
    (
        "{ ...F } fragment F on T { a { ... { ...G } } } fragment G on T { ...F }",
        "Error: `F` fragment cannot reference itself\na:1:10: here\n\
         Error: `G` fragment cannot reference itself\na:1:49: here\n",
    ),
    // One that leads to a cycle is not on it; one that no operation reaches is told as well.
    (
        "{ ...F } fragment F on T { ...G } fragment G on T { ...G }",
        "Error: `G` fragment cannot reference itself\na:1:35: here\n",
    ),
    (
        "{ a } fragment F on T { ...F }",
        "Error: `F` fragment cannot reference itself\na:1:7: here\n",
    ),
    (
        "{ ...F } fragment F on T { ...G ...F }",
        "Error: `F` fragment cannot reference itself\na:1:10: here\n\
         Error: cannot find fragment `G` in this document\na:1:28: here\n",
    ),
    (
        "{ ...F ...G } fragment F on T { ...G ...G } fragment G on T { a }",
        "",
    ),
];

#[test]
fn fragments_that_spread_themselves_are_told(rt: HostRuntime) -> Result<(), Fail> {
    let wrong = told_otherwise(rt.alloc(), RECURSIVE)?;
    assert_eq!(rt; wrong.as_str(), "");
    Ok(())
}

/// Chains of 33 and of 32 fragments, each spread in the one before, and the reports.
const LONG: &[(&str, &str)] = &[
    (
        "{ ...A } fragment A on T { ...B } fragment B on T { ...C } fragment C on T { ...D } fragment D on T { ...E } \
         fragment E on T { ...F } fragment F on T { ...G } fragment G on T { ...H } fragment H on T { ...I } \
         fragment I on T { ...J } fragment J on T { ...K } fragment K on T { ...L } fragment L on T { ...M } \
         fragment M on T { ...N } fragment N on T { ...O } fragment O on T { ...P } fragment P on T { ...Q } \
         fragment Q on T { ...R } fragment R on T { ...S } fragment S on T { ...T } fragment T on T { ...U } \
         fragment U on T { ...V } fragment V on T { ...W } fragment W on T { ...X } fragment X on T { ...Y } \
         fragment Y on T { ...Z } fragment Z on T { ...a } fragment a on T { ...b } fragment b on T { ...c } \
         fragment c on T { ...d } fragment d on T { ...e } fragment e on T { ...f } fragment f on T { ...g } \
         fragment g on T { x }",
        "Error: too much recursion\na:1:19: here\n",
    ),
    (
        "{ ...B } fragment B on T { ...C } fragment C on T { ...D } fragment D on T { ...E } \
         fragment E on T { ...F } fragment F on T { ...G } fragment G on T { ...H } fragment H on T { ...I } \
         fragment I on T { ...J } fragment J on T { ...K } fragment K on T { ...L } fragment L on T { ...M } \
         fragment M on T { ...N } fragment N on T { ...O } fragment O on T { ...P } fragment P on T { ...Q } \
         fragment Q on T { ...R } fragment R on T { ...S } fragment S on T { ...T } fragment T on T { ...U } \
         fragment U on T { ...V } fragment V on T { ...W } fragment W on T { ...X } fragment X on T { ...Y } \
         fragment Y on T { ...Z } fragment Z on T { ...a } fragment a on T { ...b } fragment b on T { ...c } \
         fragment c on T { ...d } fragment d on T { ...e } fragment e on T { ...f } fragment f on T { ...g } \
         fragment g on T { x }",
        "",
    ),
];

#[test]
fn long_chains_are_told(rt: HostRuntime) -> Result<(), Fail> {
    let wrong = told_otherwise(rt.alloc(), LONG)?;
    assert_eq!(rt; wrong.as_str(), "");
    Ok(())
}
