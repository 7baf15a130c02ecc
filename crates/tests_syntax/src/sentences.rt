//! Worked rows of the grammar and of the limits.

use crate::same::same;
use gql_cst::{
    CstError, Limits, Parsed, SyntaxFault, parse_document, parse_selection_set, parse_type,
};
use gql_source::SourceFile;
use jb_text::Memory;
use std::alloc::Global;
use std::ops::Range;
use std::process::Abort;
use std::test::Fail;

fn letter_of(fault: SyntaxFault) -> char {
    match fault {
        SyntaxFault::EndOfText => 'e',
        SyntaxFault::BadCharacter => 'c',
        SyntaxFault::OpenString => 'o',
        SyntaxFault::BadEscape => 's',
        SyntaxFault::BadNumber => 'n',
        SyntaxFault::BadToken => 't',
    }
}

fn parts_of(error: &CstError) -> (char, &Range<usize>) {
    match error {
        CstError::Syntax { fault, range } => (letter_of(*fault), range),
        CstError::RecursionLimit { range } => ('r', range),
        CstError::TokenLimit { range } => ('l', range),
    }
}

/// A letter for the error and its range, or `ok`.
fn outcome(alloc: Global, parsed: &Parsed) -> Result<String, Memory> {
    let Some(error) = &parsed.error else {
        return String::from_str(alloc, "ok");
    };
    let (letter, range) = parts_of(error);
    let start = range.start;
    let end = range.end;
    format!(in alloc; "{letter}{start}-{end}")
}

// Each line: what comes out, and the text.
const DOCUMENTS: &str = "\
ok {a}\n\
ok query{a}\n\
ok query Q($a:Int=1@d){a}\n\
ok mutation($a:[Int!]!,$b:B){a} subscription S@d{a}\n\
ok {a:b c}\n\
ok {type query on fragment:null true}\n\
ok {a(b:1 c:-1.5e3,d:\"x\"e:\"\"\"y\"\"\"f:true,g:null,h:E i:$v)}\n\
ok {a(b:[],c:{},d:[[1]{e:2}])}\n\
ok {...F@d ...on T@d{a}...@d{a}...{a}}\n\
ok fragment F on T@d{a}\n\
ok {a,}\n\
ok {a(b:1,)}\n\
ok schema{query:Q}\n\
ok \"d\"schema@d{query:Q mutation:M}\n\
ok scalar S\n\
ok \"\"\"d\"\"\"scalar S@d\n\
ok scalar S{a:B}\n\
ok type T\n\
ok \"d\"type T implements A&B@d{\"d\"a(\"d\"b:Int=1@d):T@d}\n\
ok type T implements &A{a:B}\n\
ok type T{a:B}{a}\n\
ok interface I\n\
ok \"d\"interface I implements&A&B@d{a:B}\n\
ok union U\n\
ok \"d\"union U@d=A|B\n\
ok union U=|A\n\
ok enum E\n\
ok \"d\"enum E@d{\"d\"A@d B}\n\
ok enum E{on type}\n\
ok input I\n\
ok \"d\"input I@d{\"d\"a:Int=1@d b:[Int]}\n\
ok directive@d on FIELD\n\
ok \"d\"directive@d(a:Int)repeatable on|FIELD|QUERY\n\
ok extend schema@d\n\
ok extend schema{query:Q}\n\
ok extend schema@d{query:Q}\n\
ok extend scalar S@d\n\
ok extend type T@d\n\
ok extend type T implements A\n\
ok extend type T{a:B}\n\
ok extend interface I{a:B}\n\
ok extend interface I implements A@d\n\
ok extend union U=A\n\
ok extend union U@d\n\
ok extend enum E{A}\n\
ok extend enum E@d\n\
ok extend input I{a:B}\n\
ok extend input I@d\n\
";

const NO_DOCUMENTS: &str = "\
e0-0 \n\
e1-1 {\n\
t1-2 {}\n\
e2-2 {a\n\
t3-4 {a}}\n\
t0-1 a{b}\n\
e5-5 query\n\
t8-9 query Q Q{a}\n\
t6-7 query(){a}\n\
t8-9 query($a){a}\n\
t13-14 query($a:Int=$b){a}\n\
t17-18 query($a:Int@d(x:$b)){a}\n\
t13-14 query($a:[Int){a}\n\
t3-4 {a()}\n\
t4-5 {a(b)}\n\
t5-6 {a(b:)}\n\
t6-7 {a(b:[)}\n\
t7-8 {a(b:{c})}\n\
t6-7 {a(b:$1)}\n\
t3-4 {a@}\n\
t3-4 {a:}\n\
t4-5 {a:b:c}\n\
t4-5 {...}\n\
t6-7 {...on}\n\
t5-6 {...F{a}}\n\
t6-7 {...@d}\n\
t9-11 fragment on on T{a}\n\
t11-12 fragment F T{a}\n\
e15-15 fragment F on T\n\
t7-8 schema{}\n\
e8-8 schema@d\n\
t7-8 schema{a:B}\n\
t13-14 schema{query B}\n\
e6-6 scalar\n\
t9-10 scalar S T\n\
t13-14 scalar S@d(a:$b)\n\
t7-8 type T{}\n\
t8-9 type T{a}\n\
t9-10 type T{a:}\n\
t9-10 type T{a():B}\n\
t17-18 type T implements{a:B}\n\
t20-21 type T implements A B\n\
t11-12 type A { a }\n\
e12-12 interface I{\n\
e15-15 interface I{a:B\n\
t10-11 interface 1\n\
e8-8 union U=\n\
e10-10 union U=A|\n\
t8-9 union U A\n\
t7-8 enum E{}\n\
t7-11 enum E{true}\n\
t8-9 enum E{A:B}\n\
t8-9 input I{}\n\
t9-10 input I{a}\n\
t12-13 input I{a:B=$c}\n\
t12-17 directive@d FIELD\n\
e14-14 directive@d on\n\
t15-20 directive@d on field\n\
t10-11 directive d on FIELD\n\
e13-13 extend type T\n\
e15-15 extend scalar S\n\
e13-13 extend schema\n\
e18-18 extend interface I\n\
e14-14 extend union U\n\
e13-13 extend enum E\n\
e14-14 extend input I\n\
t14-15 extend type T{}\n\
t14-18 extend type T type U\n\
t3-9 \"d\"extend type T@d\n\
t7-10 extend \"d\"type T@d\n\
t3-4 \"d\"{a}\n\
t3-8 \"d\"query{a}\n\
c3-4 {a ?}\n\
n5-6 {a(b:01)}\n\
o5-7 {a(b:\"x\n\
t1-2 {} ?\n\
";

const SELECTION_SETS: &str = "\
ok {a}\n\
ok a b{c}\n\
ok ...F a\n\
e0-0 \n\
e1-1 {\n\
t3-4 {a}b\n\
t1-2 a}\n\
e2-2 a{\n\
ok query{a}\n\
";

const TYPES: &str = "\
ok Int\n\
ok [Int!]!\n\
ok  [[A]] \n\
e0-0 \n\
t0-1 !\n\
e1-1 [\n\
t1-2 []\n\
t4-5 Int!!\n\
t4-7 Int Int\n\
e4-4 [Int\n\
t5-6 [Int]]\n\
";

const LIMITS: Limits = Limits {
    recursion: 500,
    tokens: None,
};

/// What comes out for the text: of a document (`d`), a selection set (`s`) or a reference to a type.
fn outcome_of(alloc: Global, part: char, text: &str) -> Result<String, Memory> {
    let parsed = match part {
        'd' => parse_document(alloc, text, &LIMITS)?,
        's' => parse_selection_set(alloc, text, &LIMITS)?,
        _ => parse_type(alloc, text, &LIMITS)?,
    };
    outcome(alloc, &parsed)
}

fn check_rows(rt: &impl Abort, alloc: Global, part: char, rows: &str) -> Result<(), Memory> {
    for row in rows.lines() {
        let (expected, text) = row.split_once(' ').unwrap_or(("a space", row));
        same(rt, text, outcome_of(alloc, part, text)?.as_str(), expected);
    }
    Ok(())
}

const GRAMMAR: &[(char, &str)] = &[
    ('d', DOCUMENTS),
    ('d', NO_DOCUMENTS),
    ('s', SELECTION_SETS),
    ('t', TYPES),
];

#[test]
fn grammar(rt: HostRuntime) -> Result<(), Fail> {
    for (part, rows) in GRAMMAR {
        check_rows(&rt, rt.alloc(), *part, rows)?;
    }
    Ok(())
}

const NESTED: &str =
    "\n        query {\n            a {\n                a {\n                    a {\n                        a\n                    }\n                }\n            }\n        }\n";

/// Texts, the limits of levels and of tokens, and what comes of them: the error, the levels and the tokens.
const LIMITED: &[(&str, usize, usize, &str)] = &[
    ("{ a { b { c } } }", 1, 99, "r6-7, 2 levels, 7 tokens"),
    ("{ a { b { c } } }", 7, 99, "ok, 3 levels, 17 tokens"),
    ("{a(b:[[1] [1] {}])}", 3, 99, "ok, 3 levels, 19 tokens"),
    ("{a(b:[[{c:", 3, 99, "r8-9, 4 levels, 9 tokens"),
    ("{a(b:[[[", 3, 99, "r8-8, 4 levels, 8 tokens"),
    (NESTED, 10, 22, "l142-155, 4 levels, 23 tokens"),
    (NESTED, 3, 200, "r101-102, 4 levels, 18 tokens"),
    (
        "\n    type Query {\n      field(arg1: Int, arg2: Int): Int",
        500,
        18,
        "l47-50, 0 levels, 19 tokens",
    ),
];

/// The outcome, with the levels and the tokens that were reached.
fn reached(alloc: Global, parsed: &Parsed) -> Result<String, Memory> {
    let levels = parsed.recursion_reached;
    let tokens = parsed.tokens_reached;
    let error = outcome(alloc, parsed)?;
    format!(in alloc; "{error}, {levels} levels, {tokens} tokens")
}

fn limited(alloc: Global, text: &str, recursion: usize, tokens: usize) -> Result<String, Memory> {
    let limits = Limits {
        recursion,
        tokens: Some(tokens),
    };
    let parsed = parse_document(alloc, text, &limits)?;
    reached(alloc, &parsed)
}

#[test]
fn limits(rt: HostRuntime) -> Result<(), Fail> {
    for (text, recursion, tokens, wanted) in LIMITED {
        same(
            &rt,
            text,
            limited(rt.alloc(), text, *recursion, *tokens)?.as_str(),
            wanted,
        );
    }
    Ok(())
}

/// Texts, the limits of levels and of tokens, and the line and the column of what passes one of them.
const PLACES: &[(&str, usize, usize, &str)] = &[
    (
        "\n    type Query {\n      field(arg1: Int, arg2: Int): Int",
        500,
        18,
        "3:30",
    ),
    ("{ a { b { c } } }", 1, 99, "1:7"),
    (NESTED, 10, 22, "8:18"),
    (NESTED, 3, 200, "6:25"),
];

/// The line and the column at which the error of a text stands.
fn place_of(alloc: Global, text: &str, parsed: &Parsed) -> Result<String, Memory> {
    let Some(error) = &parsed.error else {
        return String::from_str(alloc, "ok");
    };
    let (_, range) = parts_of(error);
    let file = SourceFile::new(alloc, "a.graphql", text)?;
    let Some(place) = file.get_line_column(range.start) else {
        return String::from_str(alloc, "no place");
    };
    let line = place.line;
    let column = place.column;
    format!(in alloc; "{line}:{column}")
}

/// The line and the column at which the limits stop a document.
fn stopped_at(
    alloc: Global,
    text: &str,
    recursion: usize,
    tokens: usize,
) -> Result<String, Memory> {
    let limits = Limits {
        recursion,
        tokens: Some(tokens),
    };
    let parsed = parse_document(alloc, text, &limits)?;
    place_of(alloc, text, &parsed)
}

#[test]
fn places_of_limits(rt: HostRuntime) -> Result<(), Fail> {
    for (text, recursion, tokens, wanted) in PLACES {
        let found = stopped_at(rt.alloc(), text, *recursion, *tokens)?;
        same(&rt, text, found.as_str(), wanted);
    }
    Ok(())
}
