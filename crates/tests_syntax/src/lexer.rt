//! Worked rows of the lexical grammar, and each public call once.

use crate::same::same;
use crate::strings::value_of;
use gql_lexer::{CstError, Lexer, SyntaxFault, Token, TokenKind, is_block_string};
use jb_text::Memory;
use std::alloc::Global;
use std::process::Abort;
use std::test::Fail;

/// A letter for each kind, and for each fault that a text's token can have.
fn letter_of(kind: TokenKind) -> char {
    match kind {
        TokenKind::Punctuator => 'M',
        TokenKind::Name => 'N',
        TokenKind::IntValue => 'I',
        TokenKind::FloatValue => 'F',
        TokenKind::StringValue => 'S',
        TokenKind::Ignored => '_',
    }
}

fn fault_letter_of(fault: SyntaxFault) -> char {
    match fault {
        SyntaxFault::BadCharacter => 'c',
        SyntaxFault::OpenString => 'o',
        SyntaxFault::BadEscape => 'e',
        SyntaxFault::BadNumber => 'n',
        SyntaxFault::EndOfText | SyntaxFault::BadToken => '?',
    }
}

/// Tells a token's letter and end, or a fault's letter, start and end, and gives the place where the next token starts.
fn tell(out: &mut String, place: usize, found: &Result<Token, CstError>) -> Result<usize, Memory> {
    match found {
        Ok(Token { kind, range }) if range.start == place => {
            let end = range.end;
            write!(out, "{}{end} ", letter_of(*kind))?;
            Ok(end)
        }
        Err(CstError::Syntax { fault, range }) => {
            let start = range.start;
            let end = range.end;
            write!(out, "{}{start}-{end} ", fault_letter_of(*fault))?;
            Ok(place)
        }
        _ => {
            out.push_str("a gap or a limit ")?;
            Ok(place)
        }
    }
}

/// What is told of each token of a text.
fn describe(alloc: Global, text: &str) -> Result<String, Memory> {
    let mut out = String::new(alloc);
    let mut lexer = Lexer::new(text);
    let mut place = 0;
    for _ in 0..text.len() + 1 {
        let Some(found) = lexer.next_token() else {
            break;
        };
        place = tell(&mut out, place, &found)?;
    }
    Ok(out)
}

/// Texts, and the letter and the end of each of their tokens.
const TOKENS: &[(&str, &str)] = &[
    ("", ""),
    ("a_1 B", "N3 _4 N5"),
    ("{a:$b}", "M1 N2 M3 M4 N5 M6"),
    ("...!|", "M3 M4 M5"),
    ("0", "I1"),
    ("-0,10", "I2 _3 I5"),
    ("1.50", "F4"),
    ("-1e9", "F4"),
    ("0.0E+00", "F7"),
    ("1}", "I1 M2"),
    ("\u{FEFF} \t\r\n\u{FEFF},,", "_10 _11 _12"),
    ("#a\u{1F600}\nb", "_6 _7 N8"),
    ("##\r#", "_2 _3 _4"),
    ("\"\"a", "S2 N3"),
    ("\"\u{7F}é\\\"\\u00e9\"", "S13"),
    ("\"\\ud83d\\ude00\"", "S14"),
    ("\"\\/\\b\\f\\n\\r\\t\\\\\"", "S16"),
    ("\"\"\"a\n \"\" \\\"\"\" \\q\r\"\"\"", "S20"),
    ("\"\"\"\"\"\"\"\"", "S6 S8"),
    ("\"\"\"\\\"\"\"\"\"\"", "S10"),
];

fn check_tokens(rt: &impl Abort, alloc: Global, rows: &[(&str, &str)]) -> Result<(), Memory> {
    for (text, row) in rows {
        same(rt, text, describe(alloc, text)?.as_str().trim_end(), row);
    }
    Ok(())
}

#[test]
fn tokens(rt: HostRuntime) -> Result<(), Fail> {
    Ok(check_tokens(&rt, rt.alloc(), TOKENS)?)
}

/// Texts with a fault: the letter and the end of each token, and the letter and the range of the fault.
const FAULTS: &[(&str, &str)] = &[
    ("01", "n0-1"),
    ("00", "n0-1"),
    ("1.", "n0-2"),
    ("1e", "n0-2"),
    ("1e+", "n0-3"),
    ("-", "n0-1"),
    ("-a", "n0-1"),
    ("1a", "n0-1"),
    ("1_", "n0-1"),
    ("1.0.0", "n0-3"),
    ("1.e1", "n0-2"),
    ("a 1e1e1", "N1 _2 n2-5"),
    (".", "c0-1"),
    ("..a", "c0-1"),
    (".5", "c0-1"),
    ("a?b", "N1 c1-2"),
    ("a %", "N1 _2 c2-3"),
    ("é", "c0-2"),
    ("\u{FEFE}", "c0-3"),
    ("\u{1F600}a", "c0-4"),
    ("\u{1}", "c0-1"),
    ("#\u{0}", "c1-2"),
    ("\"a\u{1}\"", "c2-3"),
    ("\"\"\"\u{8}\"\"\"", "c3-4"),
    ("\"", "o0-1"),
    ("\"a\nb\"", "o0-2"),
    ("{\"é\r\"", "M1 o1-4"),
    ("\"\"\"a\n\"\"", "o0-7"),
    ("\"\"\"\\\"\"\"", "o0-7"),
    ("\"\\q\"", "e1-2"),
    ("\"a\\", "e2-3"),
    ("\"\\u12", "e1-2"),
    ("\"\\u12G4\"", "e1-2"),
    ("\"\\ud800\"", "e1-2"),
    ("\"\\ud800\\ud800\"", "e1-2"),
    ("\"\\udc00\\ud800\"", "e1-2"),
];

#[test]
fn faults(rt: HostRuntime) -> Result<(), Fail> {
    Ok(check_tokens(&rt, rt.alloc(), FAULTS)?)
}

/// Strings on one line, and what they stand for.
const VALUES: &[(&str, &str)] = &[
    ("\"\"", ""),
    ("\"a b\"", "a b"),
    ("\"\u{7F}é\u{1F600}\"", "\u{7F}é\u{1F600}"),
    ("\"\\\"\\\\\\/\\b\\f\\n\\r\\t\"", "\"\\/\u{8}\u{C}\n\r\t"),
    ("\"<\\u0041\\u00e9\\uFFFF>\"", "<Aé\u{FFFF}>"),
    ("\"\\ud83d\\ude00\\uDBFF\\uDFFF\"", "\u{1F600}\u{10FFFF}"),
];

fn check_values(
    rt: &impl Abort,
    alloc: Global,
    block: bool,
    rows: &[(&str, &str)],
) -> Result<(), Memory> {
    for (token, value) in rows {
        assert!(rt; is_block_string(token) == block, "{token}");
        same(rt, token, value_of(alloc, token)?.as_str(), value);
    }
    Ok(())
}

#[test]
fn values(rt: HostRuntime) -> Result<(), Fail> {
    Ok(check_values(&rt, rt.alloc(), false, VALUES)?)
}

/// Block strings, and what they stand for.
const BLOCK_VALUES: &[(&str, &str)] = &[
    ("\"\"\"\"\"\"", ""),
    ("\"\"\"a\"\"\"", "a"),
    ("\"\"\" a \"\"\"", " a "),
    ("\"\"\" \t\r\n\t \"\"\"", ""),
    ("\"\"\"\n    a\n      b\n\n    c\n  \"\"\"", "a\n  b\n\nc"),
    ("\"\"\"  first\n    a\n   b\"\"\"", "  first\n a\nb"),
    ("\"\"\"\n\t\ta\n \tb\n\t\t\tc\"\"\"", "a\nb\n\tc"),
    ("\"\"\"\r\n  a\r    \n\r  b\r\n\"\"\"", "a\n  \n\nb"),
    ("\"\"\"\n\r\n\ra\rb\r\nc\n\"\"\"", "a\nb\nc"),
    ("\"\"\"\n  a\n \n  b\"\"\"", "a\n\nb"),
    ("\"\"\"x\n  \"\"\"", "x"),
    (
        "\"\"\"\n  a\n\u{A0}\u{A0}\u{A0}b\"\"\"",
        "  a\n\u{A0}\u{A0}\u{A0}b",
    ),
    (
        "\"\"\"\n  \\\"\"\"a\\\"\"\"\n  \\n\\\\ \"\"\"\"\"",
        "\"\"\"a\"\"\"\n\\n\\\\ \"\"",
    ),
    (
        "\"\"\"\n \u{1F600}\n  é\u{10FFFF} \n\"\"\"",
        "\u{1F600}\n é\u{10FFFF} ",
    ),
];

#[test]
fn block_values(rt: HostRuntime) -> Result<(), Fail> {
    Ok(check_values(&rt, rt.alloc(), true, BLOCK_VALUES)?)
}

fn syntax_error(fault: SyntaxFault) -> CstError {
    CstError::Syntax { fault, range: 0..1 }
}

/// Faults, and their messages.
const MESSAGES: &[(SyntaxFault, &str)] = &[
    (SyntaxFault::EndOfText, "Unexpected <EOF>."),
    (SyntaxFault::BadCharacter, "unexpected character"),
    (SyntaxFault::OpenString, "unterminated string"),
    (SyntaxFault::BadEscape, "invalid escape in string"),
    (SyntaxFault::BadNumber, "invalid number"),
    (SyntaxFault::BadToken, "unexpected token"),
];

fn check_message(rt: &impl Abort, error: &CstError, message: &str) {
    assert_eq!(rt; error.message(), message);
}

#[test]
fn messages(rt: HostRuntime) {
    for (fault, message) in MESSAGES {
        check_message(&rt, &syntax_error(*fault), message);
    }
    let tokens = CstError::TokenLimit { range: 0..1 };
    check_message(&rt, &tokens, "token limit reached, aborting lexing");
    let levels = CstError::RecursionLimit { range: 0..1 };
    check_message(&rt, &levels, "parser recursion limit reached");
}
