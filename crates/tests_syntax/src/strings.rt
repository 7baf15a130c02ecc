//! The strings of a text, found by their tokens.

use crate::same::same;
use gql_cst::{
    CstError, Lexer, SyntaxFault, Token, TokenKind, block_string_value, is_block_string,
    string_value,
};
use jb_text::Memory;
use std::alloc::Global;
use std::test::Fail;

/// The value of a token that is a string.
pub(crate) fn value_of(alloc: Global, token: &str) -> Result<String, Memory> {
    if is_block_string(token) {
        block_string_value(alloc, token)
    } else if token.starts_with('"') {
        string_value(alloc, token)
    } else {
        String::from_str(alloc, "no string")
    }
}

/// The piece of a text that a token is made of.
fn piece<'t>(text: &'t str, token: &Token) -> &'t str {
    text.get(token.range.start..token.range.end)
        .unwrap_or("no piece of the text")
}

/// The value of a string, `_` for what the grammar ignores, or the range of an unexpected character.
fn told_of(alloc: Global, text: &str, found: &Result<Token, CstError>) -> Result<String, Memory> {
    match found {
        Ok(token) if token.kind == TokenKind::StringValue => value_of(alloc, piece(text, token)),
        Ok(token) if token.kind == TokenKind::Ignored => String::from_str(alloc, "_"),
        Err(
            CstError::Syntax {
                fault: SyntaxFault::BadCharacter,
                range,
            },
        ) => format!(in alloc; "{}-{}", range.start, range.end),
        _ => String::from_str(alloc, "another token or fault"),
    }
}

/// Tells of a token or fault, with a `|` behind it.
fn tell(
    out: &mut String,
    alloc: Global,
    text: &str,
    found: &Result<Token, CstError>,
) -> Result<(), Memory> {
    let told = told_of(alloc, text, found)?;
    write!(out, "{told}|")
}

/// What is told of each token of a text.
fn told(alloc: Global, text: &str) -> Result<String, Memory> {
    let mut out = String::new(alloc);
    let mut lexer = Lexer::new(text);
    for _ in 0..text.len() {
        let Some(found) = lexer.next_token() else {
            break;
        };
        tell(&mut out, alloc, text, &found)?;
    }
    Ok(out)
}

#[test]
fn values_of_tokens(rt: HostRuntime) -> Result<(), Fail> {
    let text = "\"\"\"\n  a\n   \\\"\"\"b\"\"\" \"c\\n\" \"\" ?";
    let lines = "a\n \"\"\"b|_|c\n|_||_|29-30|";
    same(&rt, text, told(rt.alloc(), text)?.as_str(), lines);
    Ok(())
}
