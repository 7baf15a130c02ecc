//! Texts that pass a limit of their parser, and what the parser counted (GraphQL October 2021, section 2).

use crate::mixed::reports_by;
use gql_engine::{FileIds, Parser};
use std::alloc::Global;
use std::mem::forget;
use std::test::Fail;

/// A text of 18 tokens, blanks included.
const OF_TOKENS: &str = "type Query { a: Int } { a }";

#[test]
fn the_token_past_the_limit_is_told(rt: HostRuntime) -> Result<(), Fail> {
    let found = reports_by(rt.alloc(), Parser::new().token_limit(18), OF_TOKENS)?;
    assert_eq!(rt; found.as_slice(), "".as_bytes());
    let found = reports_by(rt.alloc(), Parser::new().token_limit(17), OF_TOKENS)?;
    assert_eq!(rt;
        found.as_slice(),
        "Error: token limit reached, aborting lexing\na:1:27: here\n".as_bytes()
    );
    Ok(())
}

/// A text with selection sets on two levels.
const OF_LEVELS: &str = "type Query { a: Query }\n{ a { __typename } }";

#[test]
fn the_token_behind_the_bracket_past_the_limit_is_told(rt: HostRuntime) -> Result<(), Fail> {
    let found = reports_by(rt.alloc(), Parser::new().recursion_limit(2), OF_LEVELS)?;
    assert_eq!(rt; found.as_slice(), "".as_bytes());
    let found = reports_by(rt.alloc(), Parser::new().recursion_limit(1), OF_LEVELS)?;
    assert_eq!(rt;
        found.as_slice(),
        "Error: parser recursion limit reached\na:2:7: here\n".as_bytes()
    );
    Ok(())
}

/// What a parser counts as it reads a text: its tokens and its levels.
fn counts(alloc: Global, mut parser: Parser, text: &str) -> (usize, usize) {
    forget(parser.parse_mixed_validate(alloc, text, "a", &mut FileIds::new()));
    (parser.tokens_reached(), parser.recursion_reached())
}

#[test]
fn tokens_and_levels_are_counted(rt: HostRuntime) {
    assert_eq!(rt; counts(rt.alloc(), Parser::new(), OF_TOKENS), (18, 1));
    assert_eq!(rt;
        counts(rt.alloc(), Parser::new().token_limit(3), OF_TOKENS),
        (4, 0)
    );
    assert_eq!(rt; counts(rt.alloc(), Parser::new(), OF_LEVELS), (24, 2));
}
