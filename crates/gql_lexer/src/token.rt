//! Tokens, and what stands in a token's place.

use crate::SyntaxFault;
use std::ops::Range;

/// The kinds of tokens.
#[derive(Clone, Copy, Debug, PartialEq, Eq)]
pub enum TokenKind {
    /// One of `! $ & ( ) ... : = @ [ ] { | }`.
    Punctuator,
    Name,
    IntValue,
    FloatValue,
    /// A string or a block string.
    StringValue,
    /// A run of white space and byte order marks, a comma, or a comment.
    Ignored,
}

/// A token: its kind, and the bytes of the text that it is made of.
#[derive(Clone, Debug, PartialEq, Eq, Drop)]
pub struct Token {
    pub kind: TokenKind,
    pub range: Range<usize>,
}

/// A fault and where it lies, counted in bytes from where the token begins.
#[derive(Clone, Copy)]
pub(crate) struct FaultAt {
    pub(crate) fault: SyntaxFault,
    pub(crate) start: usize,
    pub(crate) end: usize,
}

/// The kind of the token that a text begins with, and its length in bytes.
pub(crate) type Lexed = Result<(TokenKind, usize), FaultAt>;
