//! What ends the reading of a text.

ghost use Rattle.std.specs.Prelude.{◌≡◌};
ghost use Rattle.gql_lexer.specs.Message.{message_of};

use std::alloc::AllocError;
use std::ops::Range;

/// Out of memory: the one refusal that is always free to come.
pub type Memory = AllocError;

/// The ways in which a text is no sentence of the grammar.
#[derive(Clone, Copy, Debug, PartialEq, Eq)]
pub enum SyntaxFault {
    /// The text ends where a token is wanted.
    EndOfText,
    /// A character that no token begins with, or that may not stand in a comment or a string.
    BadCharacter,
    /// A string that its line ends, or a block string that the text ends.
    OpenString,
    /// A backslash that begins no escape.
    BadEscape,
    /// A number that lacks digits, or that a digit, a dot or a name follows.
    BadNumber,
    /// A token that may not stand in its place.
    BadToken,
}

/// A fault, or a limit that was passed, and where.
#[derive(Clone, Debug, PartialEq, Eq, Drop)]
pub enum CstError {
    Syntax {
        fault: SyntaxFault,
        range: Range<usize>,
    },
    RecursionLimit {
        range: Range<usize>,
    },
    TokenLimit {
        range: Range<usize>,
    },
}

impl CstError {
    /// The error in words.
    #[must_use]
    pub fn message(&self) -> &str
        ensures { result.now ≡ message_of self.now }
    {
        match self {
            CstError::Syntax { fault, .. } => match fault {
                SyntaxFault::EndOfText => "Unexpected <EOF>.",
                SyntaxFault::BadCharacter => "unexpected character",
                SyntaxFault::OpenString => "unterminated string",
                SyntaxFault::BadEscape => "invalid escape in string",
                SyntaxFault::BadNumber => "invalid number",
                SyntaxFault::BadToken => "unexpected token",
            },
            CstError::RecursionLimit { .. } => "parser recursion limit reached",
            CstError::TokenLimit { .. } => "token limit reached, aborting lexing",
        }
    }
}
