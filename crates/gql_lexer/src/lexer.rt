//! Cuts a text into tokens, one after the other.

ghost use Rattle.std.specs.Prelude.{◌≡◌, ◌<◌, ◌↔◌, IsNone, IfNone, IfSome, IfOk, IfErr, length};
ghost use Rattle.gql_lexer.specs.Lexical.{StandsOne};
ghost use Rattle.gql_lexer.specs.bridge.Reading.{rest, ReadsToken, ReadsError};

use crate::scan::lex;
use crate::{CstError, Token};
use std::marker::Model;

/// Reads the tokens of a text from its beginning on, those that the grammar ignores included.
///
/// A contract sees the text's bytes and the place up to which they were read.
#[derive(Debug, Drop)]
pub struct Lexer<'a> {
    text: &'a str,
    place: usize,
}

impl<'a> Model for Lexer<'a> {
    ghost use Rattle.std.specs.Str.{IsCharBoundary};
    ghost use Rattle.gql_lexer.specs.bridge.Reading.{Reading};

    ghost Value = { Reading };

    ghost view = { λ lexer. record { text = lexer.text.now; place = lexer.place } };

    ghost invariant = { λ lexer. IsCharBoundary lexer.text.now lexer.place };
}

impl<'a> Lexer<'a> {
    /// At the beginning of the text.
    #[must_use]
    pub fn new(text: &'a str) -> Lexer<'a>
        ensures { result ≡ record { text = text.now; place = 0 } }
    {
        Lexer { text, place: 0 }
    }

    /// The token that follows, or the fault that stands in its place. The ranges of the tokens count bytes
    /// from the text's beginning, and each begins where the one before it ends. `None` at the end of the
    /// text and after a fault.
    ///
    /// The faults are `BadCharacter`, `OpenString`, `BadEscape` and `BadNumber`.
    #[inline(always)]
    pub fn next_token(&mut self) -> Option<Result<Token, CstError>>
        ensures end { IsNone result ↔ (self.old.place ≡ length self.old.text) }
        ensures ended { IfNone result (self.new ≡ self.old) }
        ensures token { IfSome result (λ found. IfOk found (ReadsToken self.old self.new)) }
        ensures fault { IfSome result (λ found. IfErr found (ReadsError self.old self.new)) }
        ensures one { self.old.place < length self.old.text → StandsOne (rest self.old) }
    {
        let start = self.place;
        let at = &self.text.as_bytes()[start..];
        if at.is_empty() {
            return None;
        }
        Some(match lex(at) {
            Ok((kind, len)) => {
                self.place = start + len;
                Ok(Token {
                    kind,
                    range: start..start + len,
                })
            }
            Err(found) => {
                self.place = self.text.len();
                Err(CstError::Syntax {
                    fault: found.fault,
                    range: start + found.start..start + found.end,
                })
            }
        })
    }
}
