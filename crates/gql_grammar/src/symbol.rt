//! Terminals, and the symbols of a way to write a rule.

ghost use Rattle.std.specs.Prelude.{◌≡◌};
ghost use Rattle.gql_grammar.specs.Word as spec;

use crate::{Rule, SyntaxKind, Word};

/// A set of words, of which one stands where the terminal does.
#[derive(Clone, Copy, Debug, PartialEq, Eq)]
pub enum Terminal {
    Exactly(Word),
    /// Name: any name.
    AnyName,
    /// FragmentName: any name but `on`.
    NameButOn,
    /// EnumValue: any name but `true`, `false` and `null`.
    NameButLiteral,
}

impl Terminal {
    /// Whether the word may stand where the terminal does.
    pub fn takes(self, word: Word) -> bool
        ensures { result ≡ spec.takes self word }
    {
        match self {
            Terminal::Exactly(only) => only.is(word),
            Terminal::AnyName => word.is_name(),
            Terminal::NameButOn => word.is_name() && !word.is(Word::OnWord),
            Terminal::NameButLiteral => {
                word.is_name() && !word.is(Word::BooleanWord) && !word.is(Word::NullWord)
            }
        }
    }
}

/// A part of a way to write a rule, or of what is left to read.
#[derive(Clone, Copy, Debug, PartialEq, Eq)]
pub enum Symbol {
    /// One word of the set.
    Token(Terminal),
    /// The rule, once.
    One(Rule),
    /// The rule, or nothing: `?`.
    Optional(Rule),
    /// The rule, any number of times: `*`.
    Repeated(Rule),
    /// The rule, or nothing where no `{` follows: `[lookahead ≠ {]`.
    Eager(Rule),
    /// What the open node holds so far becomes one node of this kind in it.
    Wrap(SyntaxKind),
    /// The open node, of this kind, ends.
    Close(SyntaxKind),
}
