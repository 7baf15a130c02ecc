//! Reads a text token by token: counts them, and hands their words on.

ghost use Rattle.std.specs.Prelude.{◌≡◌, ◌≢◌, ◌<◌, ℕ, [], ◌∷◌, true, length, MatchBool, IfOk, OnOk, IfNone, IfSome, Some, None, is_some};
ghost use Rattle.gql_lexer.specs.declared.token.TokenKind.{TokenKind};
ghost use Rattle.gql_cst.specs.Leaves.{IsLeaf};
ghost use Rattle.gql_cst.specs.bridge.Machine as machine;
ghost use Rattle.gql_cst.specs.bridge.Open.{whole_text};
ghost use Rattle.gql_cst.specs.Sentences.{root_kind};
ghost use Rattle.gql_grammar.specs.Row as rows;
ghost use Rattle.gql_grammar.specs.Rule.{kind_of};
ghost use Rattle.gql_cst.specs.Outcome.{Passes, IsWithin};

use crate::count::raised;
use crate::machine::Machine;
use crate::made::Made;
use crate::output::Output;
use crate::turn::Turn;
use crate::word::word_of;
use crate::{CstError, Limits, Memory, SyntaxFault, Token, TokenKind};
use gql_grammar::{Rule, Word};
use std::alloc::Global;
use std::ops::Range;

/// What was read of a text so far.
#[derive(Drop)]
pub(crate) struct Parser<'a, O: Drop> {
    text: &'a str,
    limits: Limits,
    start: Rule,
    machine: Machine<O>,
    /// Whether a word came, so that the rule of the whole text has begun.
    begun: bool,
    /// How many tokens were read.
    tokens: usize,
}

/// Whether the count passes the limit, if there is one.
fn is_past(count: usize, limit: Option<usize>) -> bool
    ensures { MatchBool result (Passes limit count) (IsWithin limit count) }
{
    match limit {
        Some(limit) => limit < count,
        None => false,
    }
}

impl<'a, O: Output> Parser<'a, O> {
    ghost use Rattle.gql_cst.specs.bridge.Going.{IsGoing, IsCounted, HasEnded, SameText, IsMade};
    ghost use Rattle.gql_cst.specs.bridge.Held.{Goes, IsHeld};
    ghost use Rattle.gql_cst.specs.bridge.Progress.{leaf_of, word_leaf};

    /// At the beginning of the text, which is read by the rule.
    pub(crate) fn new(
        alloc: Global,
        start: Rule,
        text: &'a str,
        limits: Limits,
        out: O,
    ) -> Parser<'a, O>
        requires starts { is_some (kind_of start) ≡ true }
        requires root { rows.level (root_kind start) ≡ 0 }
        requires nothing { (at : ℕ) → O.stands out at (whole_text [] ∷ []) [] }
        ensures going { IsGoing O.stands result 0 }
        ensures text { result.text.now ≡ text.now }
        ensures limits { result.limits ≡ limits }
        ensures start { result.start ≡ start }
    {
        Parser {
            text,
            limits,
            start,
            machine: Machine::new(alloc, out),
            begun: false,
            tokens: 0,
        }
    }

    /// Judges the next word, or the end of the text. It begins at the place.
    fn judge(&mut self, next: Option<Word>, place: usize) -> Result<Turn, Memory>
        requires { IsHeld O.stands self.old.machine place }
        ensures judged { IfOk result (λ turn. Goes O.stands self.old.machine self.new.machine place (λ s t.
            machine.Judges self.old.start next self.old.begun s (machine.told turn t))) }
        ensures same { OnOk result (self.new ≡ record self.old { machine = self.new.machine; begun = self.new.begun }) }
        ensures begun { IfOk result (λ turn. turn ≢ Turn.Refused → self.new.begun ≡ true) }
    {
        if !self.begun {
            if !self.machine.begin(self.start, next)? {
                return Ok(Turn::Refused);
            }
            self.begun = true;
        }
        self.machine.turn_until_judged(next, place)
    }

    /// Reads a token that the grammar does not ignore, once it is counted.
    fn read_word(&mut self, range: Range<usize>) -> Result<Option<CstError>, Memory>
        requires counted { IsCounted O.stands self.old range.start }
        requires token { IsLeaf self.old.text.now range.start (word_leaf range) }
        ensures same { OnOk result (SameText self.old self.new) }
        ensures goes_on { IfOk result (λ found. IfNone found (IsGoing O.stands self.new range.end)) }
        ensures ends { IfOk result (λ found. IfSome found (λ error. HasEnded O.stands self.new (Some error))) }
    {
        if self.limits.recursion < self.machine.deepest() {
            return Ok(Some(CstError::RecursionLimit { range }));
        }
        let word = word_of(&self.text[range.start..range.end]);
        match self.judge(Some(word), range.start)? {
            Turn::Taken => {
                self.machine.token(word, range)?;
                Ok(None)
            }
            _ => Ok(Some(CstError::Syntax {
                fault: SyntaxFault::BadToken,
                range,
            })),
        }
    }

    /// Reads a token, and tells what ends the reading there.
    pub(crate) fn read(&mut self, token: Token) -> Result<Option<CstError>, Memory>
        requires going { IsGoing O.stands self.old token.range.start }
        requires token { IsLeaf self.old.text.now token.range.start (leaf_of token) }
        ensures same { OnOk result (SameText self.old self.new) }
        ensures goes_on { IfOk result (λ found. IfNone found (IsGoing O.stands self.new token.range.end)) }
        ensures ends { IfOk result (λ found. IfSome found (λ error. HasEnded O.stands self.new (Some error))) }
    {
        let Token { kind, range } = token;
        self.tokens = raised(self.tokens, 1)?;
        if is_past(self.tokens, self.limits.tokens) {
            return Ok(Some(CstError::TokenLimit { range }));
        }
        if kind == TokenKind::Ignored {
            self.machine.ignored(range)?;
            return Ok(None);
        }
        self.read_word(range)
    }

    /// Reads the end of the text, and tells what is wrong there.
    pub(crate) fn end(&mut self) -> Result<Option<CstError>, Memory>
        requires going { IsGoing O.stands self.old (length self.old.text.now) }
        ensures same { OnOk result (SameText self.old self.new) }
        ensures ends { IfOk result (HasEnded O.stands self.new) }
    {
        let end = self.text.len();
        if self.limits.recursion < self.machine.deepest() {
            return Ok(Some(CstError::RecursionLimit { range: end..end }));
        }
        match self.judge(None, end)? {
            Turn::Finished => Ok(None),
            _ => Ok(Some(CstError::Syntax {
                fault: SyntaxFault::EndOfText,
                range: end..end,
            })),
        }
    }

    /// What the reading came to.
    pub(crate) fn made(self, error: Option<CstError>) -> Result<Made<O>, Memory>
        requires { HasEnded O.stands self error }
        ensures { IfOk result (IsMade O.stands self.entry.start self.entry.text.now self.entry.limits) }
    {
        let Parser {
            text: _,
            limits: _,
            start: _,
            machine,
            begun: _,
            tokens,
        } = self;
        let recursion_reached = machine.deepest();
        let out = machine.close()?;
        Ok(Made {
            out,
            error,
            recursion_reached,
            tokens_reached: tokens,
        })
    }
}
