//! What is told of a text: its counts, or the first fault in it.

ghost use Rattle.std.specs.Prelude.{◌≡◌, IfOk};
ghost use Rattle.gql_cst.specs.Checked.{IsChecked};
ghost use Rattle.gql_syntax_tool.specs.Reply.{counts as counts_of, fault_text as fault_text_of, limits, range_of};
ghost use Rattle.gql_syntax_tool.specs.Start.{rule_of};

use crate::start::Start;
use bytes::Bytes;
use gql_cst::{Checked, CstError, Limits, Memory, check_document, check_selection_set, check_type};
use jb_io::{Command, Reply};
use std::alloc::Global;
use std::ops::Range;

// Nesting up to 500, and any number of tokens.
const LIMITS: Limits = Limits {
    recursion: 500,
    tokens: None,
};

impl Command for Start {
    ghost use Rattle.gql_syntax_tool.specs.Reply.{Accepts, Refuses};

    ghost answers = { Accepts };

    ghost refuses = { Refuses };

    fn reply(&self, alloc: Global, bytes: &Bytes) -> Result<Reply, Memory> {
        let Ok(text) = str::from_utf8(bytes.as_slice()) else {
            return Ok(Reply::Refusal(Bytes::from_static(b"no UTF-8")));
        };
        let checked = check(alloc, *self, text)?;
        match &checked.error {
            None => Ok(Reply::Answer(counts(alloc, &checked)?)),
            Some(error) => Ok(Reply::Refusal(fault_text(alloc, error)?)),
        }
    }
}

fn check(alloc: Global, start: Start, text: &str) -> Result<Checked, Memory>
    ensures { IfOk result (IsChecked (rule_of start) text.now limits) }
{
    match start {
        Start::Document => check_document(alloc, text, &LIMITS),
        Start::SelectionSet => check_selection_set(alloc, text, &LIMITS),
        Start::TypeReference => check_type(alloc, text, &LIMITS),
    }
}

/// How many tokens the text has, and how deep it is nested.
fn counts(alloc: Global, checked: &Checked) -> Result<Bytes, Memory>
    ensures { IfOk result (λ text. text ≡ counts_of checked.now) }
{
    let tokens = checked.tokens_reached;
    let nesting = checked.recursion_reached;
    let text = format!(in alloc; "tokens {tokens}, nesting {nesting}")?;
    Ok(Bytes::from_string(text)?)
}

/// The fault and its first byte.
fn fault_text(alloc: Global, error: &CstError) -> Result<Bytes, Memory>
    ensures { IfOk result (λ text. text ≡ fault_text_of error.now) }
{
    let message = error.message();
    let place = range(error).start;
    let text = format!(in alloc; "{message} at byte {place}")?;
    Ok(Bytes::from_string(text)?)
}

fn range(error: &CstError) -> Range<usize>
    ensures { result ≡ range_of error.now }
{
    match error {
        CstError::Syntax { range, .. }
        | CstError::RecursionLimit { range }
        | CstError::TokenLimit { range } => range.start..range.end,
    }
}
