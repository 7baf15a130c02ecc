//! Drives an output over a whole text.

ghost use Rattle.std.specs.Prelude.{◌≡◌, ℕ, [], ◌∷◌, true, IfOk, OnOk, is_some};
ghost use Rattle.gql_cst.specs.bridge.Going.{IsGoing, HasEnded, SameText, IsMade};
ghost use Rattle.gql_cst.specs.bridge.Open.{whole_text};
ghost use Rattle.gql_cst.specs.Sentences.{root_kind};
ghost use Rattle.gql_grammar.specs.Row as rows;
ghost use Rattle.gql_grammar.specs.Rule.{kind_of};

use crate::made::Made;
use crate::output::Output;
use crate::parser::Parser;
use crate::{CstError, Lexer, Limits, Memory};
use gql_grammar::Rule;
use std::alloc::Global;

/// Reads the text up to its end, or to what ends the reading before.
fn read_all<O: Output>(parser: &mut Parser<O>, text: &str) -> Result<Option<CstError>, Memory>
    requires going { IsGoing O.stands parser.old 0 }
    requires text { parser.old.text.now ≡ text.now }
    ensures same { OnOk result (SameText parser.old parser.new) }
    ensures ended { IfOk result (HasEnded O.stands parser.new) }
{
    let mut lexer = Lexer::new(text);
    while let Some(found) = lexer.next_token() {
        match found {
            Ok(token) => {
                if let Some(error) = parser.read(token)? {
                    return Ok(Some(error));
                }
            }
            Err(error) => return Ok(Some(error)),
        }
    }
    parser.end()
}

/// What an output makes of the text as far as it can be read by the rule.
pub(crate) fn read_text<O: Output>(
    alloc: Global,
    start: Rule,
    text: &str,
    limits: &Limits,
    out: O,
) -> Result<Made<O>, Memory>
    requires starts { is_some (kind_of start) ≡ true }
    requires root { rows.level (root_kind start) ≡ 0 }
    requires nothing { (at : ℕ) → O.stands out at (whole_text [] ∷ []) [] }
    ensures { IfOk result (IsMade O.stands start text.now limits.now) }
{
    let mut parser = Parser::new(alloc, start, text, *limits, out);
    let error = read_all(&mut parser, text)?;
    parser.made(error)
}

/// Drives an output over a document (Document, GraphQL October 2021, section 2.2), and tells of the text what
/// [`parse_document`](crate::parse_document) tells of it.
///
/// The output comes with nothing in it: no node began but the row of the whole text, and no token came. What it is given are
/// the nodes and tokens of the tree of `parse_document`, but for the node of the document itself. It comes back with all of
/// them, where no error ended the reading. Else it has the tokens before the error, the nodes that were open there have
/// ended, and the error is the first in reading order:
///
/// - a fault of the text itself, as [`Lexer::next_token`] gives it, where a token is wanted;
/// - `TokenLimit` at the first token past `limits.tokens`, tokens that the grammar ignores included;
/// - `RecursionLimit` at the next token that is not ignored, or at the text's end, where the nesting of selection sets,
///   object values, list values and list types passes `limits.recursion`;
/// - `BadToken` at the first token with which no document goes on, and `EndOfText` at the end of a text that begins a
///   document and is none.
///
/// `Err` only when the parser or the output is out of memory, and the output is gone then.
pub fn read_document<O: Output>(
    alloc: Global,
    text: &str,
    limits: &Limits,
    out: O,
) -> Result<Made<O>, Memory>
    requires nothing { (at : ℕ) → O.stands out at (whole_text [] ∷ []) [] }
    ensures { IfOk result (IsMade O.stands Rule.Document text.now limits.now) }
{
    read_text(alloc, Rule::Document, text, limits, out)
}
