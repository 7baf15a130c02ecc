//! Reads a whole text: a document, a selection set, a reference to a type, or a constant value.

ghost use Rattle.std.specs.Prelude.{◌≡◌, true, IfOk, is_some};
ghost use Rattle.gql_cst.specs.bridge.Cut.{IsCutTree};
ghost use Rattle.gql_cst.specs.Parses.{IsParse};
ghost use Rattle.gql_cst.specs.bridge.Parses.{Accepts};
ghost use Rattle.gql_cst.specs.Sentences.{root_kind};
ghost use Rattle.gql_cst.specs.bridge.Spans.{IsSpanned};
ghost use Rattle.gql_grammar.specs.Row as rows;
ghost use Rattle.gql_grammar.specs.Rule.{kind_of};

use crate::drive::read_text;
use crate::made::Made;
use crate::trees::Trees;
use crate::{Limits, Memory, Parsed, SyntaxKind};
use gql_grammar::Rule;
use std::alloc::Global;

/// The tree of the text as far as it can be read by the rule, whose node has the kind.
fn parse(
    alloc: Global,
    start: Rule,
    kind: SyntaxKind,
    text: &str,
    limits: &Limits,
) -> Result<Parsed, Memory>
    requires starts { is_some (kind_of start) ≡ true }
    requires root { rows.level (root_kind start) ≡ 0 }
    requires kind { kind ≡ root_kind start }
    ensures parse { IfOk result (IsParse start text.now limits.now) }
    ensures accepts { IfOk result (Accepts start text.now limits.now) }
    ensures cut { IfOk result (IsCutTree start text.now) }
    ensures spans { IfOk result IsSpanned }
{
    let Made {
        out,
        error,
        recursion_reached,
        tokens_reached,
    } = read_text(alloc, start, text, limits, Trees::new(alloc))?;
    let tree = out.into_root(kind)?;
    Ok(Parsed {
        tree,
        error,
        recursion_reached,
        tokens_reached,
    })
}

/// The tree of a document (Document, GraphQL October 2021, section 2.2).
///
/// Where the tree has no error, it is the one tree of the whole text. Else it holds the tokens before the error, in the
/// nodes that were open there, and the error is the first in reading order:
///
/// - a fault of the text itself, as [`Lexer::next_token`] gives it, where a token is wanted;
/// - `TokenLimit` at the first token past `limits.tokens`, tokens that the grammar ignores included;
/// - `RecursionLimit` at the next token that is not ignored, or at the text's end, where the nesting of selection sets,
///   object values, list values and list types passes `limits.recursion`;
/// - `BadToken` at the first token with which no document goes on, and `EndOfText` at the end of a text that begins a
///   document and is none.
///
/// `Err` only when out of memory.
pub fn parse_document(alloc: Global, text: &str, limits: &Limits) -> Result<Parsed, Memory>
    ensures parse { IfOk result (IsParse Rule.Document text.now limits.now) }
    ensures accepts { IfOk result (Accepts Rule.Document text.now limits.now) }
    ensures cut { IfOk result (IsCutTree Rule.Document text.now) }
    ensures spans { IfOk result IsSpanned }
{
    parse(alloc, Rule::Document, SyntaxKind::Document, text, limits)
}

/// The tree of a selection set (SelectionSet, GraphQL October 2021, section 2.4), or of selections without the braces
/// around them. Its kind is `FieldSet`. The errors are those of [`parse_document`].
pub fn parse_selection_set(alloc: Global, text: &str, limits: &Limits) -> Result<Parsed, Memory>
    ensures parse { IfOk result (IsParse Rule.FieldSet text.now limits.now) }
    ensures accepts { IfOk result (Accepts Rule.FieldSet text.now limits.now) }
    ensures cut { IfOk result (IsCutTree Rule.FieldSet text.now) }
    ensures spans { IfOk result IsSpanned }
{
    parse(alloc, Rule::FieldSet, SyntaxKind::FieldSet, text, limits)
}

/// The tree of a reference to a type (Type, GraphQL October 2021, section 2.11). Its kind is `TypeReference`. The errors
/// are those of [`parse_document`].
pub fn parse_type(alloc: Global, text: &str, limits: &Limits) -> Result<Parsed, Memory>
    ensures parse { IfOk result (IsParse Rule.TypeReference text.now limits.now) }
    ensures accepts { IfOk result (Accepts Rule.TypeReference text.now limits.now) }
    ensures cut { IfOk result (IsCutTree Rule.TypeReference text.now) }
    ensures spans { IfOk result IsSpanned }
{
    parse(
        alloc,
        Rule::TypeReference,
        SyntaxKind::TypeReference,
        text,
        limits,
    )
}

/// The tree of a constant value, which is one without variables (Value with Const, GraphQL October 2021, section 2.9), as
/// default values are. Its kind is `Value`. The errors are those of [`parse_document`].
pub fn parse_const_value(alloc: Global, text: &str, limits: &Limits) -> Result<Parsed, Memory>
    ensures parse { IfOk result (IsParse Rule.ConstValue text.now limits.now) }
    ensures accepts { IfOk result (Accepts Rule.ConstValue text.now limits.now) }
    ensures cut { IfOk result (IsCutTree Rule.ConstValue text.now) }
    ensures spans { IfOk result IsSpanned }
{
    parse(alloc, Rule::ConstValue, SyntaxKind::Value, text, limits)
}
