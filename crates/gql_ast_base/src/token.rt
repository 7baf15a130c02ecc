//! The tokens of concrete trees.

ghost use Rattle.std.specs.Prelude.{◌≡◌, Some, IfOk, IfSome};
ghost use Rattle.std.specs.Option.{option_map, option_copied};
ghost use Rattle.gql_cst.specs.Forest.{plain};
ghost use Rattle.gql_cst.specs.bridge.Forest.{forest};
ghost use Rattle.gql_ast_base.specs.Parts as parts;

use crate::name::Name;
use crate::node::{is_of, location};
use crate::source::Source;
use gql_cst::{SyntaxKind, Tree};
use jb_text::Memory;

/// Whether the place lies between two characters, or at an end of the text.
fn is_boundary(text: &str, at: usize) -> bool
    ensures { result ≡ parts.is_boundary text.now at }
{
    let bytes = text.as_bytes();
    at == bytes.len() || (at < bytes.len() && (bytes[at] < 128 || 192 <= bytes[at]))
}

/// The part of the text between two places, or `None` where one of them does not lie between characters of it.
#[must_use]
#[tactic(auto, unfolding(crate::specs::Parts::piece))]
pub fn piece(text: &str, start: usize, end: usize) -> Option<&str>
    ensures { option_copied result ≡ parts.piece text.now start end }
{
    if start <= end && is_boundary(text, start) && is_boundary(text, end) {
        Some(&text[start..end])
    } else {
        None
    }
}

/// The text of a token.
#[must_use]
#[tactic(auto, unfolding(crate::specs::Parts::token_text))]
pub(crate) fn token_text<'a>(text: &'a str, tree: &Tree) -> Option<&'a str>
    ensures { option_copied result ≡ parts.token_text text.now (plain tree.now) }
{
    if is_of(tree, SyntaxKind::Token) {
        piece(text, tree.range().start, tree.range().end)
    } else {
        None
    }
}

/// The text of a token that is a name.
#[must_use]
#[tactic(auto, unfolding(crate::specs::Parts::word))]
pub fn word<'a>(text: &'a str, tree: &Tree) -> Option<&'a str>
    ensures { option_copied result ≡ parts.word text.now (plain tree.now) }
{
    match token_text(text, tree) {
        Some(found) if Name::is_valid_syntax(found) => Some(found),
        _ => None,
    }
}

/// The name that a token is, whose text is given.
fn named(source: &Source<'_>, tree: &Tree, found: &str) -> Result<Name, Memory>
    requires { Some found.now ≡ parts.word source.now.text.now (plain tree.now) }
    ensures { IfOk result (λ made. made ≡ record { text = found.now; location = parts.location source.now.file_id (plain tree.now) }) }
{
    let text = source.cut(tree.range(), found)?;
    Ok(Name::at(text, location(source.file_id, tree)))
}

/// The name that a token is.
#[tactic(auto, unfolding(crate::specs::Parts::name_of))]
pub(crate) fn name_of(source: &Source<'_>, tree: &Tree) -> Result<Option<Name>, Memory>
    ensures { IfOk result (λ made. made ≡ parts.name_of source.now.text.now source.now.file_id (plain tree.now)) }
{
    let Some(found) = word(source.text, tree) else {
        return Ok(None);
    };
    let name = named(source, tree, found)?;
    Ok(Some(name))
}

/// The nth name among the trees, counted from 0, and its text.
fn nth_found<'a, 't>(nodes: &'a [Tree], text: &'t str, n: usize) -> Option<(&'a Tree, &'t str)>
    ensures tree { option_map (λ found. plain found.0.now) result ≡ parts.nth_word text.now n (forest nodes.now) }
    ensures text { IfSome result (λ found. Some found.1.now ≡ parts.word text.now (plain found.0.now)) }
{
    let mut left = n;
    for node in nodes {
        if let Some(found) = word(text, node) {
            if left == 0 {
                return Some((node, found));
            }
            left -= 1;
        }
    }
    None
}

/// The text of the nth name among the trees, counted from 0.
#[must_use]
pub fn nth_text<'a>(nodes: &[Tree], text: &'a str, n: usize) -> Option<&'a str>
    ensures { option_copied result ≡ parts.nth_text text.now n (forest nodes.now) }
{
    match nth_found(nodes, text, n) {
        Some((_tree, found)) => Some(found),
        None => None,
    }
}

/// The nth name among the trees, counted from 0 (GraphQL October 2021, section 2.1.9). `Err` only where memory runs
/// out.
#[tactic(auto, unfolding(crate::specs::Parts::nth_name, crate::specs::Parts::name_of))]
pub fn nth_name(source: &Source<'_>, nodes: &[Tree], n: usize) -> Result<Option<Name>, Memory>
    ensures { IfOk result (λ made. made ≡ parts.nth_name source.now.text.now source.now.file_id n (forest nodes.now)) }
{
    let Some((tree, found)) = nth_found(nodes, source.text, n) else {
        return Ok(None);
    };
    let name = named(source, tree, found)?;
    Ok(Some(name))
}

/// Whether the nth name among the trees is the word.
#[must_use]
pub fn is_word(nodes: &[Tree], text: &str, n: usize, word: &str) -> bool
    ensures { result ≡ parts.is_word (parts.nth_text text.now n (forest nodes.now)) word.now }
{
    match nth_text(nodes, text, n) {
        Some(found) => found == word,
        None => false,
    }
}

/// The trees after the nth name among them, counted from 0; none where there is no such name.
#[must_use]
pub fn after_word<'a>(nodes: &'a [Tree], text: &str, n: usize) -> &'a [Tree]
    ensures { forest result.now ≡ parts.after_word text.now n (forest nodes.now) }
{
    let mut left = n;
    for (index, node) in nodes.iter().enumerate() {
        if word(text, node).is_some() {
            if left == 0 {
                return &nodes[index + 1..];
            }
            left -= 1;
        }
    }
    &[]
}
