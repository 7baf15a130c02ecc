//! The tokens of numbers and strings.

ghost use Rattle.std.specs.Prelude.{◌≡◌, true, IfOk, slice_index};
ghost use Rattle.std.specs.List.{list_any};
ghost use Rattle.gql_cst.specs.Forest.{plain};
ghost use Rattle.gql_cst.specs.bridge.Forest.{forest};
ghost use Rattle.gql_ast_base.specs.Literals as spec;

use crate::convert::{Convert, first};
use crate::node::inside;
use crate::source::Source;
use crate::token::token_text;
use gql_cst::{SyntaxKind, Tree, block_string_value, is_block_string, string_value};
use jb_text::{Memory, Text};
use std::alloc::Global;

/// Whether a token is a string.
#[must_use]
pub fn opens_string(token: &str) -> bool
    ensures { result ≡ spec.opens_string token.now }
{
    first_byte(token) == b'"'
}

/// Whether a token is a number: it begins with a digit or `-`.
#[must_use]
pub fn opens_number(token: &str) -> bool
    ensures { result ≡ spec.opens_number token.now }
{
    let byte = first_byte(token);
    byte.is_ascii_digit() || byte == b'-'
}

fn first_byte(token: &str) -> u8
    ensures { result ≡ slice_index token.now 0 }
{
    match token.as_bytes() {
        [first, ..] => *first,
        [] => 0,
    }
}

/// The characters that a string stands for (GraphQL October 2021, section 2.9.4). `Err` only where memory runs out.
#[tactic(auto, unfolding(crate::specs::Literals::string_text))]
pub fn string_text(alloc: Global, token: &str) -> Result<Text, Memory>
    requires { spec.opens_string token.now ≡ true }
    ensures { IfOk result (λ made. made ≡ spec.string_text token.now) }
{
    if is_block_string(token) {
        return Ok(Text::from_string(block_string_value(alloc, token)?));
    }
    Ok(Text::from_string(string_value(alloc, token)?))
}

/// Whether a number has a fraction or an exponent.
#[must_use]
pub(crate) fn has_part(token: &str) -> bool
    ensures { result ≡ list_any spec.has_part token.now }
{
    token
        .as_bytes()
        .iter()
        .any(|&byte| byte == b'.' || byte == b'e' || byte == b'E')
}

/// The characters of a token that is a string.
fn string_of(source: &Source<'_>, tree: &Tree) -> Result<Option<Text>, Memory>
    ensures { IfOk result (λ made. made ≡ spec.string_of source.now.text.now (plain tree.now)) }
{
    match token_text(source.text, tree) {
        Some(token) if opens_string(token) => Ok(Some(string_text(source.alloc, token)?)),
        _ => Ok(None),
    }
}

impl Convert for Text {
    ghost meaning = { λ text _ tree. spec.string_of text tree };

    /// The characters of a token that is a string.
    fn read(source: &Source<'_>, tree: &Tree) -> Result<Option<Text>, Memory> {
        let made = string_of(source, tree)?;
        Ok(made)
    }
}

/// The description among the parts of a definition (GraphQL October 2021, section 3.1). `Err` only where memory runs
/// out.
#[tactic(auto, unfolding(crate::specs::Literals::description))]
pub fn description(source: &Source<'_>, nodes: &[Tree]) -> Result<Option<Text>, Memory>
    ensures { IfOk result (λ made. made ≡ spec.description source.now.text.now (forest nodes.now)) }
{
    let made = first(source, inside(nodes, SyntaxKind::Description))?;
    Ok(made)
}
