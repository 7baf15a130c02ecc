//! The texts of constant values.

ghost use Rattle.std.specs.Prelude.{◌≡◌, IfOk};
ghost use Rattle.gql_client_schema.specs.bridge.Constants.{IsConstantIn};
ghost use Rattle.gql_client_schema.specs.Parts.{constant_of as constant_in, read_constant};
ghost use Rattle.gql_client_schema.specs.Reading.{Answers};

use crate::path::{Unread, misfit};
use crate::reading::Read;
use gql_ast::print_value;
use gql_ast_base::{Convert, Value as Literal};
use gql_cst::{Limits, laws as tree_laws, parse_const_value};
use gql_source::FileId;
use jb_text::{Memory, Refused, Text};
use jb_tree::Value;
use std::alloc::Global;

// Nesting up to 500, and any number of tokens.
const LIMITS: Limits = Limits {
    recursion: 500,
    tokens: None,
};

impl Read for Text {
    ghost reading = { read_constant };

    /// The text of a constant value of GraphQL, as that is printed.
    fn read(alloc: Global, value: &Value) -> Result<Text, Unread> {
        match value.as_str() {
            Some(text) => constant_of(alloc, text),
            None => Err(misfit(alloc)),
        }
    }
}

fn constant_of(alloc: Global, text: &str) -> Result<Text, Unread>
    ensures { Answers (constant_in text.now) result }
{
    match printed_constant(alloc, text) {
        Ok(Some(printed)) => Ok(printed),
        Ok(None) => Err(misfit(alloc)),
        Err(_) => Err(Refused::Memory),
    }
}

/// How the constant value is printed that the text is (GraphQL October 2021, section 2.9), nested at most 500 deep; `None` exactly
/// where the text is none. `Err` only when out of memory.
pub(crate) fn printed_constant(alloc: Global, text: &str) -> Result<Option<Text>, Memory>
    ensures { IfOk result (IsConstantIn text.now) }
{
    tree_laws::texts_have_one_tree();
    tree_laws::parses_are_trees();
    let parsed = parse_const_value(alloc, text, &LIMITS)?;
    if parsed.error.is_some() {
        return Ok(None);
    }
    match Literal::convert(alloc, &parsed.tree, text, FileId::NONE)? {
        Some(value) => Ok(Some(print_value(alloc, &value)?)),
        None => Ok(None),
    }
}
