//! The syntax of GraphQL texts.
//!
//! [`parse_document`], [`parse_selection_set`], [`parse_type`] and [`parse_const_value`] read a text by the grammar of
//! GraphQL October 2021, appendix B, and give its concrete [`Tree`]: every token of the text, white space and comments
//! included, in the nodes of the grammar. They stop at the first thing that is wrong, which is the [`CstError`] of what was
//! [`Parsed`], or at one of the [`Limits`]. [`read_document`] makes no tree, but tells an [`Output`] of the caller's own which
//! nodes and tokens come.
//!
//! A [`Lexer`] cuts a text into [`Token`]s, each with its [`TokenKind`] and its range of bytes, or gives the
//! [`CstError`] that stands in place of one. [`string_value`] and [`block_string_value`] give the characters
//! that the token of a string stands for; [`is_block_string`] tells which of the two it is.
//!
//! The rules of tokens are those of section 2.1 and, for the values of strings, 2.9.4 of GraphQL October 2021.
//!
//! The grammar does not say in which node an ignored token stands. Apart from that a text has one tree: its tokens are
//! one list, and any two trees of it are equal once the ignored tokens and the places of inner nodes are left out. The
//! functions of [`laws`] do nothing when they run: their contracts are these laws.
//!
//! ```
//! let limits = Limits { recursion: 500, tokens: None };
//! let parsed = parse_document(alloc, "{ name }", &limits)?;
//! // parsed.error is None, parsed.tree.kind() is SyntaxKind::Document, and parsed.tokens_reached is 5
//! ```
#![tactic(auto)]

mod begun;
mod check;
mod count;
mod drive;
mod frame;
pub mod laws;
mod limits;
mod machine;
mod made;
mod nothing;
mod output;
mod parse;
mod parser;
mod tree;
mod trees;
mod turn;
mod word;

pub use begun::Begun;
pub use check::{check_document, check_selection_set, check_type};
pub use drive::read_document;
pub use gql_grammar::SyntaxKind;
pub use gql_lexer::{
    CstError, Lexer, SyntaxFault, Token, TokenKind, block_string_value, is_block_string,
    string_value,
};
pub use limits::{Checked, Limits, Memory, Parsed};
pub use made::Made;
pub use output::Output;
pub use parse::{parse_const_value, parse_document, parse_selection_set, parse_type};
pub use tree::{Nodes, Tree};
