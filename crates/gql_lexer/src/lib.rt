//! The lexical grammar of GraphQL: cuts a text into tokens, and tells what a string stands for.
//!
//! A [`Lexer`] gives the tokens of a text one after the other, white space, commas and comments included,
//! up to the first fault. It takes no memory, and reads each byte about once. [`string_value`] gives the
//! characters that a string on one line stands for, and [`block_string_value`] those of a block string.
//!
//! The rules are those of section 2.1 of GraphQL October 2021, with two differences. A source character is
//! any Unicode scalar value but the controls below U+0020 other than tab, LF and CR. And in a string the
//! escapes of a high and a low surrogate in a row stand for one character, while any other escape of a
//! surrogate is a fault.
//!
//! ```
//! let mut lexer = Lexer::new("{ name }");
//! let Some(Ok(token)) = lexer.next_token() else { return };
//! // token.kind is TokenKind::Punctuator, and token.range is 0..1
//! ```
#![tactic(auto)]

mod block_string;
mod class;
mod cut;
mod error;
pub mod laws;
mod lexer;
mod line;
mod number;
mod run;
mod scan;
mod string;
mod token;
mod value;

pub use block_string::{block_string_value, is_block_string};
pub use error::{CstError, Memory, SyntaxFault};
pub use lexer::Lexer;
pub use token::{Token, TokenKind};
pub use value::string_value;
