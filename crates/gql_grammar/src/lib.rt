//! The grammar of GraphQL texts, as data: its words, its rules, and the way to write a rule that the next word chooses.
//!
//! A [`Word`] is a class of tokens that the grammar does not tell apart, such as `{`, a number, or a keyword. A [`Rule`]
//! is a left side of the grammar, and [`Rule::kind`] is the [`SyntaxKind`] of the node that it makes. [`Rule::way`] is
//! the row of [`Symbol`]s that a rule is written with where it begins with a word: at most one way begins with each.
//!
//! The grammar is that of appendix B of GraphQL October 2021.
//!
//! ```
//! let way = Rule::SelectionSet.way(Word::BraceOpen);
//! // Some of `{`, a Selection, further Selections, `}`
//! ```
#![tactic(auto)]

mod definition;
mod executable;
mod extension;
pub mod laws;
mod rule;
mod spelling;
mod starts;
mod symbol;
mod syntax_kind;
mod value;
mod way;
mod word;

pub use rule::Rule;
pub use symbol::{Symbol, Terminal};
pub use syntax_kind::SyntaxKind;
pub use word::Word;
