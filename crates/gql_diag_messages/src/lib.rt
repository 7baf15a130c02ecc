//! What can be wrong with a GraphQL schema or document: the rules by name, with their messages, and diagnostics.
//!
//! Each [`Rule`] has a message and, where the reference implementation of GraphQL says it otherwise, a compat message.
//! Both are patterns with places for names, and stand with the rule's name and row in one table, in the order of the
//! rows. A [`DiagnosticData`] says which rule was broken, by what, and where.
#![tactic(auto)]

mod details;
mod diagnostic_data;
mod family;
mod filled;
mod named_type;
mod rule;
mod rule_text;

pub use details::{Details, RuleFault};
pub use diagnostic_data::DiagnosticData;
pub use family::{Family, list_fault};
pub use jb_text::Memory;
pub use rule::Rule;
