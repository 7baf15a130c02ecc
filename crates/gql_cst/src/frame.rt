//! The rules that are open.

use crate::SyntaxKind;
use crate::begun::Begun;
use gql_grammar::Symbol;

/// A rule that is open.
#[derive(Clone, Copy)]
pub(crate) struct Frame {
    /// The symbols of the rule that are to come.
    pub(crate) way: &'static [Symbol],
    /// The kind of its node, or None for a group, whose parts stand in the node around it.
    pub(crate) kind: Option<SyntaxKind>,
    /// The innermost node: the rule's own, or the one around it.
    pub(crate) begun: Begun,
}
