//! Operation types.

ghost use Rattle.std.specs.Prelude.{◌≡◌};
ghost use Rattle.gql_cst.specs.Forest.{plain};
ghost use Rattle.gql_cst.specs.bridge.Forest.{forest};
ghost use Rattle.gql_ast_base.specs.OperationTypes as spec;

use crate::convert::Convert;
use crate::copying::Copying;
use crate::name::Name;
use crate::named_type::named_type_in;
use crate::node::is_of;
use crate::source::Source;
use crate::token::nth_text;
use gql_cst::{SyntaxKind, Tree};
use jb_text::Memory;
use std::alloc::Global;

/// What an operation does (GraphQL October 2021, section 2.3).
#[derive(Clone, Copy, Debug, PartialEq, Eq)]
pub enum OperationType {
    Query,
    Mutation,
    Subscription,
}

impl Copying for OperationType {
    fn copy(&self, _alloc: Global) -> Result<OperationType, Memory> {
        Ok(*self)
    }
}

/// The operation type that a word names.
#[must_use]
pub fn operation_word(found: &str) -> Option<OperationType>
    ensures { result ≡ spec.operation_word found.now }
{
    match found {
        "query" => Some(OperationType::Query),
        "mutation" => Some(OperationType::Mutation),
        "subscription" => Some(OperationType::Subscription),
        _ => None,
    }
}

#[tactic(auto, unfolding(crate::specs::OperationTypes::operation_type_of))]
fn operation_type_of(tree: &Tree, text: &str) -> Option<OperationType>
    ensures { result ≡ spec.operation_type_of text.now (plain tree.now) }
{
    if !is_of(tree, SyntaxKind::OperationType) {
        return None;
    }
    match nth_text(tree.children().as_slice(), text, 0) {
        Some(found) => operation_word(found),
        None => None,
    }
}

/// The operation type among the trees.
#[must_use]
#[tactic(auto, unfolding(crate::specs::OperationTypes::operation_type_in))]
pub fn operation_type_in(nodes: &[Tree], text: &str) -> Option<OperationType>
    ensures { result ≡ spec.operation_type_in text.now (forest nodes.now) }
{
    for node in nodes {
        if let Some(found) = operation_type_of(node, text) {
            return Some(found);
        }
    }
    None
}

impl Convert for OperationType {
    ghost meaning = { λ text _ tree. spec.operation_type_of text tree };

    fn read(source: &Source<'_>, tree: &Tree) -> Result<Option<OperationType>, Memory> {
        Ok(operation_type_of(tree, source.text))
    }
}

/// An operation type and the type that its operations are on.
impl Convert for (OperationType, Name) {
    ghost meaning = { spec.root_operation_of };

    #[tactic(auto, unfolding(crate::specs::OperationTypes::root_operation_of))]
    fn read(source: &Source<'_>, tree: &Tree) -> Result<Option<(OperationType, Name)>, Memory> {
        if !is_of(tree, SyntaxKind::RootOperationTypeDefinition) {
            return Ok(None);
        }
        let nodes = tree.children().as_slice();
        let Some(operation) = operation_type_in(nodes, source.text) else {
            return Ok(None);
        };
        match named_type_in(source, nodes)? {
            Some(name) => Ok(Some((operation, name))),
            None => Ok(None),
        }
    }
}
