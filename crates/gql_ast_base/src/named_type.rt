//! The names of types.

ghost use Rattle.std.specs.Prelude.{◌≡◌, IfOk};
ghost use Rattle.gql_cst.specs.Forest.{plain};
ghost use Rattle.gql_cst.specs.bridge.Forest.{forest};
ghost use Rattle.gql_ast_base.specs.Parts as parts;
ghost use Rattle.gql_ast_base.specs.NamedTypes as spec;

use crate::convert::push_found;
use crate::name::Name;
use crate::node::{inside, is_of};
use crate::source::Source;
use crate::token::nth_name;
use gql_cst::{SyntaxKind, Tree};
use jb_text::{Listed, Memory};

/// The name of the first named type among the trees (GraphQL October 2021, section 2.11). `Err` only where memory
/// runs out.
#[tactic(auto, unfolding(crate::specs::NamedTypes::named_type_in))]
pub fn named_type_in(source: &Source<'_>, nodes: &[Tree]) -> Result<Option<Name>, Memory>
    ensures { IfOk result (λ made. made ≡ spec.named_type_in source.now.text.now source.now.file_id (forest nodes.now)) }
{
    let nodes = inside(nodes, SyntaxKind::NamedType);
    let name = nth_name(source, nodes, 0)?;
    Ok(name)
}

/// The name of a named type.
#[tactic(auto, unfolding(crate::specs::NamedTypes::named_type_of))]
fn named_type_of(source: &Source<'_>, tree: &Tree) -> Result<Option<Name>, Memory>
    ensures { IfOk result (λ made. made ≡ spec.named_type_of source.now.text.now source.now.file_id (plain tree.now)) }
{
    if !is_of(tree, SyntaxKind::NamedType) {
        return Ok(None);
    }
    let name = nth_name(source, tree.children().as_slice(), 0)?;
    Ok(name)
}

/// The names of the named types among the trees. `Err` only where memory runs out.
pub fn named_types(source: &Source<'_>, nodes: &[Tree]) -> Result<Listed<Name>, Memory>
    ensures { IfOk result (λ made. made ≡ parts.gather (spec.named_type_of source.now.text.now source.now.file_id) (forest nodes.now)) }
{
    let mut list = Listed::new(source.alloc);
    for node in nodes {
        push_found(&mut list, named_type_of(source, node)?)?;
    }
    Ok(list)
}
