//! Directives and arguments where they are used.

ghost use Rattle.std.specs.Prelude.{◌≡◌, IfOk};
ghost use Rattle.gql_ast_base.specs.bridge.Forest.{forest};
ghost use Rattle.gql_ast_base.specs.Directives as spec;

use crate::convert::{Convert, first, gather};
use crate::copying::Copying;
use crate::name::Name;
use crate::node::{inside, is_of, location};
use crate::source::Source;
use crate::together::both;
use crate::token::nth_name;
use crate::value::Value;
use gql_cst::{SyntaxKind, Tree};
use gql_source::SourceSpan;
use jb_text::{Listed, Memory};
use std::alloc::Global;

/// A directive on something (GraphQL October 2021, section 2.12).
pub struct Directive {
    pub name: Name,
    pub arguments: Listed<Argument>,
    pub location: Option<SourceSpan>,
}

impl Drop for Directive {
    fn drop(self) {
        let Directive {
            name: _,
            arguments: _,
            location: _,
        } = self;
    }
}

/// An argument of a field or a directive (section 2.6).
pub struct Argument {
    pub name: Name,
    pub value: Value,
    pub location: Option<SourceSpan>,
}

impl Drop for Argument {
    fn drop(self) {
        let Argument {
            name: _,
            value: _,
            location: _,
        } = self;
    }
}

impl Copying for Directive {
    fn copy(&self, alloc: Global) -> Result<Directive, Memory> {
        let (name, arguments) = both(self.name.copy(alloc), self.arguments.copy(alloc))?;
        Ok(Directive {
            name,
            arguments,
            location: self.location,
        })
    }
}

impl Copying for Argument {
    fn copy(&self, alloc: Global) -> Result<Argument, Memory> {
        let (name, value) = both(self.name.copy(alloc), self.value.copy(alloc))?;
        Ok(Argument {
            name,
            value,
            location: self.location,
        })
    }
}

impl Convert for Argument {
    ghost meaning = { spec.argument_of };

    #[tactic(auto, unfolding(crate::specs::Directives::argument_of))]
    fn read(source: &Source<'_>, tree: &Tree) -> Result<Option<Argument>, Memory> {
        if !is_of(tree, SyntaxKind::Argument) {
            return Ok(None);
        }
        let nodes = tree.children().as_slice();
        let Some(name) = nth_name(source, nodes, 0)? else {
            return Ok(None);
        };
        let Some(value) = first(source, nodes)? else {
            return Ok(None);
        };
        Ok(Some(Argument {
            name,
            value,
            location: location(source.file_id, tree),
        }))
    }
}

impl Convert for Directive {
    ghost meaning = { spec.directive_of };

    #[tactic(auto, unfolding(crate::specs::Directives::directive_of))]
    fn read(source: &Source<'_>, tree: &Tree) -> Result<Option<Directive>, Memory> {
        if !is_of(tree, SyntaxKind::Directive) {
            return Ok(None);
        }
        let nodes = tree.children().as_slice();
        let Some(name) = nth_name(source, nodes, 0)? else {
            return Ok(None);
        };
        Ok(Some(Directive {
            name,
            arguments: arguments(source, nodes)?,
            location: location(source.file_id, tree),
        }))
    }
}

/// The arguments among the parts of a field or a directive (GraphQL October 2021, section 2.6). `Err` only where memory
/// runs out.
#[tactic(auto, unfolding(crate::specs::Directives::arguments))]
pub fn arguments(source: &Source<'_>, nodes: &[Tree]) -> Result<Listed<Argument>, Memory>
    ensures { IfOk result (λ made. made ≡ spec.arguments source.now.text.now source.now.file_id (forest nodes.now)) }
{
    let list = gather(source, inside(nodes, SyntaxKind::Arguments))?;
    Ok(list)
}

/// The directives among the parts of something (GraphQL October 2021, section 2.12). `Err` only where memory runs out.
#[tactic(auto, unfolding(crate::specs::Directives::directives))]
pub fn directives(source: &Source<'_>, nodes: &[Tree]) -> Result<Listed<Directive>, Memory>
    ensures { IfOk result (λ made. made ≡ spec.directives source.now.text.now source.now.file_id (forest nodes.now)) }
{
    let list = gather(source, inside(nodes, SyntaxKind::Directives))?;
    Ok(list)
}
