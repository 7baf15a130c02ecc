//! References to types.

ghost use Rattle.std.specs.Prelude.{◌≡◌, IfOk};
ghost use Rattle.std.specs.Option.{option_map};
ghost use Rattle.gql_ast_base.specs.Forest.{plain};
ghost use Rattle.gql_ast_base.specs.bridge.Forest.{forest};
ghost use Rattle.gql_ast_base.specs.Parts as parts;
ghost use Rattle.gql_ast_base.specs.declared.type_ref.TypeRef.{List as ListOf};
ghost use Rattle.gql_ast_base.specs.Types as spec;
ghost use Rattle.gql_ast_base.specs.bridge.Types as spec_bridge;

use crate::boxed::Boxed;
use crate::convert::Convert;
use crate::copying::Copying;
use crate::name::Name;
use crate::node::is_of;
use crate::source::Source;
use crate::token::nth_name;
use gql_cst::{SyntaxKind, Tree};
use jb_text::Memory;
use std::alloc::Global;

/// A reference to a type (GraphQL October 2021, section 2.11): a name, or a list of such, each `!` or not.
#[derive(Drop)]
pub enum TypeRef {
    /// `T`
    Named(Name),
    /// `T!`
    NonNullNamed(Name),
    /// `[T]`
    List(Boxed<TypeRef>),
    /// `[T]!`
    NonNullList(Boxed<TypeRef>),
}

impl Copying for TypeRef {
    fn copy(&self, alloc: Global) -> Result<TypeRef, Memory> {
        copy_type(self, alloc)
    }
}

fn copy_type(ty: &TypeRef, alloc: Global) -> Result<TypeRef, Memory>
    ensures { IfOk result (λ copy. copy ≡ ty.now) }
{
    match ty {
        TypeRef::Named(name) => name.copy(alloc).map(TypeRef::Named),
        TypeRef::NonNullNamed(name) => name.copy(alloc).map(TypeRef::NonNullNamed),
        TypeRef::List(item) => {
            let item = copy_type(item.get(), alloc)?;
            Boxed::new(alloc, item).map(TypeRef::List)
        }
        TypeRef::NonNullList(item) => {
            let item = copy_type(item.get(), alloc)?;
            Boxed::new(alloc, item).map(TypeRef::NonNullList)
        }
    }
}

impl Convert for TypeRef {
    ghost meaning = { spec.type_of };

    fn read(source: &Source<'_>, tree: &Tree) -> Result<Option<TypeRef>, Memory> {
        let made = type_reference(source, tree)?;
        Ok(made)
    }
}

/// The type with `!` behind it.
#[must_use]
pub fn non_null(ty: TypeRef) -> TypeRef
    ensures { result ≡ spec.non_null ty }
{
    match ty {
        TypeRef::Named(name) => TypeRef::NonNullNamed(name),
        TypeRef::List(item) => TypeRef::NonNullList(item),
        other => other,
    }
}

/// The type that a tree refers to.
#[tactic(auto, unfolding(crate::specs::Types::type_step))]
fn type_reference(source: &Source<'_>, tree: &Tree) -> Result<Option<TypeRef>, Memory>
    ensures { IfOk result (λ made. made ≡ spec.type_of source.now.text.now source.now.file_id (plain tree.now)) }
{
    if !is_of(tree, SyntaxKind::TypeReference) {
        return Ok(None);
    }
    let made = first_type_form(source, tree.children().as_slice())?;
    Ok(made)
}

/// The list of the item, if there is one. `Err` only where memory runs out.
pub fn list_of(alloc: Global, item: Option<TypeRef>) -> Result<Option<TypeRef>, Memory>
    ensures { IfOk result (λ made. made ≡ option_map ListOf item) }
{
    match item {
        Some(item) => Ok(Some(TypeRef::List(Boxed::new(alloc, item)?))),
        None => Ok(None),
    }
}

/// One way to refer to a type: by its name, as a list, or as not null.
#[cycle(type_reference)]
#[tactic(auto, unfolding(crate::specs::Types::form_step))]
fn type_form(source: &Source<'_>, tree: &Tree) -> Result<Option<TypeRef>, Memory>
    ensures { IfOk result (λ made. made ≡ spec_bridge.form_of source.now.text.now source.now.file_id (plain tree.now)) }
{
    let nodes = tree.children().as_slice();
    if is_of(tree, SyntaxKind::NamedType) {
        let name = nth_name(source, nodes, 0)?;
        return Ok(name.map(TypeRef::Named));
    }
    if is_of(tree, SyntaxKind::ListType) {
        let item = first_type(source, nodes)?;
        let made = list_of(source.alloc, item)?;
        return Ok(made);
    }
    if is_of(tree, SyntaxKind::NonNullType) {
        let nullable = first_type_form(source, nodes)?;
        return Ok(nullable.map(non_null));
    }
    Ok(None)
}

/// The first way to refer to a type among the trees.
#[cycle(type_reference)]
fn first_type_form(source: &Source<'_>, nodes: &[Tree]) -> Result<Option<TypeRef>, Memory>
    ensures { IfOk result (λ made. made ≡ parts.head (spec.forms source.now.text.now source.now.file_id (forest nodes.now))) }
{
    for node in nodes {
        if let Some(found) = type_form(source, node)? {
            return Ok(Some(found));
        }
    }
    Ok(None)
}

/// What the first of the trees refers to which refers to a type.
#[cycle(type_reference)]
#[tactic(auto, unfolding(crate::specs::Types::type_step))]
fn first_type(source: &Source<'_>, nodes: &[Tree]) -> Result<Option<TypeRef>, Memory>
    ensures { IfOk result (λ made. made ≡ parts.head (spec.types source.now.text.now source.now.file_id (forest nodes.now))) }
{
    for node in nodes {
        if is_of(node, SyntaxKind::TypeReference) {
            let below = node.children().as_slice();
            if let Some(found) = first_type_form(source, below)? {
                return Ok(Some(found));
            }
        }
    }
    Ok(None)
}
