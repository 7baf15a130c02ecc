//! Definitions and extensions.

ghost use Rattle.std.specs.Prelude.{◌≡◌, IfOk};
ghost use Rattle.gql_cst.specs.Forest.{plain};
ghost use Rattle.gql_cst.specs.bridge.Forest.{forest};
ghost use Rattle.gql_ast_base.specs.Parts as parts;
ghost use Rattle.gql_ast.specs.Documents as spec;

use crate::{
    DirectiveDefinition, EnumTypeDefinition, EnumTypeExtension, FragmentDefinition,
    InputObjectTypeDefinition, InputObjectTypeExtension, InterfaceTypeDefinition,
    InterfaceTypeExtension, ObjectTypeDefinition, ObjectTypeExtension, OperationDefinition,
    ScalarTypeDefinition, ScalarTypeExtension, SchemaDefinition, SchemaExtension,
    UnionTypeDefinition, UnionTypeExtension,
};
use gql_ast_base::{Convert, Copying, Source, is_of, nth_text};
use gql_cst::{SyntaxKind, Tree};
use jb_text::Memory;
use std::alloc::Global;

/// One definition or extension of a document (GraphQL October 2021, section 2.2).
#[derive(Drop)]
pub enum Definition {
    OperationDefinition(OperationDefinition),
    FragmentDefinition(FragmentDefinition),
    DirectiveDefinition(DirectiveDefinition),
    SchemaDefinition(SchemaDefinition),
    ScalarTypeDefinition(ScalarTypeDefinition),
    ObjectTypeDefinition(ObjectTypeDefinition),
    InterfaceTypeDefinition(InterfaceTypeDefinition),
    UnionTypeDefinition(UnionTypeDefinition),
    EnumTypeDefinition(EnumTypeDefinition),
    InputObjectTypeDefinition(InputObjectTypeDefinition),
    SchemaExtension(SchemaExtension),
    ScalarTypeExtension(ScalarTypeExtension),
    ObjectTypeExtension(ObjectTypeExtension),
    InterfaceTypeExtension(InterfaceTypeExtension),
    UnionTypeExtension(UnionTypeExtension),
    EnumTypeExtension(EnumTypeExtension),
    InputObjectTypeExtension(InputObjectTypeExtension),
}

impl Copying for Definition {
    fn copy(&self, alloc: Global) -> Result<Definition, Memory> {
        match self {
            Definition::OperationDefinition(it) => it
                .copy(alloc)
                .map(Definition::OperationDefinition),
            Definition::FragmentDefinition(it) => it
                .copy(alloc)
                .map(Definition::FragmentDefinition),
            Definition::DirectiveDefinition(it) => it
                .copy(alloc)
                .map(Definition::DirectiveDefinition),
            Definition::SchemaDefinition(it) => it.copy(alloc).map(Definition::SchemaDefinition),
            Definition::ScalarTypeDefinition(it) => it
                .copy(alloc)
                .map(Definition::ScalarTypeDefinition),
            Definition::ObjectTypeDefinition(it) => it
                .copy(alloc)
                .map(Definition::ObjectTypeDefinition),
            Definition::InterfaceTypeDefinition(it) => it
                .copy(alloc)
                .map(Definition::InterfaceTypeDefinition),
            Definition::UnionTypeDefinition(it) => it
                .copy(alloc)
                .map(Definition::UnionTypeDefinition),
            Definition::EnumTypeDefinition(it) => it
                .copy(alloc)
                .map(Definition::EnumTypeDefinition),
            Definition::InputObjectTypeDefinition(it) => it
                .copy(alloc)
                .map(Definition::InputObjectTypeDefinition),
            Definition::SchemaExtension(it) => it.copy(alloc).map(Definition::SchemaExtension),
            Definition::ScalarTypeExtension(it) => it
                .copy(alloc)
                .map(Definition::ScalarTypeExtension),
            Definition::ObjectTypeExtension(it) => it
                .copy(alloc)
                .map(Definition::ObjectTypeExtension),
            Definition::InterfaceTypeExtension(it) => it
                .copy(alloc)
                .map(Definition::InterfaceTypeExtension),
            Definition::UnionTypeExtension(it) => it
                .copy(alloc)
                .map(Definition::UnionTypeExtension),
            Definition::EnumTypeExtension(it) => it.copy(alloc).map(Definition::EnumTypeExtension),
            Definition::InputObjectTypeExtension(it) => it
                .copy(alloc)
                .map(Definition::InputObjectTypeExtension),
        }
    }
}

/// The extension of what the word behind `extend` says.
fn extension(source: &Source<'_>, tree: &Tree) -> Result<Option<Definition>, Memory>
    ensures { IfOk result (λ made. made ≡ spec.extension_of source.now.text.now source.now.file_id (plain tree.now)) }
{
    match nth_text(tree.children().as_slice(), source.text, 1) {
        Some("schema") => {
            let found = SchemaExtension::read(source, tree)?;
            Ok(found.map(Definition::SchemaExtension))
        }
        Some("scalar") => {
            let found = ScalarTypeExtension::read(source, tree)?;
            Ok(found.map(Definition::ScalarTypeExtension))
        }
        Some("type") => {
            let found = ObjectTypeExtension::read(source, tree)?;
            Ok(found.map(Definition::ObjectTypeExtension))
        }
        Some("interface") => {
            let found = InterfaceTypeExtension::read(source, tree)?;
            Ok(found.map(Definition::InterfaceTypeExtension))
        }
        Some("union") => {
            let found = UnionTypeExtension::read(source, tree)?;
            Ok(found.map(Definition::UnionTypeExtension))
        }
        Some("enum") => {
            let found = EnumTypeExtension::read(source, tree)?;
            Ok(found.map(Definition::EnumTypeExtension))
        }
        Some("input") => {
            let found = InputObjectTypeExtension::read(source, tree)?;
            Ok(found.map(Definition::InputObjectTypeExtension))
        }
        Some(_) => Ok(None),
        None => Ok(None),
    }
}

/// What the tree defines, by its kind.
fn choice(source: &Source<'_>, tree: &Tree) -> Result<Option<Definition>, Memory>
    ensures { IfOk result (λ made. made ≡ spec.choice_of source.now.text.now source.now.file_id (plain tree.now)) }
{
    match tree.kind() {
        SyntaxKind::OperationDefinition => {
            let found = OperationDefinition::read(source, tree)?;
            Ok(found.map(Definition::OperationDefinition))
        }
        SyntaxKind::FragmentDefinition => {
            let found = FragmentDefinition::read(source, tree)?;
            Ok(found.map(Definition::FragmentDefinition))
        }
        SyntaxKind::DirectiveDefinition => {
            let found = DirectiveDefinition::read(source, tree)?;
            Ok(found.map(Definition::DirectiveDefinition))
        }
        SyntaxKind::SchemaDefinition => {
            let found = SchemaDefinition::read(source, tree)?;
            Ok(found.map(Definition::SchemaDefinition))
        }
        SyntaxKind::ScalarTypeDefinition => {
            let found = ScalarTypeDefinition::read(source, tree)?;
            Ok(found.map(Definition::ScalarTypeDefinition))
        }
        SyntaxKind::ObjectTypeDefinition => {
            let found = ObjectTypeDefinition::read(source, tree)?;
            Ok(found.map(Definition::ObjectTypeDefinition))
        }
        SyntaxKind::InterfaceTypeDefinition => {
            let found = InterfaceTypeDefinition::read(source, tree)?;
            Ok(found.map(Definition::InterfaceTypeDefinition))
        }
        SyntaxKind::UnionTypeDefinition => {
            let found = UnionTypeDefinition::read(source, tree)?;
            Ok(found.map(Definition::UnionTypeDefinition))
        }
        SyntaxKind::EnumTypeDefinition => {
            let found = EnumTypeDefinition::read(source, tree)?;
            Ok(found.map(Definition::EnumTypeDefinition))
        }
        SyntaxKind::InputObjectTypeDefinition => {
            let found = InputObjectTypeDefinition::read(source, tree)?;
            Ok(found.map(Definition::InputObjectTypeDefinition))
        }
        SyntaxKind::Extension => extension(source, tree),
        _ => Ok(None),
    }
}

/// What the first of the trees that defines something defines.
fn first_choice(source: &Source<'_>, nodes: &[Tree]) -> Result<Option<Definition>, Memory>
    ensures { IfOk result (λ made. made ≡ parts.first (spec.choice_of source.now.text.now source.now.file_id) (forest nodes.now)) }
{
    for node in nodes {
        if let Some(found) = choice(source, node)? {
            return Ok(Some(found));
        }
    }
    Ok(None)
}

impl Convert for Definition {
    ghost meaning = { spec.definition_of };

    #[tactic(auto, unfolding(crate::specs::Documents::definition_of))]
    fn read(source: &Source<'_>, tree: &Tree) -> Result<Option<Definition>, Memory> {
        if !is_of(tree, SyntaxKind::Definition) {
            return Ok(None);
        }
        let found = first_choice(source, tree.children().as_slice())?;
        Ok(found)
    }
}
