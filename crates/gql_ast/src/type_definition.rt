//! Definitions of types.

ghost use Rattle.std.specs.Prelude.{◌≡◌, IfOk};
ghost use Rattle.gql_ast_base.specs.bridge.Forest.{forest};
ghost use Rattle.gql_ast.specs.Definitions as spec;

use crate::field_definition::{
    EnumValueDefinition, FieldDefinition, InputValueDefinition, enum_values, fields, input_fields,
};
use gql_ast_base::{
    Convert, Directive, Name, Source, SyntaxKind, Tree, all_four, all_three, both, description,
    directives, inside, is_of, location, named_types, nth_name,
};
use gql_source::SourceSpan;
use jb_text::{Listed, Memory, Text};

mod copying;

/// A scalar type (GraphQL October 2021, section 3.5).
#[derive(Drop)]
pub struct ScalarTypeDefinition {
    pub description: Option<Text>,
    pub name: Name,
    pub directives: Listed<Directive>,
    pub location: Option<SourceSpan>,
}

/// An object type (section 3.6).
#[derive(Drop)]
pub struct ObjectTypeDefinition {
    pub description: Option<Text>,
    pub name: Name,
    pub implements_interfaces: Listed<Name>,
    pub directives: Listed<Directive>,
    pub fields: Listed<FieldDefinition>,
    pub location: Option<SourceSpan>,
}

/// An interface type (section 3.7).
#[derive(Drop)]
pub struct InterfaceTypeDefinition {
    pub description: Option<Text>,
    pub name: Name,
    pub implements_interfaces: Listed<Name>,
    pub directives: Listed<Directive>,
    pub fields: Listed<FieldDefinition>,
    pub location: Option<SourceSpan>,
}

/// A union type (section 3.8).
#[derive(Drop)]
pub struct UnionTypeDefinition {
    pub description: Option<Text>,
    pub name: Name,
    pub directives: Listed<Directive>,
    pub members: Listed<Name>,
    pub location: Option<SourceSpan>,
}

/// An enum type (section 3.9).
#[derive(Drop)]
pub struct EnumTypeDefinition {
    pub description: Option<Text>,
    pub name: Name,
    pub directives: Listed<Directive>,
    pub values: Listed<EnumValueDefinition>,
    pub location: Option<SourceSpan>,
}

/// An input object type (section 3.10).
#[derive(Drop)]
pub struct InputObjectTypeDefinition {
    pub description: Option<Text>,
    pub name: Name,
    pub directives: Listed<Directive>,
    pub fields: Listed<InputValueDefinition>,
    pub location: Option<SourceSpan>,
}

/// The interfaces among the parts of an object type or an interface type.
#[tactic(auto, unfolding(crate::specs::Definitions::interfaces))]
pub(crate) fn interfaces(source: &Source<'_>, nodes: &[Tree]) -> Result<Listed<Name>, Memory>
    ensures { IfOk result (λ made. made ≡ spec.interfaces source.now.text.now source.now.file_id (forest nodes.now)) }
{
    let list = named_types(source, inside(nodes, SyntaxKind::ImplementsInterfaces))?;
    Ok(list)
}

/// The members among the parts of a union type.
#[tactic(auto, unfolding(crate::specs::Definitions::members))]
pub(crate) fn members(source: &Source<'_>, nodes: &[Tree]) -> Result<Listed<Name>, Memory>
    ensures { IfOk result (λ made. made ≡ spec.members source.now.text.now source.now.file_id (forest nodes.now)) }
{
    let list = named_types(source, inside(nodes, SyntaxKind::UnionMemberTypes))?;
    Ok(list)
}

impl Convert for ScalarTypeDefinition {
    ghost meaning = { spec.scalar_of };

    #[tactic(auto, unfolding(crate::specs::Definitions::scalar_of))]
    fn read(source: &Source<'_>, tree: &Tree) -> Result<Option<ScalarTypeDefinition>, Memory> {
        if !is_of(tree, SyntaxKind::ScalarTypeDefinition) {
            return Ok(None);
        }
        let nodes = tree.children().as_slice();
        let Some(name) = nth_name(source, nodes, 1)? else {
            return Ok(None);
        };
        let (description, directives) = both(
            description(source, nodes),
            directives(source, nodes),
        )?;
        Ok(Some(ScalarTypeDefinition {
            description,
            name,
            directives,
            location: location(source.file_id, tree),
        }))
    }
}

impl Convert for ObjectTypeDefinition {
    ghost meaning = { spec.object_of };

    #[tactic(auto, unfolding(crate::specs::Definitions::object_of))]
    fn read(source: &Source<'_>, tree: &Tree) -> Result<Option<ObjectTypeDefinition>, Memory> {
        if !is_of(tree, SyntaxKind::ObjectTypeDefinition) {
            return Ok(None);
        }
        let nodes = tree.children().as_slice();
        let Some(name) = nth_name(source, nodes, 1)? else {
            return Ok(None);
        };
        let (description, implements_interfaces, directives, fields) = all_four(
            description(source, nodes),
            interfaces(source, nodes),
            directives(source, nodes),
            fields(source, nodes),
        )?;
        Ok(Some(ObjectTypeDefinition {
            description,
            name,
            implements_interfaces,
            directives,
            fields,
            location: location(source.file_id, tree),
        }))
    }
}

impl Convert for InterfaceTypeDefinition {
    ghost meaning = { spec.interface_of };

    #[tactic(auto, unfolding(crate::specs::Definitions::interface_of))]
    fn read(source: &Source<'_>, tree: &Tree) -> Result<Option<InterfaceTypeDefinition>, Memory> {
        if !is_of(tree, SyntaxKind::InterfaceTypeDefinition) {
            return Ok(None);
        }
        let nodes = tree.children().as_slice();
        let Some(name) = nth_name(source, nodes, 1)? else {
            return Ok(None);
        };
        let (description, implements_interfaces, directives, fields) = all_four(
            description(source, nodes),
            interfaces(source, nodes),
            directives(source, nodes),
            fields(source, nodes),
        )?;
        Ok(Some(InterfaceTypeDefinition {
            description,
            name,
            implements_interfaces,
            directives,
            fields,
            location: location(source.file_id, tree),
        }))
    }
}

impl Convert for UnionTypeDefinition {
    ghost meaning = { spec.union_of };

    #[tactic(auto, unfolding(crate::specs::Definitions::union_of))]
    fn read(source: &Source<'_>, tree: &Tree) -> Result<Option<UnionTypeDefinition>, Memory> {
        if !is_of(tree, SyntaxKind::UnionTypeDefinition) {
            return Ok(None);
        }
        let nodes = tree.children().as_slice();
        let Some(name) = nth_name(source, nodes, 1)? else {
            return Ok(None);
        };
        let (description, directives, members) = all_three(
            description(source, nodes),
            directives(source, nodes),
            members(source, nodes),
        )?;
        Ok(Some(UnionTypeDefinition {
            description,
            name,
            directives,
            members,
            location: location(source.file_id, tree),
        }))
    }
}

impl Convert for EnumTypeDefinition {
    ghost meaning = { spec.enum_of };

    #[tactic(auto, unfolding(crate::specs::Definitions::enum_of))]
    fn read(source: &Source<'_>, tree: &Tree) -> Result<Option<EnumTypeDefinition>, Memory> {
        if !is_of(tree, SyntaxKind::EnumTypeDefinition) {
            return Ok(None);
        }
        let nodes = tree.children().as_slice();
        let Some(name) = nth_name(source, nodes, 1)? else {
            return Ok(None);
        };
        let (description, directives, values) = all_three(
            description(source, nodes),
            directives(source, nodes),
            enum_values(source, nodes),
        )?;
        Ok(Some(EnumTypeDefinition {
            description,
            name,
            directives,
            values,
            location: location(source.file_id, tree),
        }))
    }
}

impl Convert for InputObjectTypeDefinition {
    ghost meaning = { spec.input_object_of };

    #[tactic(auto, unfolding(crate::specs::Definitions::input_object_of))]
    fn read(source: &Source<'_>, tree: &Tree) -> Result<Option<InputObjectTypeDefinition>, Memory> {
        if !is_of(tree, SyntaxKind::InputObjectTypeDefinition) {
            return Ok(None);
        }
        let nodes = tree.children().as_slice();
        let Some(name) = nth_name(source, nodes, 1)? else {
            return Ok(None);
        };
        let (description, directives, fields) = all_three(
            description(source, nodes),
            directives(source, nodes),
            input_fields(source, nodes),
        )?;
        Ok(Some(InputObjectTypeDefinition {
            description,
            name,
            directives,
            fields,
            location: location(source.file_id, tree),
        }))
    }
}
