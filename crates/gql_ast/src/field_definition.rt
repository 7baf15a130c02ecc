//! Definitions of fields, arguments and enum values.

ghost use Rattle.std.specs.Prelude.{◌≡◌, IfOk};
ghost use Rattle.gql_ast_base.specs.bridge.Forest.{forest};
ghost use Rattle.gql_ast.specs.Fields as spec;

use gql_ast_base::{
    Convert, Copying, Directive, Name, Source, SyntaxKind, Tree, TypeRef, Value, all_three, both,
    default_value, description, directives, first, gather, inside, is_of, location, nth_name,
};
use gql_source::SourceSpan;
use jb_text::{Listed, Memory, Text};
use std::alloc::Global;

/// A field of an object type or an interface type (GraphQL October 2021, section 3.6).
pub struct FieldDefinition {
    pub description: Option<Text>,
    pub name: Name,
    pub arguments: Listed<InputValueDefinition>,
    pub ty: TypeRef,
    pub directives: Listed<Directive>,
    pub location: Option<SourceSpan>,
}

impl Drop for FieldDefinition {
    fn drop(self) {
        let FieldDefinition {
            description: _,
            name: _,
            arguments: _,
            ty: _,
            directives: _,
            location: _,
        } = self;
    }
}

/// An argument of a field or a directive (section 3.6.1), or a field of an input object type (section 3.10).
pub struct InputValueDefinition {
    pub description: Option<Text>,
    pub name: Name,
    pub ty: TypeRef,
    pub default_value: Option<Value>,
    pub directives: Listed<Directive>,
    pub location: Option<SourceSpan>,
}

impl Drop for InputValueDefinition {
    fn drop(self) {
        let InputValueDefinition {
            description: _,
            name: _,
            ty: _,
            default_value: _,
            directives: _,
            location: _,
        } = self;
    }
}

/// A value of an enum type (section 3.9).
pub struct EnumValueDefinition {
    pub description: Option<Text>,
    pub value: Name,
    pub directives: Listed<Directive>,
    pub location: Option<SourceSpan>,
}

impl Drop for EnumValueDefinition {
    fn drop(self) {
        let EnumValueDefinition {
            description: _,
            value: _,
            directives: _,
            location: _,
        } = self;
    }
}

impl Copying for FieldDefinition {
    fn copy(&self, alloc: Global) -> Result<FieldDefinition, Memory> {
        let (description, name, directives) = all_three(
            self.description.copy(alloc),
            self.name.copy(alloc),
            self.directives.copy(alloc),
        )?;
        let (arguments, ty) = both(self.arguments.copy(alloc), self.ty.copy(alloc))?;
        Ok(FieldDefinition {
            description,
            name,
            arguments,
            ty,
            directives,
            location: self.location,
        })
    }
}

impl Copying for InputValueDefinition {
    fn copy(&self, alloc: Global) -> Result<InputValueDefinition, Memory> {
        let (description, name, directives) = all_three(
            self.description.copy(alloc),
            self.name.copy(alloc),
            self.directives.copy(alloc),
        )?;
        let (ty, default_value) = both(self.ty.copy(alloc), self.default_value.copy(alloc))?;
        Ok(InputValueDefinition {
            description,
            name,
            ty,
            default_value,
            directives,
            location: self.location,
        })
    }
}

impl Copying for EnumValueDefinition {
    fn copy(&self, alloc: Global) -> Result<EnumValueDefinition, Memory> {
        let (description, value, directives) = all_three(
            self.description.copy(alloc),
            self.value.copy(alloc),
            self.directives.copy(alloc),
        )?;
        Ok(EnumValueDefinition {
            description,
            value,
            directives,
            location: self.location,
        })
    }
}

impl Convert for InputValueDefinition {
    ghost meaning = { spec.input_value_of };

    #[tactic(auto, unfolding(crate::specs::Fields::input_value_of))]
    fn read(source: &Source<'_>, tree: &Tree) -> Result<Option<InputValueDefinition>, Memory> {
        if !is_of(tree, SyntaxKind::InputValueDefinition) {
            return Ok(None);
        }
        let nodes = tree.children().as_slice();
        let Some(name) = nth_name(source, nodes, 0)? else {
            return Ok(None);
        };
        let Some(ty) = first(source, nodes)? else {
            return Ok(None);
        };
        let (description, default_value, directives) = all_three(
            description(source, nodes),
            default_value(source, nodes),
            directives(source, nodes),
        )?;
        Ok(Some(InputValueDefinition {
            description,
            name,
            ty,
            default_value,
            directives,
            location: location(source.file_id, tree),
        }))
    }
}

impl Convert for FieldDefinition {
    ghost meaning = { spec.field_of };

    #[tactic(auto, unfolding(crate::specs::Fields::field_of))]
    fn read(source: &Source<'_>, tree: &Tree) -> Result<Option<FieldDefinition>, Memory> {
        if !is_of(tree, SyntaxKind::FieldDefinition) {
            return Ok(None);
        }
        let nodes = tree.children().as_slice();
        let Some(name) = nth_name(source, nodes, 0)? else {
            return Ok(None);
        };
        let Some(ty) = first(source, nodes)? else {
            return Ok(None);
        };
        let (description, arguments, directives) = all_three(
            description(source, nodes),
            argument_definitions(source, nodes),
            directives(source, nodes),
        )?;
        Ok(Some(FieldDefinition {
            description,
            name,
            arguments,
            ty,
            directives,
            location: location(source.file_id, tree),
        }))
    }
}

impl Convert for EnumValueDefinition {
    ghost meaning = { spec.enum_value_of };

    #[tactic(auto, unfolding(crate::specs::Fields::enum_value_of))]
    fn read(source: &Source<'_>, tree: &Tree) -> Result<Option<EnumValueDefinition>, Memory> {
        if !is_of(tree, SyntaxKind::EnumValueDefinition) {
            return Ok(None);
        }
        let nodes = tree.children().as_slice();
        let names = inside(nodes, SyntaxKind::EnumValue);
        let Some(value) = nth_name(source, names, 0)? else {
            return Ok(None);
        };
        let (description, directives) = both(
            description(source, nodes),
            directives(source, nodes),
        )?;
        Ok(Some(EnumValueDefinition {
            description,
            value,
            directives,
            location: location(source.file_id, tree),
        }))
    }
}

/// The arguments among the parts of a definition.
#[tactic(auto, unfolding(crate::specs::Fields::argument_definitions))]
pub(crate) fn argument_definitions(
    source: &Source<'_>,
    nodes: &[Tree],
) -> Result<Listed<InputValueDefinition>, Memory>
    ensures { IfOk result (λ made. made ≡ spec.argument_definitions source.now.text.now source.now.file_id (forest nodes.now)) }
{
    let list = gather(source, inside(nodes, SyntaxKind::ArgumentsDefinition))?;
    Ok(list)
}

/// The fields among the parts of an input object type.
#[tactic(auto, unfolding(crate::specs::Fields::input_fields))]
pub(crate) fn input_fields(
    source: &Source<'_>,
    nodes: &[Tree],
) -> Result<Listed<InputValueDefinition>, Memory>
    ensures { IfOk result (λ made. made ≡ spec.input_fields source.now.text.now source.now.file_id (forest nodes.now)) }
{
    let list = gather(source, inside(nodes, SyntaxKind::InputFieldsDefinition))?;
    Ok(list)
}

/// The fields among the parts of an object type or an interface type.
#[tactic(auto, unfolding(crate::specs::Fields::fields))]
pub(crate) fn fields(source: &Source<'_>, nodes: &[Tree]) -> Result<Listed<FieldDefinition>, Memory>
    ensures { IfOk result (λ made. made ≡ spec.fields source.now.text.now source.now.file_id (forest nodes.now)) }
{
    let list = gather(source, inside(nodes, SyntaxKind::FieldsDefinition))?;
    Ok(list)
}

/// The values among the parts of an enum type.
#[tactic(auto, unfolding(crate::specs::Fields::enum_values))]
pub(crate) fn enum_values(
    source: &Source<'_>,
    nodes: &[Tree],
) -> Result<Listed<EnumValueDefinition>, Memory>
    ensures { IfOk result (λ made. made ≡ spec.enum_values source.now.text.now source.now.file_id (forest nodes.now)) }
{
    let list = gather(source, inside(nodes, SyntaxKind::EnumValuesDefinition))?;
    Ok(list)
}
