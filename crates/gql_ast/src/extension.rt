//! Extensions of a schema and of types: the fields of their definitions without the description.

ghost use Rattle.std.specs.Prelude.{◌≡◌};
ghost use Rattle.gql_ast_base.specs.Forest.{plain};
ghost use Rattle.gql_ast.specs.Extensions as spec;

use crate::field_definition::{
    EnumValueDefinition, FieldDefinition, InputValueDefinition, enum_values, fields, input_fields,
};
use crate::schema_definition::root_operations;
use crate::type_definition::{interfaces, members};
use gql_ast_base::{
    Convert, Directive, Name, OperationType, Source, SyntaxKind, Tree, all_three, both, directives,
    is_of, is_word, location, nth_name,
};
use gql_source::SourceSpan;
use jb_text::{Listed, Memory};

mod copying;

/// More of a schema (GraphQL October 2021, section 3.3.2).
#[derive(Drop)]
pub struct SchemaExtension {
    pub directives: Listed<Directive>,
    pub root_operations: Listed<(OperationType, Name)>,
    pub location: Option<SourceSpan>,
}

/// More of a scalar type (section 3.5.6).
#[derive(Drop)]
pub struct ScalarTypeExtension {
    pub name: Name,
    pub directives: Listed<Directive>,
    pub location: Option<SourceSpan>,
}

/// More of an object type (section 3.6.3).
#[derive(Drop)]
pub struct ObjectTypeExtension {
    pub name: Name,
    pub implements_interfaces: Listed<Name>,
    pub directives: Listed<Directive>,
    pub fields: Listed<FieldDefinition>,
    pub location: Option<SourceSpan>,
}

/// More of an interface type (section 3.7.1).
#[derive(Drop)]
pub struct InterfaceTypeExtension {
    pub name: Name,
    pub implements_interfaces: Listed<Name>,
    pub directives: Listed<Directive>,
    pub fields: Listed<FieldDefinition>,
    pub location: Option<SourceSpan>,
}

/// More of a union type (section 3.8.1).
#[derive(Drop)]
pub struct UnionTypeExtension {
    pub name: Name,
    pub directives: Listed<Directive>,
    pub members: Listed<Name>,
    pub location: Option<SourceSpan>,
}

/// More of an enum type (section 3.9.1).
#[derive(Drop)]
pub struct EnumTypeExtension {
    pub name: Name,
    pub directives: Listed<Directive>,
    pub values: Listed<EnumValueDefinition>,
    pub location: Option<SourceSpan>,
}

/// More of an input object type (section 3.10.1).
#[derive(Drop)]
pub struct InputObjectTypeExtension {
    pub name: Name,
    pub directives: Listed<Directive>,
    pub fields: Listed<InputValueDefinition>,
    pub location: Option<SourceSpan>,
}

/// Whether the tree is an extension of what the word says.
#[tactic(auto, unfolding(crate::specs::Extensions::extends))]
fn extends(tree: &Tree, text: &str, word: &str) -> bool
    ensures { result ≡ spec.extends text.now word.now (plain tree.now) }
{
    is_of(tree, SyntaxKind::Extension) && is_word(tree.children().as_slice(), text, 1, word)
}

impl Convert for SchemaExtension {
    ghost meaning = { spec.schema_extension_of };

    #[tactic(auto, unfolding(crate::specs::Extensions::schema_extension_of))]
    fn read(source: &Source<'_>, tree: &Tree) -> Result<Option<SchemaExtension>, Memory> {
        if !extends(tree, source.text, "schema") {
            return Ok(None);
        }
        let nodes = tree.children().as_slice();
        let (directives, root_operations) = both(
            directives(source, nodes),
            root_operations(source, nodes),
        )?;
        Ok(Some(SchemaExtension {
            directives,
            root_operations,
            location: location(source.file_id, tree),
        }))
    }
}

impl Convert for ScalarTypeExtension {
    ghost meaning = { spec.scalar_extension_of };

    #[tactic(auto, unfolding(crate::specs::Extensions::scalar_extension_of))]
    fn read(source: &Source<'_>, tree: &Tree) -> Result<Option<ScalarTypeExtension>, Memory> {
        if !extends(tree, source.text, "scalar") {
            return Ok(None);
        }
        let nodes = tree.children().as_slice();
        let Some(name) = nth_name(source, nodes, 2)? else {
            return Ok(None);
        };
        Ok(Some(ScalarTypeExtension {
            name,
            directives: directives(source, nodes)?,
            location: location(source.file_id, tree),
        }))
    }
}

impl Convert for ObjectTypeExtension {
    ghost meaning = { spec.object_extension_of };

    #[tactic(auto, unfolding(crate::specs::Extensions::object_extension_of))]
    fn read(source: &Source<'_>, tree: &Tree) -> Result<Option<ObjectTypeExtension>, Memory> {
        if !extends(tree, source.text, "type") {
            return Ok(None);
        }
        let nodes = tree.children().as_slice();
        let Some(name) = nth_name(source, nodes, 2)? else {
            return Ok(None);
        };
        let (implements_interfaces, directives, fields) = all_three(
            interfaces(source, nodes),
            directives(source, nodes),
            fields(source, nodes),
        )?;
        Ok(Some(ObjectTypeExtension {
            name,
            implements_interfaces,
            directives,
            fields,
            location: location(source.file_id, tree),
        }))
    }
}

impl Convert for InterfaceTypeExtension {
    ghost meaning = { spec.interface_extension_of };

    #[tactic(auto, unfolding(crate::specs::Extensions::interface_extension_of))]
    fn read(source: &Source<'_>, tree: &Tree) -> Result<Option<InterfaceTypeExtension>, Memory> {
        if !extends(tree, source.text, "interface") {
            return Ok(None);
        }
        let nodes = tree.children().as_slice();
        let Some(name) = nth_name(source, nodes, 2)? else {
            return Ok(None);
        };
        let (implements_interfaces, directives, fields) = all_three(
            interfaces(source, nodes),
            directives(source, nodes),
            fields(source, nodes),
        )?;
        Ok(Some(InterfaceTypeExtension {
            name,
            implements_interfaces,
            directives,
            fields,
            location: location(source.file_id, tree),
        }))
    }
}

impl Convert for UnionTypeExtension {
    ghost meaning = { spec.union_extension_of };

    #[tactic(auto, unfolding(crate::specs::Extensions::union_extension_of))]
    fn read(source: &Source<'_>, tree: &Tree) -> Result<Option<UnionTypeExtension>, Memory> {
        if !extends(tree, source.text, "union") {
            return Ok(None);
        }
        let nodes = tree.children().as_slice();
        let Some(name) = nth_name(source, nodes, 2)? else {
            return Ok(None);
        };
        let (directives, members) = both(directives(source, nodes), members(source, nodes))?;
        Ok(Some(UnionTypeExtension {
            name,
            directives,
            members,
            location: location(source.file_id, tree),
        }))
    }
}

impl Convert for EnumTypeExtension {
    ghost meaning = { spec.enum_extension_of };

    #[tactic(auto, unfolding(crate::specs::Extensions::enum_extension_of))]
    fn read(source: &Source<'_>, tree: &Tree) -> Result<Option<EnumTypeExtension>, Memory> {
        if !extends(tree, source.text, "enum") {
            return Ok(None);
        }
        let nodes = tree.children().as_slice();
        let Some(name) = nth_name(source, nodes, 2)? else {
            return Ok(None);
        };
        let (directives, values) = both(directives(source, nodes), enum_values(source, nodes))?;
        Ok(Some(EnumTypeExtension {
            name,
            directives,
            values,
            location: location(source.file_id, tree),
        }))
    }
}

impl Convert for InputObjectTypeExtension {
    ghost meaning = { spec.input_object_extension_of };

    #[tactic(auto, unfolding(crate::specs::Extensions::input_object_extension_of))]
    fn read(source: &Source<'_>, tree: &Tree) -> Result<Option<InputObjectTypeExtension>, Memory> {
        if !extends(tree, source.text, "input") {
            return Ok(None);
        }
        let nodes = tree.children().as_slice();
        let Some(name) = nth_name(source, nodes, 2)? else {
            return Ok(None);
        };
        let (directives, fields) = both(directives(source, nodes), input_fields(source, nodes))?;
        Ok(Some(InputObjectTypeExtension {
            name,
            directives,
            fields,
            location: location(source.file_id, tree),
        }))
    }
}
