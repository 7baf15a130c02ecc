//! Definitions of schemas and directives.

ghost use Rattle.std.specs.Prelude.{◌≡◌, Some, IfOk};
ghost use Rattle.gql_ast_base.specs.bridge.Forest.{forest};
ghost use Rattle.gql_ast.specs.Schemas as spec;

use crate::field_definition::{InputValueDefinition, argument_definitions};
use gql_ast_base::{
    Convert, Copying, Directive, Name, OperationType, Source, SyntaxKind, Tree, after_word,
    all_four, all_three, description, directives, gather, is_of, is_word, location, nth_name, word,
};
use gql_source::SourceSpan;
use jb_text::{Listed, Memory, Text};
use std::alloc::Global;

/// The root operation types of a schema (GraphQL October 2021, section 3.3).
#[derive(Drop)]
pub struct SchemaDefinition {
    pub description: Option<Text>,
    pub directives: Listed<Directive>,
    pub root_operations: Listed<(OperationType, Name)>,
    pub location: Option<SourceSpan>,
}

/// A directive that may be used (GraphQL October 2021, section 3.13).
pub struct DirectiveDefinition {
    pub description: Option<Text>,
    pub name: Name,
    pub arguments: Listed<InputValueDefinition>,
    pub repeatable: bool,
    pub locations: Listed<DirectiveLocation>,
    pub location: Option<SourceSpan>,
}

impl Drop for DirectiveDefinition {
    fn drop(self) {
        let DirectiveDefinition {
            description: _,
            name: _,
            arguments: _,
            repeatable: _,
            locations: _,
            location: _,
        } = self;
    }
}

/// Where a directive may stand (section 3.13).
#[derive(Clone, Copy, Debug, PartialEq, Eq)]
pub enum DirectiveLocation {
    Query,
    Mutation,
    Subscription,
    Field,
    FragmentDefinition,
    FragmentSpread,
    InlineFragment,
    VariableDefinition,
    Schema,
    Scalar,
    Object,
    FieldDefinition,
    ArgumentDefinition,
    Interface,
    Union,
    Enum,
    EnumValue,
    InputObject,
    InputFieldDefinition,
}

impl DirectiveLocation {
    /// The word that names the place in texts and in introspection: `FIELD_DEFINITION`, for example.
    #[must_use]
    #[tactic(auto, unfolding(crate::specs::Schemas::location_word))]
    pub fn name(self) -> &'static str
        ensures name { result.now ≡ spec.location_name self }
        ensures back { spec.location_word result.now ≡ Some self }
    {
        match self {
            DirectiveLocation::Query => "QUERY",
            DirectiveLocation::Mutation => "MUTATION",
            DirectiveLocation::Subscription => "SUBSCRIPTION",
            DirectiveLocation::Field => "FIELD",
            DirectiveLocation::FragmentDefinition => "FRAGMENT_DEFINITION",
            DirectiveLocation::FragmentSpread => "FRAGMENT_SPREAD",
            DirectiveLocation::InlineFragment => "INLINE_FRAGMENT",
            DirectiveLocation::VariableDefinition => "VARIABLE_DEFINITION",
            DirectiveLocation::Schema => "SCHEMA",
            DirectiveLocation::Scalar => "SCALAR",
            DirectiveLocation::Object => "OBJECT",
            DirectiveLocation::FieldDefinition => "FIELD_DEFINITION",
            DirectiveLocation::ArgumentDefinition => "ARGUMENT_DEFINITION",
            DirectiveLocation::Interface => "INTERFACE",
            DirectiveLocation::Union => "UNION",
            DirectiveLocation::Enum => "ENUM",
            DirectiveLocation::EnumValue => "ENUM_VALUE",
            DirectiveLocation::InputObject => "INPUT_OBJECT",
            DirectiveLocation::InputFieldDefinition => "INPUT_FIELD_DEFINITION",
        }
    }
}

impl Copying for SchemaDefinition {
    fn copy(&self, alloc: Global) -> Result<SchemaDefinition, Memory> {
        let (description, directives, root_operations) = all_three(
            self.description.copy(alloc),
            self.directives.copy(alloc),
            self.root_operations.copy(alloc),
        )?;
        Ok(SchemaDefinition {
            description,
            directives,
            root_operations,
            location: self.location,
        })
    }
}

impl Copying for DirectiveDefinition {
    fn copy(&self, alloc: Global) -> Result<DirectiveDefinition, Memory> {
        let (description, name, arguments, locations) = all_four(
            self.description.copy(alloc),
            self.name.copy(alloc),
            self.arguments.copy(alloc),
            self.locations.copy(alloc),
        )?;
        Ok(DirectiveDefinition {
            description,
            name,
            arguments,
            repeatable: self.repeatable,
            locations,
            location: self.location,
        })
    }
}

impl Copying for DirectiveLocation {
    fn copy(&self, _alloc: Global) -> Result<DirectiveLocation, Memory> {
        Ok(*self)
    }
}

/// The place in an operation or a fragment that a word names.
fn executable_location(found: &str) -> Option<DirectiveLocation>
    ensures { result ≡ spec.executable_location found.now }
{
    match found {
        "QUERY" => Some(DirectiveLocation::Query),
        "MUTATION" => Some(DirectiveLocation::Mutation),
        "SUBSCRIPTION" => Some(DirectiveLocation::Subscription),
        "FIELD" => Some(DirectiveLocation::Field),
        "FRAGMENT_DEFINITION" => Some(DirectiveLocation::FragmentDefinition),
        "FRAGMENT_SPREAD" => Some(DirectiveLocation::FragmentSpread),
        "INLINE_FRAGMENT" => Some(DirectiveLocation::InlineFragment),
        "VARIABLE_DEFINITION" => Some(DirectiveLocation::VariableDefinition),
        _ => None,
    }
}

/// The place in a definition that a word names, of those up to `ARGUMENT_DEFINITION`.
fn output_location(found: &str) -> Option<DirectiveLocation>
    ensures { result ≡ spec.output_location found.now }
{
    match found {
        "SCHEMA" => Some(DirectiveLocation::Schema),
        "SCALAR" => Some(DirectiveLocation::Scalar),
        "OBJECT" => Some(DirectiveLocation::Object),
        "FIELD_DEFINITION" => Some(DirectiveLocation::FieldDefinition),
        "ARGUMENT_DEFINITION" => Some(DirectiveLocation::ArgumentDefinition),
        _ => None,
    }
}

/// The place in a definition that a word names, of those from `INTERFACE` on.
fn other_location(found: &str) -> Option<DirectiveLocation>
    ensures { result ≡ spec.other_location found.now }
{
    match found {
        "INTERFACE" => Some(DirectiveLocation::Interface),
        "UNION" => Some(DirectiveLocation::Union),
        "ENUM" => Some(DirectiveLocation::Enum),
        "ENUM_VALUE" => Some(DirectiveLocation::EnumValue),
        "INPUT_OBJECT" => Some(DirectiveLocation::InputObject),
        "INPUT_FIELD_DEFINITION" => Some(DirectiveLocation::InputFieldDefinition),
        _ => None,
    }
}

/// Where a directive may stand, by the word that names the place.
#[must_use]
#[tactic(auto, unfolding(crate::specs::Schemas::location_word))]
pub fn location_word(found: &str) -> Option<DirectiveLocation>
    ensures { result ≡ spec.location_word found.now }
{
    if let Some(location) = executable_location(found) {
        return Some(location);
    }
    if let Some(location) = output_location(found) {
        return Some(location);
    }
    other_location(found)
}

impl Convert for DirectiveLocation {
    ghost meaning = { λ text _ tree. spec.directive_location_of text tree };

    /// The place that a token names.
    #[tactic(auto, unfolding(crate::specs::Schemas::directive_location_of))]
    fn read(source: &Source<'_>, tree: &Tree) -> Result<Option<DirectiveLocation>, Memory> {
        match word(source.text, tree) {
            Some(found) => Ok(location_word(found)),
            None => Ok(None),
        }
    }
}

/// The places among the parts of a directive's definition, which stand behind its name.
#[tactic(auto, unfolding(crate::specs::Schemas::directive_locations))]
fn directive_locations(
    source: &Source<'_>,
    nodes: &[Tree],
) -> Result<Listed<DirectiveLocation>, Memory>
    ensures { IfOk result (λ made. made ≡ spec.directive_locations source.now.text.now (forest nodes.now)) }
{
    let list = gather(source, after_word(nodes, source.text, 1))?;
    Ok(list)
}

/// The root operations among the parts of a schema.
#[tactic(auto, unfolding(crate::specs::Schemas::root_operations))]
pub(crate) fn root_operations(
    source: &Source<'_>,
    nodes: &[Tree],
) -> Result<Listed<(OperationType, Name)>, Memory>
    ensures { IfOk result (λ made. made ≡ spec.root_operations source.now.text.now source.now.file_id (forest nodes.now)) }
{
    let list = gather(source, nodes)?;
    Ok(list)
}

impl Convert for SchemaDefinition {
    ghost meaning = { spec.schema_of };

    #[tactic(auto, unfolding(crate::specs::Schemas::schema_of))]
    fn read(source: &Source<'_>, tree: &Tree) -> Result<Option<SchemaDefinition>, Memory> {
        if !is_of(tree, SyntaxKind::SchemaDefinition) {
            return Ok(None);
        }
        let nodes = tree.children().as_slice();
        let (description, directives, root_operations) = all_three(
            description(source, nodes),
            directives(source, nodes),
            root_operations(source, nodes),
        )?;
        Ok(Some(SchemaDefinition {
            description,
            directives,
            root_operations,
            location: location(source.file_id, tree),
        }))
    }
}

impl Convert for DirectiveDefinition {
    ghost meaning = { spec.directive_definition_of };

    #[tactic(auto, unfolding(crate::specs::Schemas::directive_definition_of))]
    fn read(source: &Source<'_>, tree: &Tree) -> Result<Option<DirectiveDefinition>, Memory> {
        if !is_of(tree, SyntaxKind::DirectiveDefinition) {
            return Ok(None);
        }
        let nodes = tree.children().as_slice();
        let Some(name) = nth_name(source, nodes, 1)? else {
            return Ok(None);
        };
        let (description, arguments, locations) = all_three(
            description(source, nodes),
            argument_definitions(source, nodes),
            directive_locations(source, nodes),
        )?;
        Ok(Some(DirectiveDefinition {
            description,
            name,
            arguments,
            repeatable: is_word(nodes, source.text, 2, "repeatable"),
            locations,
            location: location(source.file_id, tree),
        }))
    }
}
