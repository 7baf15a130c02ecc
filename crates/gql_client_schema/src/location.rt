//! Where directives may stand.

ghost use Rattle.std.specs.Prelude.{◌≡◌};
ghost use Rattle.gql_ast.specs.Schemas.{location_word};
ghost use Rattle.gql_client_schema.specs.Parts as spec;
ghost use Rattle.gql_client_schema.specs.Reading.{Answers};

use crate::path::{Unread, misfit};
use crate::reading::Read;
use gql_ast::DirectiveLocation;
use jb_tree::Value;
use std::alloc::Global;

impl Read for DirectiveLocation {
    ghost reading = { spec.read_location };

    fn read(alloc: Global, value: &Value) -> Result<DirectiveLocation, Unread> {
        match value.as_str() {
            Some(text) => location_of(alloc, text),
            None => Err(misfit(alloc)),
        }
    }
}

fn location_of(alloc: Global, text: &str) -> Result<DirectiveLocation, Unread>
    ensures { Answers (spec.location_of text.now) result }
{
    match location_named(text) {
        Some(location) => Ok(location),
        None => Err(misfit(alloc)),
    }
}

/// The place that a word names (GraphQL October 2021, section 3.13).
#[tactic(auto, unfolding(gql_ast::specs::Schemas::location_word))]
fn location_named(word: &str) -> Option<DirectiveLocation>
    ensures { result ≡ location_word word.now }
{
    match word {
        "QUERY" => Some(DirectiveLocation::Query),
        "MUTATION" => Some(DirectiveLocation::Mutation),
        "SUBSCRIPTION" => Some(DirectiveLocation::Subscription),
        "FIELD" => Some(DirectiveLocation::Field),
        "FRAGMENT_DEFINITION" => Some(DirectiveLocation::FragmentDefinition),
        "FRAGMENT_SPREAD" => Some(DirectiveLocation::FragmentSpread),
        "INLINE_FRAGMENT" => Some(DirectiveLocation::InlineFragment),
        "VARIABLE_DEFINITION" => Some(DirectiveLocation::VariableDefinition),
        "SCHEMA" => Some(DirectiveLocation::Schema),
        "SCALAR" => Some(DirectiveLocation::Scalar),
        "OBJECT" => Some(DirectiveLocation::Object),
        "FIELD_DEFINITION" => Some(DirectiveLocation::FieldDefinition),
        "ARGUMENT_DEFINITION" => Some(DirectiveLocation::ArgumentDefinition),
        "INTERFACE" => Some(DirectiveLocation::Interface),
        "UNION" => Some(DirectiveLocation::Union),
        "ENUM" => Some(DirectiveLocation::Enum),
        "ENUM_VALUE" => Some(DirectiveLocation::EnumValue),
        "INPUT_OBJECT" => Some(DirectiveLocation::InputObject),
        "INPUT_FIELD_DEFINITION" => Some(DirectiveLocation::InputFieldDefinition),
        _ => None,
    }
}
